//! The tables that a search borrows.
ghost use Rattle.std.specs.Prelude.{◌≡◌};
ghost use Rattle.faults.specs.Rules.{ruling};
ghost use Rattle.search.specs.Lengths.{table_rules};
ghost use Rattle.search.specs.Tables.{lengths};

use faults::Fault;
use records::MOST_STOPS;
use scans::{Arrival, Entry, Incumbent};

/// How many slots a board has: one for each stop and call state.
pub const BOARD_SLOTS: usize = MOST_STOPS * 2;

/// A log of entries, a board of who is ready at a stop, a queue of awaited arrivals, and a table of
/// steps, whose front takes the event numbers of the journey that a search names.
#[derive(Drop)]
pub struct Tables<'a, L> {
    pub log: &'a mut [Option<Entry<L>>],
    pub board: &'a mut [Option<Incumbent<L>>],
    pub queue: &'a mut [Arrival],
    pub steps: &'a mut [usize],
}

impl<L: Copy> Tables<'_, L> {
    /// Tests whether these tables are long enough for a search over so many events, which makes the
    /// same test itself. A caller that has more than one search to make, or more to test, may make
    /// it first, so that a refusal comes before anything is read.
    ///
    /// # Errors
    ///
    /// Fault 16 where a work table is too short, and 17 where the step table is.
    pub fn check(&self, events: usize) -> Result<(), Fault>
        ensures { result ≡ ruling (table_rules events (lengths self.now)) tt }
    {
        // Half a length, since twice a number of events may be more than a number holds.
        if self.log.len() / 2 < events
            || self.board.len() < BOARD_SLOTS
            || self.queue.len() / 2 < events
        {
            return Err(Fault::WorkTableTooShort);
        }
        if self.steps.len() < events {
            return Err(Fault::StepTableTooShort);
        }
        Ok(())
    }

    /// Ends the loan: each memory goes back to its lender with what the tables held.
    pub fn give_back(self)
        ensures log { self.exit.0.now ≡ self.entry.log.now }
        ensures board { self.exit.1.0.now ≡ self.entry.board.now }
        ensures queue { self.exit.1.1.0.now ≡ self.entry.queue.now }
        ensures steps { self.exit.1.1.1.0.now ≡ self.entry.steps.now }
    {}
}
