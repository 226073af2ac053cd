//! The tables that a post works with.
ghost use Rattle.std.specs.Prelude.{◌≡◌};

use measures::Trip;
use scans::{Arrival, Entry, Incumbent};
use search::Carried;

/// A log and a board for labels that are numbers, and for those that are trips, since an entry has its label's type; a queue of
/// awaited arrivals, and a table of steps, whose front takes the event numbers of the journey that a query names.
#[derive(Drop)]
pub struct PostTables<'a> {
    pub log: &'a mut [Option<Entry<Carried<u32>>>],
    pub board: &'a mut [Option<Incumbent<Carried<u32>>>],
    pub trip_log: &'a mut [Option<Entry<Carried<Trip>>>],
    pub trip_board: &'a mut [Option<Incumbent<Carried<Trip>>>],
    pub queue: &'a mut [Arrival],
    pub steps: &'a mut [usize],
}

impl PostTables<'_> {
    /// Ends the loan: each memory goes back to its lender with what the tables held.
    pub fn give_back(self)
        ensures log { self.exit.0.now ≡ self.entry.log.now }
        ensures board { self.exit.1.0.now ≡ self.entry.board.now }
        ensures trip_log { self.exit.1.1.0.now ≡ self.entry.trip_log.now }
        ensures trip_board { self.exit.1.1.1.0.now ≡ self.entry.trip_board.now }
        ensures queue { self.exit.1.1.1.1.0.now ≡ self.entry.queue.now }
        ensures steps { self.exit.1.1.1.1.1.0.now ≡ self.entry.steps.now }
    {}
}
