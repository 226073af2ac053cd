//! The tables that a search works in, and the scan of one event after another.
ghost use Rattle.std.specs.Prelude.{◌≡◌, ℕ, ◌+◌, ◌<◌, ◌≤◌, true, length, Some, ◌↔◌, IsTrue};
ghost use Rattle.scans.specs.Accounts.{Accounts, TakesDue, AllLater};
ghost use Rattle.scans.specs.Boards.{board_after, entry_for, slot_of};
ghost use Rattle.scans.specs.Entering.{best_before, entry_from};
ghost use Rattle.scans.specs.Progress.{WritesEntry, HasRoom, ScansOrRefuses, Scans};
ghost use Rattle.scans.specs.Tables.{SameWork, arrivals_in, contents};

use crate::arrival::Arrival;
use crate::board::{Incumbent, place};
use crate::enter::{best_before, capped_end};
use crate::entry::{Entry, Stage, entry_for, slot_of};
use faults::Fault;
use journeys::{Query, label_through, reaches_at};
use measures::Measure;
use queue::{peek, put, take};
use records::Event;

/// A log of entries, a board of who is ready where, and a queue of awaited arrivals, of whose slots the
/// first `used` are in use. All three are the caller's memory, in flat slices: two entries for each
/// event, two slots for each stop.
#[derive(Drop)]
pub struct Work<'a, L> {
    pub log: &'a mut [Option<Entry<L>>],
    pub board: &'a mut [Option<Incumbent<L>>],
    pub queue: &'a mut [Arrival],
    pub used: usize,
}

// Takes an arrival that is due by a minute, if there is one. As a method it would have to say of all tables that the others stay.
// Inlined, since mostly none is due, and then a look at the first arrival is all there is to do.
#[inline(always)]
fn take_due(queue: &mut [Arrival], used: &mut usize, minute: u32) -> Option<Arrival>
    ensures { TakesDue minute queue.old used.old result queue.new used.new }
{
    let next = peek(queue, *used)?;
    if next.minute > minute {
        return None;
    }
    take(queue, used)
}

impl<L: Copy> Work<'_, L> {
    // Writes the entry for a stage into the log, and awaits its arrival. Inlined, as what calls it is: else each event costs a
    // tenth more.
    #[inline(always)]
    fn note(&mut self, stage: Stage, entry: Entry<L>)
        requires slot { slot_of stage.event stage.called < length self.old.log.now }
        requires free { self.old.used < length self.old.queue.now }
        ensures noted { WritesEntry (Some entry) stage (contents self.old) (contents self.new) }
        ensures same { SameWork self.old self.new }
    {
        self.log[slot_of(stage.event, stage.called)] = Some(entry);
        let minute = entry.ready();
        // Not refused, since a slot is free.
        let _ = put(self.queue, &mut self.used, Arrival { minute, stage });
    }

    // The entry for an event in a call state, none where no journey comes to it.
    fn entry_of<M: Measure<Label = L>>(
        &self,
        query: Query,
        event: Event,
        called: bool,
    ) -> Option<Entry<L>>
        ensures { let before = best_before M.ops self.now.board.now query event called in
            result ≡ entry_from M.ops event before }
    {
        let (label, predecessor) = best_before::<M>(self.board, query, event, called)?;
        Some(Entry {
            label: label_through::<M>(label, event),
            predecessor,
            stop: reaches_at(event),
            end: capped_end(event),
        })
    }

    // Writes the entry of an event at a stage of its own, if some journey comes to it, and awaits its arrival.
    #[inline(always)]
    fn note_state<M: Measure<Label = L>>(&mut self, query: Query, stage: Stage, event: Event)
        requires slot { slot_of stage.event stage.called < length self.old.log.now }
        requires free { self.old.used < length self.old.queue.now }
        ensures noted { let board = self.old.board.now in
            let before = best_before M.ops board query event stage.called in
            WritesEntry (entry_from M.ops event before) stage
            (contents self.old) (contents self.new) }
        ensures more { self.new.used ≤ self.old.used + 1 }
        ensures same { SameWork self.old self.new }
    {
        if let Some(entry) = self.entry_of::<M>(query, event, stage.called) {
            self.note(stage, entry);
        }
    }

    // The entry that the log has for a stage.
    fn entry_at(&self, stage: Stage) -> Option<Entry<L>>
        ensures { result ≡ entry_for self.now.log.now stage.event stage.called }
    {
        entry_for(self.log, stage)
    }

    // Brings an arrival to the board.
    fn bring<M: Measure<Label = L>>(&mut self, arrival: Arrival)
        ensures brought { let before = contents self.old in
            let board = board_after M.ops before.log before.board arrival in
            contents self.new ≡ record before { board = board } }
        ensures same { SameWork self.old self.new }
    {
        let stage = arrival.stage;
        let Some(entry) = self.entry_at(stage) else {
            return;
        };
        let at = slot_of(u16::from(entry.stop), stage.called);
        if at < self.board.len() {
            let label = entry.label;
            let event = stage.event;
            place::<M>(self.board, at, Incumbent { label, event });
        }
    }

    // Brings every arrival that is due by a minute to the board.
    fn drain<M: Measure<Label = L>>(&mut self, minute: u32)
        ensures fewer { self.new.used ≤ self.old.used }
        ensures log { self.new.log.now ≡ self.old.log.now }
        ensures accounts { (k t : ℕ)
            → t ≤ minute
            → Accounts M.ops (contents self.old) k t
            → Accounts M.ops (contents self.new) k minute
            × AllLater minute (arrivals_in (contents self.new)) }
        ensures same { SameWork self.old self.new }
    {
        while let Some(arrival) = take_due(self.queue, &mut self.used, minute) {
            self.bring::<M>(arrival);
        }
    }

    // Takes the event with a number as the next one: what is due by then comes to the board, and the event's entries are
    // written, if it is in force. Number, event and whether it is in force are three parameters, because the reading has
    // them one by one.
    fn take_event<M: Measure<Label = L>>(
        &mut self,
        query: Query,
        number: u16,
        event: Event,
        in_force: bool,
    )
        requires { HasRoom number (contents self.old) }
        ensures scans { let before = contents self.old in let after = contents self.new in
            Scans M.ops query number event in_force before after }
        ensures more { self.new.used ≤ self.old.used + 2 }
        ensures same { SameWork self.old self.new }
    {
        self.drain::<M>(event.time());
        if in_force {
            let uncalled = Stage {
                event: number,
                called: false,
            };
            let called = Stage {
                called: true,
                ..uncalled
            };
            self.note_state::<M>(query, uncalled, event);
            self.note_state::<M>(query, called, event);
        }
    }

    // Whether the log has slots for an event, and the queue two that are free.
    fn has_room(&self, number: u16) -> bool
        ensures { IsTrue result ↔ HasRoom number (contents self.now) }
    {
        usize::from(number) < self.log.len() / 2 && self.queue.len().saturating_sub(self.used) >= 2
    }

    /// Scans the connection that an event is, as the next one, with its number. Number, event and
    /// whether it is in force are three parameters, because the reading has them one by one.
    ///
    /// # Errors
    ///
    /// Fault 16 where the log has no slots for it, or the queue has fewer than two that are free.
    pub fn scan<M: Measure<Label = L>>(
        &mut self,
        query: Query,
        number: u16,
        event: Event,
        in_force: bool,
    ) -> Result<(), Fault>
        ensures scan { let before = contents self.old in let after = contents self.new in
            ScansOrRefuses M.ops query number event in_force before result after }
        ensures same { SameWork self.old self.new }
    {
        if !self.has_room(number) {
            return Err(Fault::WorkTableTooShort);
        }
        self.take_event::<M>(query, number, event, in_force);
        Ok(())
    }

    /// Ends the loan: each memory goes back to its lender with what the tables held.
    pub fn give_back(self)
        ensures log { self.exit.0.now ≡ self.entry.log.now }
        ensures board { self.exit.1.0.now ≡ self.entry.board.now }
        ensures queue { self.exit.1.1.0.now ≡ self.entry.queue.now }
    {}
}
