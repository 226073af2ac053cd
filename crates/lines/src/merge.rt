//! The departures of all lines, drawn one after another from a queue of each line's next one.
ghost use Rattle.std.specs.Prelude.{◌≡◌, ℕ, ◌<◌, ◌≤◌, length, sum_by};
ghost use Rattle.records.specs.Limits.{most_lines};
ghost use Rattle.queue.specs.Order.{IsHeapOrdered};
ghost use Rattle.queue.specs.Queue.{elements};
ghost use Rattle.lines.specs.declared.departure.Departure.{Departure as Departing};
ghost use Rattle.lines.specs.Departures.{before as earlier, departures};
ghost use Rattle.lines.specs.Merges.{DrawsNext, QueuesNext, next_departures, departures_left};

use crate::cursor::Cursors;
use crate::departure::Departure;
use crate::line_table::{LineTable, MOST_LINES};
use queue::{put, take};

// The queue holds the next departure of each line that has one, in a fixed table: there is no heap.
#[derive(Drop)]
pub(crate) struct Merge {
    cursors: Cursors,
    slots: [Departure; MOST_LINES],
    used: usize,
    ghost long: { length slots ≡ most_lines },
    ghost room: { used ≤ most_lines },
    ghost heaped: { IsHeapOrdered earlier (elements slots used) },
    ghost bag: { (f : Departing → ℕ) →
        sum_by f (elements slots used) ≡ sum_by f (next_departures cursors.table) },
}

// Puts a departure into a queue that has room, where there is one. Slots and count are lent, as every queue's are.
fn put_next(slots: &mut [Departure], used: &mut usize, next: Option<Departure>)
    requires { used.old < length slots.old }
    ensures { QueuesNext slots.old used.old next slots.new used.new }
{
    if let Some(departure) = next {
        // Not refused, since a slot is left.
        let _ = put(slots, used, departure);
    }
}

impl Merge {
    // Stands before the first departure of all lines.
    pub(crate) fn begin(lines: &LineTable) -> Merge
        ensures { (f : Departing → ℕ) →
            sum_by f (departures_left result.cursors.table)
            ≡ sum_by f (departures lines.now.lines) }
    {
        let cursors = Cursors::of(lines);
        let mut slots = [Departure::default(); MOST_LINES];
        let mut used = 0;
        for (line, cursor) in cursors.table.iter().enumerate() {
            put_next(&mut slots, &mut used, cursor.next(line));
        }
        Merge {
            cursors,
            slots,
            used,
        }
    }

    // Draws the departure that goes before all others left, where any is left.
    pub(crate) fn next_departure(&mut self) -> Option<Departure>
        ensures { let left = departures_left self.old.cursors.table in
            DrawsNext left result (departures_left self.new.cursors.table) }
    {
        let departure = take(&mut self.slots, &mut self.used)?;
        let following = self.cursors.advance(departure.line);
        put_next(&mut self.slots, &mut self.used, following);
        Some(departure)
    }
}
