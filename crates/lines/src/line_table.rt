//! A table of the lines of a block.
ghost use Rattle.std.specs.Prelude.{◌≡◌, ℕ, ◌<◌, length, slice_index_or};
ghost use Rattle.std.proofs.Props.{props};
ghost use Rattle.std.specs.Result.{result_map_both};
ghost use Rattle.faults.specs.Rules.{ruling};
ghost use Rattle.records.specs.Events.{IsTimetable, HasStops-prop};
ghost use Rattle.records.specs.Limits.{most_lines};
ghost use Rattle.lines.specs.Departures.{events_on, ride_on};
ghost use Rattle.lines.specs.Lines.{block_rules, lines_of, no_line, table};
ghost use Rattle.lines.specs.Merges.{end_minute, cursor_of};

use crate::departure::Departure;
use crate::line::{Line, read_after};
use blocks::rows;
use faults::Fault;
use records::{Event, Ride};

// The most lines that a block may have.
pub(crate) const MOST_LINES: usize = 32;

// What stands in the part of a table that holds no line. A derived default was tried: it answers by a fact, and the table is
// compared slot by slot.
const NO_LINE: Line = Line {
    first: Ride {
        from: 0,
        to: 0,
        departure: 0,
        duration: 0,
    },
    interval: 0,
    rides: 0,
};

// Lines whose rides together are a timetable's list, and the number of these rides.
#[derive(Clone, Copy)]
pub(crate) struct LineTable {
    pub lines: [Line; MOST_LINES],
    pub rides: usize,
    ghost all: { length lines ≡ most_lines },
    ghost size: { rides ≡ length (events_on lines) },
    ghost listed: { IsTimetable (events_on lines) } by { Prim.hlevel (props, HasStops-prop) },
    ghost fits: { (k : ℕ) →
        end_minute (cursor_of (slice_index_or lines k no_line)) < 4294967296 },
}

impl LineTable {
    // Opens any bytes as a block of lines: a table of them, or the first rule broken.
    pub(crate) fn open(bytes: &[u8]) -> Result<LineTable, Fault>
        ensures { result_map_both (λ t. t.lines) (λ f. f) result
            ≡ ruling (block_rules bytes.now) (table (lines_of bytes.now)) }
    {
        let rows = rows::<MOST_LINES>(bytes)?;
        let mut lines = [NO_LINE; MOST_LINES];
        let mut rides = 0;
        for (place, row) in rows.iter().enumerate() {
            let line = read_after(rides, place, row)?;
            // By its place: nothing is known of what is written through `iter_mut` beside another iterator.
            lines[place] = line;
            rides += usize::from(line.rides);
        }
        Ok(LineTable { lines, rides })
    }

    // The ride of a departure.
    pub(crate) fn ride_on(&self, departure: Departure) -> Event
        requires { departure.line < most_lines }
        ensures { result ≡ ride_on self.now.lines departure }
    {
        Event::Ride(Ride {
            departure: departure.minute,
            ..self.lines[departure.line].first
        })
    }
}
