//! A source of rides over a block of lines.
ghost use Rattle.std.specs.Prelude.{◌≡◌, ℕ, ◌≤◌, length, drop, Some, sum_by, IfErr, IfOk};
ghost use Rattle.faults.specs.Rules.{first_fault};
ghost use Rattle.lines.specs.declared.departure.Departure.{Departure as Departing};
ghost use Rattle.lines.specs.Departures.{OnlyOne, departures, events_on};
ghost use Rattle.lines.specs.Lines.{block_rules};
ghost use Rattle.lines.specs.Merges.{departures_left};
ghost use Rattle.lines.specs.Opening.{IsOpened};

use crate::line_table::LineTable;
use crate::merge::Merge;
use faults::Fault;
use records::Event;
use sources::Source;

/// A table of lines, of whose rides `place` are read.
#[derive(Drop)]
pub struct LineSource {
    table: LineTable,
    merge: Merge,
    place: usize,
    ghost reached: { place ≤ length (events_on table.lines) },
    ghost left: { (f : Departing → ℕ) →
        sum_by f (departures_left merge.cursors.table)
        ≡ sum_by f (drop place (departures table.lines)) },
}

impl LineSource {
    /// Opens any bytes as a block of lines: a source of all their rides, at the first one.
    ///
    /// # Errors
    ///
    /// The block's first fault: 1 or 2 of its size, then line by line 3 to 8, and 10.
    pub fn open(bytes: &[u8]) -> Result<LineSource, Fault>
        ensures opened { let source = ⟦<LineSource as Source>⟧ in
            IfOk result (λ s. IsOpened bytes.now (source.events s) (source.place s)) }
        ensures refused { IfErr result (λ f. first_fault (block_rules bytes.now) ≡ Some f) }
        ensures only { OnlyOne }
    {
        let table = LineTable::open(bytes)?;
        Ok(LineSource {
            table,
            merge: Merge::begin(&table),
            place: 0,
        })
    }
}

impl Source for LineSource {
    ghost events = { λ s. events_on s.table.lines };

    ghost place = { λ s. s.place };

    ghost listed = { λ s. s.table.listed };

    ghost within = { λ s. s.reached };

    fn size(&self) -> usize {
        self.table.rides
    }

    fn rewind(&mut self) {
        self.merge = Merge::begin(&self.table);
        self.place = 0;
    }

    fn next(&mut self) -> Option<Event> {
        let departure = self.merge.next_departure()?;
        self.place += 1;
        Some(self.table.ride_on(departure))
    }
}
