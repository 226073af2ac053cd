//! A source over a block of events, which it copies.
ghost use Rattle.std.specs.Prelude.{◌≡◌, ◌≤◌, length, IfOk};
ghost use Rattle.std.proofs.Props.{props};
ghost use Rattle.std.specs.Result.{result_map_both};
ghost use Rattle.records.specs.Events.{IsTimetable, HasStops-prop};
ghost use Rattle.blocks.specs.Blocks.{events_or_fault};
ghost use Rattle.blocks.specs.Views.{events as events_in};
ghost use Rattle.sources.specs.Tables.{front_of};

use crate::source::Source;
use blocks::Block;
use faults::Fault;
use records::{Event, MOST_EVENTS, Opening};

// What the part of a table has that is not filled. The judge has the same opening with another meaning, for a number beyond
// the list.
const BLANK: Event = Event::Opening(Opening { stop: 0, minute: 0 });

/// The first `count` events of a table, which are a timetable's list, and a place among them. There is no heap, so the table
/// has its full length.
#[derive(Drop)]
pub struct RecordSource {
    table: [Event; MOST_EVENTS],
    count: usize,
    place: usize,
    ghost size: { count ≡ length (front_of table count) },
    ghost listed: { IsTimetable (front_of table count) } by { Prim.hlevel (props, HasStops-prop) },
    ghost reached: { place ≤ length (front_of table count) },
}

// A table whose front is the block's events.
fn table_of(block: &Block) -> [Event; MOST_EVENTS]
    ensures { front_of result (length (events_in block.now)) ≡ events_in block.now }
{
    let mut table = [BLANK; MOST_EVENTS];
    for (place, slot) in table.iter_mut().enumerate() {
        *slot = block.event(place).unwrap_or(BLANK);
    }
    table
}

impl RecordSource {
    /// Opens any bytes as a block of events: a source of its events, at the first one.
    ///
    /// # Errors
    ///
    /// The block's first fault, as `Block::open`.
    pub fn open(bytes: &[u8]) -> Result<RecordSource, Fault>
        ensures value { let events = ⟦<RecordSource as Source>⟧.events in
            result_map_both events (λ f. f) result ≡ events_or_fault bytes.now }
        ensures start { IfOk result (λ s. ⟦<RecordSource as Source>⟧.place s ≡ 0) }
    {
        let block = Block::open(bytes)?;
        Ok(RecordSource {
            table: table_of(&block),
            count: block.len(),
            place: 0,
        })
    }
}

impl Source for RecordSource {
    ghost events = { λ s. front_of s.table s.count };

    ghost place = { λ s. s.place };

    ghost listed = { λ s. s.listed };

    ghost within = { λ s. s.reached };

    fn size(&self) -> usize {
        self.count
    }

    fn rewind(&mut self) {
        self.place = 0;
    }

    fn next(&mut self) -> Option<Event> {
        let event = self.table[..self.count].get(self.place).copied()?;
        self.place += 1;
        Some(event)
    }
}
