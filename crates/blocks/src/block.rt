//! A block: records with nothing else, opened over any bytes.
ghost use Rattle.std.specs.Prelude.{◌≡◌, map, length, IfOk};
ghost use Rattle.std.proofs.Props.{props};
ghost use Rattle.std.specs.Result.{result_map_both};
ghost use Rattle.std.specs.List.{slice_get};
ghost use Rattle.faults.specs.Rules.{ruling};
ghost use Rattle.records.specs.Events.{IsTimetable, HasStops-prop};
ghost use Rattle.records.specs.Layout.{event_in};
ghost use Rattle.blocks.specs.Blocks.{events_or_fault, records_rules, rules_after};

use crate::row::rows;
use faults::Fault;
use records::{Event, MOST_EVENTS, fields, read};

/// The records of an opened block, whose events are a timetable's list.
#[derive(Clone, Copy)]
pub struct Block<'a> {
    rows: &'a [[u8; 16]],
    ghost listed: { IsTimetable (map event_in rows.now) } by { Prim.hlevel (props, HasStops-prop) },
}

// The event of a record, refused as the one at `place` behind the event `last` with the first rule that it breaks.
pub(crate) fn read_after(last: Option<Event>, place: usize, row: &[u8; 16]) -> Result<Event, Fault>
    ensures { result ≡ ruling (rules_after last place row.now) (event_in row.now) }
{
    let event = read(row, place)?;
    if last.is_some_and(|last| !last.may_precede(event)) {
        return Err(Fault::OutOfOrder { place });
    }
    Ok(event)
}

// Refuses with the first rule that a record breaks, record after record.
fn check_each(rows: &[[u8; 16]]) -> Result<(), Fault>
    ensures { result ≡ ruling (records_rules rows.now) tt }
{
    let mut last = None;
    for (place, row) in rows.iter().enumerate() {
        last = Some(read_after(last, place, row)?);
    }
    Ok(())
}

impl<'a> Block<'a> {
    ghost use Rattle.blocks.specs.Views.{bytes_of, events};

    /// Opens any bytes as a block: a view of its events.
    ///
    /// # Errors
    ///
    /// The first fault: 1 or 2 of its size, then record by record 3 to 6, 8 and 9.
    pub fn open(bytes: &'a [u8]) -> Result<Block<'a>, Fault>
        ensures value { result_map_both events (λ f. f) result ≡ events_or_fault bytes.now }
        ensures same { IfOk result (λ b. bytes_of b ≡ bytes.now) }
        ensures listed { IfOk result (λ b. IsTimetable (events b)) }
    {
        let rows = rows::<MOST_EVENTS>(bytes)?;
        check_each(rows)?;
        Ok(Block { rows })
    }

    /// The number of its events.
    pub fn len(&self) -> usize
        ensures { result ≡ length (events self.now) }
    {
        self.rows.len()
    }

    /// The event at a place, none at its end and beyond.
    pub fn event(&self, place: usize) -> Option<Event>
        ensures { result ≡ slice_get (events self.now) place }
    {
        self.rows.get(place).map(|row| fields(row))
    }
}
