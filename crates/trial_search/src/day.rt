//! What is read of a day, and the source of its events.
ghost use Rattle.std.specs.Prelude.{◌≡◌, length, nat_le, take_while};
ghost use Rattle.records.specs.Events.{time_of};
ghost use Rattle.search.specs.Searches.{reads_of};

use blocks::{Load, RECORD_BYTES};
use faults::Fault;
use records::{Event, write};
use scripts::Day;
use sources::RecordSource;
use std::alloc::{AllocError, Global};

// How many events, from the first on, come no later than this.
fn in_time(events: &[Event], close: u32) -> usize
    ensures { result ≡ length (take_while (λ event. nat_le (time_of event) close) events.now) }
{
    events
        .iter()
        .take_while(|event| event.time() <= close)
        .count()
}

// How many events are read for a query with this close: up to the first later one, else all.
pub(crate) fn reads(day: &Day, close: u32) -> usize
    ensures { result ≡ reads_of day.now.events.items close }
{
    in_time(&day.events, close)
        .saturating_add(1)
        .min(day.events.len())
}

// Loads the records of the events into memory, and tells how many there are. The program `worked_day`, which shows the
// contract, and the tests of the post have these few lines too: one text for all would be public, and would have to say what a
// refusal leaves in the middle.
fn store(memory: &mut [u8], events: &[Event]) -> Result<usize, Fault> {
    let mut load = Load::new(memory);
    for event in events {
        load.add(&write(*event)?)?;
    }
    Ok(load.finish())
}

// A source of the day's records, loaded into memory that has room for them alone, or the first fault.
pub(crate) fn source_of(
    heap: Global,
    day: &Day,
) -> Result<Result<RecordSource, Fault>, AllocError> {
    let mut memory = Vec::new(heap);
    memory.resize(day.events.len().saturating_mul(RECORD_BYTES), 0u8)?;
    Ok(store(&mut memory, &day.events).and_then(|_| RecordSource::open(&memory)))
}
