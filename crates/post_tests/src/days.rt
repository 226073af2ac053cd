//! Sources of events, and the place of one.
use blocks::Load;
use faults::Fault;
use lines::LineSource;
use records::write;
use sources::{RecordSource, Source};
use std::iter;
use worked_scores::{WORKED_LINES, worked_events};

/// The lines of the worked day.
pub fn worked_line_source() -> Result<LineSource, Fault> {
    LineSource::open(&WORKED_LINES)
}

/// The records of the worked day, loaded into memory, which is what a load is there for; other programs put them in a vector. The
/// programs `worked_day` and `trial_search` have these few lines too: one text for all would be public, and would have to say what a
/// refusal leaves in the middle.
pub fn worked_day() -> Result<RecordSource, Fault> {
    let mut memory = [0; 112];
    let mut load = Load::new(&mut memory);
    for event in worked_events() {
        load.add(&write(event)?)?;
    }
    load.finish();
    RecordSource::open(&memory)
}

/// The place of a source, told by how many events are left to be read.
pub fn place_of<S: Source>(source: &mut S) -> usize {
    let size = source.size();
    let left = iter::from_fn(|| source.next()).take(size).count();
    size.saturating_sub(left)
}
