//! Takes the worked day through records, a load and a source, beside two lines, shows what a damaged copy meets, and judges its
//! best journeys.
#![tactic(auto)]

ghost use Rattle.std.specs.Prelude.{map, IfOk};
ghost use Rattle.blocks.specs.Loads.{IsFilledWith};
ghost use Rattle.records.specs.Layout.{layout};

use blocks::{Block, Load, RECORD_BYTES};
use faults::Fault;
use journeys::{Query, judge};
use lines::LineSource;
use measures::{
    EarliestArrival, Fastest, FewestRides, LatestDeparture, LeastRiding, LeastWaiting, Measure,
};
use records::{Event, write};
use sources::{RecordSource, Source, read_through};
use std::{io, iter};
use worked_scores::{WORKED_LINES, WORKED_QUERY, WORKED_QUERY_WITH_CALL, worked_events};

// Room for one record more than the day has.
const MEMORY_BYTES: usize = 128;

// Fills memory with the records of the events, in their order, and tells how many there are. Here it shows its contract. The
// program `trial_search` and the tests of the post have these few lines too: one text for all would be public, and would have to
// say what a refusal leaves in the middle.
fn store(memory: &mut [u8], events: &[Event]) -> Result<usize, Fault>
    ensures { IfOk result (λ n. IsFilledWith memory.old (map layout events.now) memory.new n) }
{
    let mut load = Load::new(memory);
    for event in events {
        let record = write(*event)?;
        load.add(&record)?;
    }
    Ok(load.finish())
}

// A block answers by place, so the places are gone through.
fn print_block(rt: &impl Print, bytes: &[u8]) -> io::Result<()> {
    match Block::open(bytes) {
        Ok(block) => {
            for place in 0..block.len() {
                if let Some(event) = block.event(place) {
                    println!(rt; "{place}: {event}")?;
                }
            }
            Ok(())
        }
        Err(fault) => println!(rt; "{fault}"),
    }
}

// Opens the bytes with one byte changed and prints the fault.
fn print_damaged(rt: &impl Print, bytes: &mut [u8], at: usize, byte: u8) -> io::Result<()> {
    if at < bytes.len() {
        print!(rt; "byte {at} set to {byte}: ")?;
        bytes[at] = byte;
    }
    print_block(rt, bytes)
}

// Reads a source through and prints how many events of each kind it has, and then the events.
fn print_source<S: Source>(rt: &impl Print, title: &str, source: &mut S) -> io::Result<()> {
    let counts = read_through(source);
    let (openings, rides) = (counts.openings, counts.rides);
    println!(rt; "{title}: {openings} openings, {rides} rides")?;
    source.rewind();
    let size = source.size();
    for (place, event) in iter::from_fn(|| source.next()).take(size).enumerate() {
        println!(rt; "{place}: {event}")?;
    }
    Ok(())
}

fn print_sources(rt: &impl Print, bytes: &[u8]) -> io::Result<()> {
    match RecordSource::open(bytes) {
        Ok(mut source) => print_source(rt, "records", &mut source)?,
        Err(fault) => println!(rt; "{fault}")?,
    }
    match LineSource::open(&WORKED_LINES) {
        Ok(mut source) => print_source(rt, "lines", &mut source),
        Err(fault) => println!(rt; "{fault}"),
    }
}

// Judges a journey of the worked day, with every event in force, and prints it with its score.
fn print_journey<M: Measure>(
    rt: &impl Print,
    title: &str,
    query: Query,
    steps: &[usize],
) -> io::Result<()> {
    let Some(verdict) = judge::<M>(&worked_events(), &[], query, steps) else {
        return println!(rt; "{title}: {steps:?} does not fit");
    };
    println!(rt; "{title}: {steps:?} {verdict}")
}

fn print_journeys(rt: &impl Print) -> io::Result<()> {
    print_journey::<EarliestArrival>(rt, "e", WORKED_QUERY, &[2, 4])?;
    print_journey::<LatestDeparture>(rt, "l", WORKED_QUERY, &[2, 4])?;
    print_journey::<Fastest>(rt, "f", WORKED_QUERY, &[2, 4])?;
    print_journey::<LeastRiding>(rt, "s", WORKED_QUERY, &[2, 5])?;
    print_journey::<FewestRides>(rt, "n", WORKED_QUERY, &[1])?;
    print_journey::<LeastWaiting>(rt, "c", WORKED_QUERY, &[2, 4])?;
    print_journey::<FewestRides>(rt, "n with a call", WORKED_QUERY_WITH_CALL, &[1, 6])?;
    print_journey::<LeastRiding>(rt, "s with a call", WORKED_QUERY_WITH_CALL, &[2, 3, 5])?;
    print_journey::<EarliestArrival>(rt, "e", WORKED_QUERY, &[4, 2])
}

fn run(rt: &impl Print) -> io::Result<()> {
    let mut memory = [0u8; MEMORY_BYTES];
    let count = match store(&mut memory, &worked_events()) {
        Ok(count) => count,
        Err(fault) => return println!(rt; "{fault}"),
    };
    println!(rt; "{count} records")?;
    let end = count.saturating_mul(RECORD_BYTES).min(MEMORY_BYTES);
    print_sources(rt, &memory[0..end])?;
    print_damaged(rt, &mut memory[0..end], 7, 106)?;
    print_journeys(rt)
}

fn main(rt: HostRuntime) -> io::Result<()> {
    run(&rt)
}
