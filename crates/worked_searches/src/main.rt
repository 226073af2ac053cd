//! Finds the best journeys of the worked day by searches, in tables that are exactly long enough for it.
#![tactic(auto)]

use heap_tables::{HeapTables, Lengths, Slots};
use journeys::{Answer, Query};
use measures::{
    EarliestArrival, Fastest, FewestRides, LatestDeparture, LeastRiding, LeastWaiting, Measure,
    Trip,
};
use records::write;
use search::CheckedQuery;
use sources::{RecordSource, Source};
use std::io;
use worked_scores::{WORKED_QUERY, WORKED_QUERY_WITH_CALL, worked_events};

// Prints the journey that an answer names, how many steps it has and how many events were read.
fn print_answer(rt: &impl Print, answer: Option<Answer>, steps: &[usize]) -> io::Result<()> {
    let Some(answer) = answer else {
        return println!(rt; "none");
    };
    let Answer {
        verdict,
        steps: count,
        reads,
    } = answer;
    let named = answer.named_steps(steps);
    println!(rt; "{named:?} {verdict}, steps {count}, reads {reads}")
}

// Searches the source with every event in force, and prints what is found, under its title. The parameters have nothing else in
// common that would make a struct of them.
fn print_found<M: Measure>(
    rt: &impl Print,
    title: &str,
    source: &mut RecordSource,
    query: Query,
    tables: &mut HeapTables<M::Label>,
) -> io::Result<()> {
    let checked = match CheckedQuery::new(query) {
        Ok(checked) => checked,
        Err(fault) => return println!(rt; "{fault}"),
    };
    let found = tables.search::<RecordSource, M>(source, &[], checked);
    print!(rt; "{title} found: ")?;
    match found {
        Ok(answer) => print_answer(rt, answer, &tables.steps),
        Err(fault) => println!(rt; "{fault}"),
    }
}

// Searches under each measure, without a call.
fn print_each(
    rt: &impl Print,
    source: &mut RecordSource,
    plain: &mut HeapTables<u32>,
    trips: &mut HeapTables<Trip>,
) -> io::Result<()> {
    print_found::<EarliestArrival>(rt, "e", source, WORKED_QUERY, plain)?;
    print_found::<LatestDeparture>(rt, "l", source, WORKED_QUERY, plain)?;
    print_found::<Fastest>(rt, "f", source, WORKED_QUERY, trips)?;
    print_found::<LeastRiding>(rt, "s", source, WORKED_QUERY, plain)?;
    print_found::<FewestRides>(rt, "n", source, WORKED_QUERY, plain)?;
    print_found::<LeastWaiting>(rt, "c", source, WORKED_QUERY, plain)
}

// Searches for the earliest arrival within a narrower window. The parameters have nothing in common but that this program prints
// them.
fn print_within(
    rt: &impl Print,
    source: &mut RecordSource,
    open: u32,
    close: u32,
    plain: &mut HeapTables<u32>,
) -> io::Result<()> {
    let query = Query {
        open,
        close,
        ..WORKED_QUERY
    };
    print!(rt; "within {open} to {close}, ")?;
    print_found::<EarliestArrival>(rt, "e", source, query, plain)
}

// Searches the day's records under each measure, with a call, and within narrower windows.
fn print_searches(rt: &HostRuntime, bytes: &[u8]) -> io::Result<()> {
    let mut source = match RecordSource::open(bytes) {
        Ok(source) => source,
        Err(fault) => return println!(rt; "{fault}"),
    };
    let lengths = Lengths::for_events(source.size());
    let mut plain = HeapTables::new(rt.alloc(), lengths, Slots::default())?;
    let mut trips = HeapTables::new(rt.alloc(), lengths, Slots::default())?;
    print_each(rt, &mut source, &mut plain, &mut trips)?;
    let with_call = WORKED_QUERY_WITH_CALL;
    print_found::<FewestRides>(rt, "n with a call", &mut source, with_call, &mut plain)?;
    print_found::<LeastRiding>(rt, "s with a call", &mut source, with_call, &mut plain)?;
    print_within(rt, &mut source, 110, 155, &mut plain)?;
    print_within(rt, &mut source, 111, 155, &mut plain)?;
    print_within(rt, &mut source, 110, 154, &mut plain)
}

// The day's records are in a vector; the tests of the post load them into memory.
fn main(rt: HostRuntime) -> io::Result<()> {
    let mut bytes = Vec::new(rt.alloc());
    for event in worked_events() {
        match write(event) {
            Ok(record) => bytes.extend_from_slice(&record)?,
            Err(fault) => return println!(rt; "{fault}"),
        }
    }
    print_searches(&rt, &bytes)
}
