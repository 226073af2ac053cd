//! Searches small days for best journeys, read from standard input line by line:
//!     d                                a new day
//!     o STOP MINUTE                    its next event, an opening
//!     r FROM TO DEPARTURE DURATION     its next event, a ride
//!     x NUMBER                         the event with this number is out of force
//!     q FROM TO OPEN CLOSE CALL        prints the best score under e, l, f, s, n and c, or its refusal
//! A score is printed as 'first;second', or 'none' where no journey fits, or 'wrong' where the answer does not hold.
#![tactic(auto)]

mod best;
mod day;
mod tables;

use best::{Found, Wrong, best};
use day::source_of;
use heap_tables::{HeapTables, Lengths};
use journeys::Query;
use measures::{
    EarliestArrival, Fastest, FewestRides, LatestDeparture, LeastRiding, LeastWaiting, Trip,
};
use scripts::Day;
use search::CheckedQuery;
use sources::RecordSource;
use std::default::MadeWith;
use std::io::{BufRead, BufReader};
use tables::rubbish;

// Prints what came of a search.
fn print_outcome(rt: &impl Print, outcome: Result<Found, Wrong>) -> anyhow::Result<()> {
    match outcome {
        Ok(best) => print!(rt; "{best}")?,
        Err(wrong) => print!(rt; "{wrong}")?,
    }
    Ok(())
}

// Searches under each measure, in new tables and in those that another search has left.
fn print_best(
    rt: &HostRuntime,
    day: &Day,
    source: &mut RecordSource,
    query: CheckedQuery,
) -> anyhow::Result<()> {
    let trip = Trip {
        begin: 1,
        riding: 0,
    };
    let lengths = Lengths::for_events(day.events.len());
    let mut plain = HeapTables::new(rt.alloc(), lengths, rubbish(0u32))?;
    let mut trips = HeapTables::new(rt.alloc(), lengths, rubbish(trip))?;
    let outcomes = [
        best::<EarliestArrival>(day, source, query, &mut plain),
        best::<LatestDeparture>(day, source, query, &mut plain),
        best::<Fastest>(day, source, query, &mut trips),
        best::<LeastRiding>(day, source, query, &mut plain),
        best::<FewestRides>(day, source, query, &mut plain),
        best::<LeastWaiting>(day, source, query, &mut plain),
    ];
    for (place, outcome) in outcomes.into_iter().enumerate() {
        if place > 0 {
            print!(rt; " ")?;
        }
        print_outcome(rt, outcome)?;
    }
    println!(rt; "")?;
    Ok(())
}

// Answers a query over the day, or prints why it is refused.
fn ask(rt: &HostRuntime, day: &Day, query: Query) -> anyhow::Result<()> {
    let checked = match CheckedQuery::new(query) {
        Ok(checked) => checked,
        Err(fault) => return Ok(println!(rt; "{fault}")?),
    };
    match source_of(rt.alloc(), day)? {
        Ok(mut source) => print_best(rt, day, &mut source, checked),
        Err(fault) => Ok(println!(rt; "{fault}")?),
    }
}

fn main(rt: HostRuntime) -> anyhow::Result<()> {
    let mut day = Day::made_with(rt.alloc());
    for line in BufReader::new(rt.alloc(), rt.stdin())?.lines(rt.alloc()) {
        if let Some(query) = day.take(line?.as_str().parse()?)? {
            ask(&rt, &day, query)?;
        }
    }
    Ok(())
}
