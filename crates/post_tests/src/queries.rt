//! Queries of a post, and what came of them.
use faults::Report;
use heap_tables::HeapTables;
use journeys::{Answer, Query};
use measures::{EarliestArrival, LatestDeparture};
use search::Tables;
use sources::Source;
use timetable_post::Post;

/// A measure, as a row of a table names it: a row can't have a type in it.
#[derive(Clone, Copy)]
pub enum Letter {
    /// The earliest arrival.
    E,
    /// The latest departure.
    L,
}

/// From a stop to another within these minutes, without a call.
pub fn from_to(from: u8, to: u8, open: u32, close: u32) -> Query {
    Query {
        from,
        to,
        open,
        close,
        call: false,
    }
}

/// Queries a post under the measure of a letter.
pub fn ask<S: Source + Drop>(
    post: &mut Post<S>,
    letter: Letter,
    query: Query,
    tables: &mut HeapTables<u32>,
) -> Result<Answer, Report> {
    let mut lent = Tables {
        log: &mut tables.log,
        board: &mut tables.board,
        queue: &mut tables.queue,
        steps: &mut tables.steps,
    };
    Ok(match letter {
        Letter::E => post.query::<EarliestArrival>(query, &mut lent)?,
        Letter::L => post.query::<LatestDeparture>(query, &mut lent)?,
    })
}
