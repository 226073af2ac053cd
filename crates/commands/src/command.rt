//! What a post can be told to do.
use journeys::Query;
use measures::Criterion;

/// What a line can tell a post to do.
#[derive(Clone, Copy, PartialEq, Eq, Debug)]
pub enum Command {
    /// Take an event out of force.
    Withdraw { event: u32 },
    /// Put an event in force again.
    Reinstate { event: u32 },
    /// Count the events out of force.
    Tally,
    /// Find the best journey by a criterion.
    Find { criterion: Criterion, query: Query },
}
