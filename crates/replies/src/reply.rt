//! What a post replies to a line.
use journeys::Answer;

/// What a post replies to a command that it accepts.
#[derive(Clone, Copy)]
pub enum Reply {
    /// A notice was accepted.
    Accepted,
    /// So many events are out of force.
    Count(usize),
    /// A query names this journey.
    Journey(Answer),
}
