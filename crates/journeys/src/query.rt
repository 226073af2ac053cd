//! A traveller's question.
use records::Stop;

/// From which stop to which, within which minutes, both included, and whether the journey is to call at an open place.
#[derive(Clone, Copy, PartialEq, Eq, Debug)]
pub struct Query {
    pub from: Stop,
    pub to: Stop,
    pub open: u32,
    pub close: u32,
    pub call: bool,
}
