//! Days that are told in lines of text, for programs that are held against another side.
#![tactic(auto)]

mod day;
mod facts;
mod line;

pub use day::Day;
pub use facts::{
    clone_is_identity, days_begin_empty, displays_are_words, equality_is_identity,
    lines_are_read_by_their_words,
};
pub use line::{DayLine, LineError};
