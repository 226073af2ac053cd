//! A source of rides over a block of lines, each a ride that is repeated at an interval.
#![tactic(auto)]

mod cursor;
mod departure;
mod facts;
mod line;
mod line_source;
mod line_table;
mod merge;

pub use facts::{limits_are_defined, orders_are_total};
pub use line_source::LineSource;
