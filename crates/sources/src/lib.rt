//! Sources of events: what every source answers, a source over a block of events, and a reading through any source.
#![tactic(auto)]

mod facts;
mod reading;
mod record_source;
mod source;

pub use facts::{clone_is_identity, defaults_are_zero, equality_is_identity};
pub use reading::{Counts, read_through};
pub use record_source::RecordSource;
pub use source::Source;
