//! Measures: how a journey is scored, and how labels of unfinished journeys compare. Each says its own four functions: a text
//! for two of them would need a trait for what differs, as long as what it saves.
#![tactic(auto)]

mod by_begin;
mod by_rides;
mod by_riding;
mod by_trip;
mod criterion;
mod facts;
mod measure;

pub use by_begin::{EarliestArrival, LatestDeparture};
pub use by_rides::FewestRides;
pub use by_riding::{LeastRiding, LeastWaiting};
pub use by_trip::{Fastest, Trip};
pub use criterion::Criterion;
pub use facts::{clone_is_identity, defaults_are_zero, equality_is_identity, measures_are_defined};
pub use measure::Measure;
