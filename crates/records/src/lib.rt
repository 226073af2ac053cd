//! An event of the timetable, and the sixteen bytes that record it.
#![tactic(auto)]

mod event;
mod facts;
mod kind;
mod limits;
mod record;

pub use event::{Event, Opening, Ride, check_minute};
pub use facts::{
    clone_is_identity, displays_are_words, equality_is_identity, records_are_of_events,
};
pub use limits::{
    LAST_MINUTE, LAST_STOP, LONGEST_RIDE, MOST_EVENTS, MOST_STOPS, Stop, limits_are_defined,
};
pub use record::{fields, read, ride_fields, write};
