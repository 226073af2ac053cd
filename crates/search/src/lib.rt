//! The search for a best journey, in tables that the caller lends: a log of entries, a board of who is ready at a stop, and a
//! queue of awaited arrivals.
#![tactic(auto)]

mod asked;
mod carried;
mod facts;
mod finder;
mod lead;
mod read;
mod tables;
mod trace;

pub use asked::CheckedQuery;
pub use carried::{Carried, Carrying};
pub use facts::{
    carryings_are_defined, clone_is_identity, equality_is_identity, limits_are_defined,
};
pub use finder::search;
pub use tables::{BOARD_SLOTS, Tables};
