//! The work tables of a search, and the scan of one event after another.
#![tactic(auto)]

mod arrival;
mod board;
mod enter;
mod entry;
mod facts;
mod work;

pub use arrival::Arrival;
pub use board::Incumbent;
pub use entry::{Entry, Stage, entry_for};
pub use facts::{clone_is_identity, defaults_are_zero, equality_is_identity, orders_are_total};
pub use work::Work;
