//! The post: one source, notices about its events, and queries over those in force.
#![tactic(auto)]

mod ask;
mod calls;
mod facts;
mod marks;

pub use calls::Post;
pub use facts::histories_are_answered_rightly;
