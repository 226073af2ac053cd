//! The replies of a post, and the lines that they are printed as.
#![tactic(auto)]

mod facts;
mod reply;
mod writer;

pub use facts::{clone_is_identity, limits_are_defined};
pub use reply::Reply;
pub use writer::{LONGEST_LINE, write};
