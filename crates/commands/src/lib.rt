//! A line of bytes as a command, and a command as a line of bytes.
#![tactic(auto)]

mod command;
mod facts;
mod reader;
mod writer;

pub use command::Command;
pub use facts::{clone_is_identity, equality_is_identity, limits_are_defined};
pub use reader::parse;
pub use writer::{LONGEST_TEXT, write};
