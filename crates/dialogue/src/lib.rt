//! The dialogue with a post: a line of bytes in, a reply out, or its line of bytes.
#![tactic(auto)]

mod interpreter;
mod tables;

pub use interpreter::{answer, respond};
pub use tables::PostTables;
