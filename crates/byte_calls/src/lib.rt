//! Whole calls over bytes, for a caller that has nothing else: lines answered over a day, and records loaded. No memory is
//! allocated.
#![tactic(auto)]

mod conversation;
mod facts;
mod loading;

pub use conversation::{LONGEST_TEXT, answer_lines};
pub use facts::limits_are_defined;
pub use loading::load_records;
