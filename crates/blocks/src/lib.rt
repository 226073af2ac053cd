//! A day's records in a row: opening them as a block, and filling memory with them.
#![tactic(auto)]

mod block;
mod facts;
mod load;
mod row;

pub use block::Block;
pub use facts::clone_is_identity;
pub use load::Load;
pub use row::{RECORD_BYTES, rows};
