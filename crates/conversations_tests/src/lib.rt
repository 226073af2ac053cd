//! Tests of conversations: readers, writers and files that fail, and replies that are flushed in time.
#![tactic(auto)]

#[cfg(test)]
mod tests;
