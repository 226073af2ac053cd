//! Tests of the queue on random calls, and a count of its comparisons.
#![tactic(auto)]

#[cfg(test)]
mod counted;
#[cfg(test)]
mod item;
#[cfg(test)]
mod random;
#[cfg(test)]
mod tests;
