//! Tests of a post: notices, queries and refusals, over lines, over records and over no event.
#![tactic(auto)]

#[cfg(test)]
mod days;
#[cfg(test)]
mod queries;
#[cfg(test)]
mod rubbish;
#[cfg(test)]
mod tests;
