//! What a traveller asks for, what a journey is, and how it is scored.
#![tactic(auto)]

mod answer;
mod facts;
mod judgment;
mod marks;
mod query;
mod travel;

pub use answer::Answer;
pub use facts::{
    clone_is_identity, displays_are_words, equality_is_identity, measures_are_plain,
    waiting_is_gaps, walks_are_journeys,
};
pub use judgment::{Verdict, judge};
pub use marks::is_in_force;
pub use query::Query;
pub use travel::{end_of, label_through, leaves_at, reaches_at, ready_at, starts_at};
