//! What the library's traits mean at an event.
ghost use Rattle.std.specs.Prelude.{◌≡◌, ℕ, List, Some, IsTrue, ◌↔◌};
ghost use Rattle.records.specs.declared.event.Event.{Event};
ghost use Rattle.records.specs.declared.event.Opening.{Opening};
ghost use Rattle.records.specs.declared.event.Ride.{Ride};
ghost use Rattle.records.specs.Layout.{layout};
ghost use Rattle.records.specs.Shown.{event_text};

use crate::event::{Event, Opening, Ride};
use std::fmt;

/// An event prints as its words.
pub fn displays_are_words()
    ensures { (e : Event) → ⟦<Event as fmt::Display>⟧.output e ≡ Some (event_text e) }
{}

/// An event, within its limits or not, converts to the sixteen bytes that record it.
pub fn records_are_of_events()
    ensures { (e : Event) (bs : List ℕ) →
        ⟦<[u8; 16] as From<Event>>⟧.from_gives e bs → bs ≡ layout e }
{}

/// Two events, two openings, and two rides compare equal exactly where they are the same.
pub fn equality_is_identity()
    ensures events { (a b : Event) → IsTrue (⟦<Event as PartialEq>⟧.eq a b) ↔ (a ≡ b) }
    ensures openings { (a b : Opening) → IsTrue (⟦<Opening as PartialEq>⟧.eq a b) ↔ (a ≡ b) }
    ensures rides { (a b : Ride) → IsTrue (⟦<Ride as PartialEq>⟧.eq a b) ↔ (a ≡ b) }
{}

/// The clone of an event, of an opening, and of a ride is the same, and is never refused.
pub fn clone_is_identity()
    ensures events { let clones = ⟦<Event as Clone>⟧ in
        (a b : Event) → clones.is_infallible a × (clones.is_clone a b → b ≡ a) }
    ensures openings { let clones = ⟦<Opening as Clone>⟧ in
        (a b : Opening) → clones.is_infallible a × (clones.is_clone a b → b ≡ a) }
    ensures rides { let clones = ⟦<Ride as Clone>⟧ in
        (a b : Ride) → clones.is_infallible a × (clones.is_clone a b → b ≡ a) }
{}
