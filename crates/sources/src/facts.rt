//! What the library's traits mean at counts.
ghost use Rattle.std.specs.Prelude.{◌≡◌, IsTrue, ◌↔◌};
ghost use Rattle.sources.specs.declared.reading.Counts.{Counts};

use crate::reading::Counts;

/// Two counts compare equal exactly where they are the same.
pub fn equality_is_identity()
    ensures { (a b : Counts) → IsTrue (⟦<Counts as PartialEq>⟧.eq a b) ↔ (a ≡ b) }
{}

/// The clone of counts is the same, and is never refused.
pub fn clone_is_identity()
    ensures { let clones = ⟦<Counts as Clone>⟧ in
        (a b : Counts) → clones.is_infallible a × (clones.is_clone a b → b ≡ a) }
{}

/// By default nothing is counted.
pub fn defaults_are_zero()
    ensures { (c : Counts) →
        ⟦<Counts as Default>⟧.is_default c → c ≡ record { openings = 0; rides = 0 } }
{}
