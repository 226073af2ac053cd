//! What the library's traits mean at lengths and at what new tables have in them.
ghost use Rattle.std.specs.Prelude.{◌≡◌, None, false, IsTrue, ◌↔◌};
ghost use Rattle.scans.specs.Arrivals.{arriving};
ghost use Rattle.heap_tables.specs.declared.Lengths.{Lengths};
ghost use Rattle.heap_tables.specs.declared.Slots.{Slots};

use crate::{Lengths, Slots};

/// Two `Lengths` compare equal exactly where they are the same.
pub fn equality_is_identity()
    ensures { (a b : Lengths) → IsTrue (⟦<Lengths as PartialEq>⟧.eq a b) ↔ (a ≡ b) }
{}

/// The clone of lengths is the same, and is never refused; that of what new tables have is so
/// where the clones of its labels are.
pub fn clone_is_identity<L: Clone>()
    ensures lengths { let clones = ⟦<Lengths as Clone>⟧ in
        (a b : Lengths) → clones.is_infallible a × (clones.is_clone a b → b ≡ a) }
    ensures slots { let clones = ⟦<Slots<L> as Clone>⟧ in
        ((x : L) → L.is_infallible x) → ((x y : L) → L.is_clone x y → y ≡ x)
        → (a b : Slots L) → clones.is_infallible a × (clones.is_clone a b → b ≡ a) }
{}

/// By default new tables have no entry and no one who is ready, and noughts elsewhere.
pub fn defaults_are_empty<L: Default>()
    ensures { (s : Slots L) → ⟦<Slots<L> as Default>⟧.is_default s → s ≡ record {
      entry = None;
      incumbent = None;
      arrival = arriving 0 (record { event = 0; called = false });
      step = 0;
    } }
{}
