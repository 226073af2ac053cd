//! What the traits mean at a checked query, and at labels that carry more along.
ghost use Rattle.std.specs.Prelude.{◌≡◌, IsTrue, ◌↔◌};
ghost use Rattle.records.specs.Limits.{board_slots};
ghost use Rattle.search.specs.declared.asked.CheckedQuery.{CheckedQuery};
ghost use Rattle.search.specs.declared.carried.Carried.{Carried};
ghost use Rattle.search.specs.Carrying.{carrying};

use crate::asked::CheckedQuery;
use crate::carried::{Carried, Carrying};
use crate::tables::BOARD_SLOTS;
use measures::Measure;

/// The slots of a board are the number that promises speak of.
pub fn limits_are_defined()
    ensures board { BOARD_SLOTS ≡ board_slots }
{}

/// A measure over labels that carry more along is the measure below it, with these beside its labels.
pub fn carryings_are_defined<M: Measure>()
    ensures { ⟦<Carrying<M> as Measure>⟧.ops ≡ carrying M.ops }
{}

/// Two labels that carry more along compare equal exactly where they are the same, if the labels that
/// they carry do so.
pub fn equality_is_identity<L: PartialEq>()
    ensures { ((x y : L) → IsTrue (L.eq x y) ↔ (x ≡ y))
        → (a b : Carried L) → IsTrue (⟦<Carried<L> as PartialEq>⟧.eq a b) ↔ (a ≡ b) }
{}

/// The clone of a checked query is the same, and is never refused; that of a label that carries more
/// along is so where the clones of the labels are.
pub fn clone_is_identity<L: Clone>()
    ensures queries { let clones = ⟦<CheckedQuery as Clone>⟧ in
        (a b : CheckedQuery) → clones.is_infallible a × (clones.is_clone a b → b ≡ a) }
    ensures carried { let clones = ⟦<Carried<L> as Clone>⟧ in
        ((x : L) → L.is_infallible x) → ((x y : L) → L.is_clone x y → y ≡ x)
        → (a b : Carried L) → clones.is_infallible a × (clones.is_clone a b → b ≡ a) }
{}
