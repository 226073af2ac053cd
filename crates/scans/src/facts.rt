//! What the traits mean at arrivals, and at what tables hold.
ghost use Rattle.std.specs.Prelude.{◌≡◌, false, IsTrue, ◌↔◌};
ghost use Rattle.queue.specs.Order.{IsConnected};
ghost use Rattle.scans.specs.declared.arrival.Arrival.{Arrival};
ghost use Rattle.scans.specs.declared.board.Incumbent.{Incumbent};
ghost use Rattle.scans.specs.declared.entry.Entry.{Entry};
ghost use Rattle.scans.specs.declared.entry.Stage.{Stage};
ghost use Rattle.scans.specs.Arrivals.{arriving, sooner};

use crate::arrival::Arrival;
use crate::board::Incumbent;
use crate::entry::{Entry, Stage};
use queue::Precedence;

/// Of two arrivals that are not the same one goes before the other: that of the lower minute, else of
/// the lower event number, else of the traveller who has made no call.
pub fn orders_are_total()
    ensures arrivals { ⟦<Arrival as Precedence>⟧.before ≡ sooner }
    ensures connected { IsConnected ⟦<Arrival as Precedence>⟧.before }
{}

/// Two stages, and two arrivals, compare equal exactly where they are the same; two entries, and two
/// labels that are ready, do so where their labels do.
pub fn equality_is_identity<L: PartialEq>()
    ensures stages { (a b : Stage) → IsTrue (⟦<Stage as PartialEq>⟧.eq a b) ↔ (a ≡ b) }
    ensures arrivals { (a b : Arrival) → IsTrue (⟦<Arrival as PartialEq>⟧.eq a b) ↔ (a ≡ b) }
    ensures entries { ((x y : L) → IsTrue (L.eq x y) ↔ (x ≡ y))
        → (a b : Entry L) → IsTrue (⟦<Entry<L> as PartialEq>⟧.eq a b) ↔ (a ≡ b) }
    ensures incumbents { ((x y : L) → IsTrue (L.eq x y) ↔ (x ≡ y))
        → (a b : Incumbent L) → IsTrue (⟦<Incumbent<L> as PartialEq>⟧.eq a b) ↔ (a ≡ b) }
{}

/// The clone of a stage, and of an arrival, is the same, and is never refused; that of an entry, and
/// of a label that is ready, is so where the clones of their labels are.
pub fn clone_is_identity<L: Clone>()
    ensures stages { let clones = ⟦<Stage as Clone>⟧ in
        (a b : Stage) → clones.is_infallible a × (clones.is_clone a b → b ≡ a) }
    ensures arrivals { let clones = ⟦<Arrival as Clone>⟧ in
        (a b : Arrival) → clones.is_infallible a × (clones.is_clone a b → b ≡ a) }
    ensures entries { let clones = ⟦<Entry<L> as Clone>⟧ in
        ((x : L) → L.is_infallible x) → ((x y : L) → L.is_clone x y → y ≡ x)
        → (a b : Entry L) → clones.is_infallible a × (clones.is_clone a b → b ≡ a) }
    ensures incumbents { let clones = ⟦<Incumbent<L> as Clone>⟧ in
        ((x : L) → L.is_infallible x) → ((x y : L) → L.is_clone x y → y ≡ x)
        → (a b : Incumbent L) → clones.is_infallible a × (clones.is_clone a b → b ≡ a) }
{}

/// The default arrival is that of event 0 without a call, in minute 0.
pub fn defaults_are_zero()
    ensures { (a : Arrival) →
        ⟦<Arrival as Default>⟧.is_default a
        → a ≡ arriving 0 (record { event = 0; called = false }) }
{}
