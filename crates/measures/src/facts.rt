//! What the traits mean at the measures, at a trip and at a criterion.
ghost use Rattle.std.specs.Prelude.{◌≡◌, IsTrue, ◌↔◌};
ghost use Rattle.measures.specs.declared.by_trip.Trip.{Trip};
ghost use Rattle.measures.specs.declared.criterion.Criterion.{Criterion};
ghost use Rattle.measures.specs.Criteria.{ops};

use crate::by_begin::{EarliestArrival, LatestDeparture};
use crate::by_rides::FewestRides;
use crate::by_riding::{LeastRiding, LeastWaiting};
use crate::by_trip::{Fastest, Trip};
use crate::criterion::Criterion;
use crate::measure::Measure;

/// Each measure has the functions of its criterion.
pub fn measures_are_defined()
    ensures earliest { ⟦<EarliestArrival as Measure>⟧.ops ≡ ops Criterion.EarliestArrival }
    ensures latest { ⟦<LatestDeparture as Measure>⟧.ops ≡ ops Criterion.LatestDeparture }
    ensures fastest { ⟦<Fastest as Measure>⟧.ops ≡ ops Criterion.Fastest }
    ensures least_riding { ⟦<LeastRiding as Measure>⟧.ops ≡ ops Criterion.LeastRiding }
    ensures fewest_rides { ⟦<FewestRides as Measure>⟧.ops ≡ ops Criterion.FewestRides }
    ensures least_waiting { ⟦<LeastWaiting as Measure>⟧.ops ≡ ops Criterion.LeastWaiting }
{}

/// Two trips, and two criteria, compare equal exactly where they are the same.
pub fn equality_is_identity()
    ensures trips { (a b : Trip) → IsTrue (⟦<Trip as PartialEq>⟧.eq a b) ↔ (a ≡ b) }
    ensures criteria { (a b : Criterion) → IsTrue (⟦<Criterion as PartialEq>⟧.eq a b) ↔ (a ≡ b) }
{}

/// The clone of a trip, and of a criterion, is the same, and is never refused.
pub fn clone_is_identity()
    ensures trips { let clones = ⟦<Trip as Clone>⟧ in
        (a b : Trip) → clones.is_infallible a × (clones.is_clone a b → b ≡ a) }
    ensures criteria { let clones = ⟦<Criterion as Clone>⟧ in
        (a b : Criterion) → clones.is_infallible a × (clones.is_clone a b → b ≡ a) }
{}

/// The default trip began in minute 0, and nothing was ridden.
pub fn defaults_are_zero()
    ensures { (t : Trip) → ⟦<Trip as Default>⟧.is_default t → t ≡ record { begin = 0; riding = 0 } }
{}
