//! The measure whose label counts the rides.
ghost use Rattle.measures.specs.Criteria.{fewest_rides};
ghost use Rattle.std.proofs.Common.{rules};

use crate::measure::Measure;

/// The number of rides, then the end. The label is that number.
pub struct FewestRides;

impl Measure for FewestRides {
    type Label = u32;

    ghost ops = { fewest_rides };

    ghost laws = { Prim.search rules };

    fn begin(_minute: u32) -> u32 {
        0
    }

    fn ride(label: u32, _duration: u16) -> u32 {
        label.saturating_add(1)
    }

    fn no_worse(first: u32, second: u32) -> bool {
        first <= second
    }

    fn settle(label: u32, end: u32) -> (i64, i64) {
        (i64::from(label), i64::from(end))
    }
}
