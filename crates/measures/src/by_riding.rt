//! Measures whose label grows by the minutes ridden; they differ in where it begins, how it compares and how it is settled.
ghost use Rattle.measures.specs.Criteria.{least_riding, least_waiting};
ghost use Rattle.std.proofs.Common.{rules};

use crate::measure::Measure;

/// The riding, then the end. The label is the riding.
pub struct LeastRiding;

impl Measure for LeastRiding {
    type Label = u32;

    ghost ops = { least_riding };

    ghost laws = { Prim.search rules };

    fn begin(_minute: u32) -> u32 {
        0
    }

    fn ride(label: u32, duration: u16) -> u32 {
        label.saturating_add(u32::from(duration))
    }

    fn no_worse(first: u32, second: u32) -> bool {
        first <= second
    }

    fn settle(label: u32, end: u32) -> (i64, i64) {
        (i64::from(label), i64::from(end))
    }
}

/// The waiting, then the end. The label is the begin plus the riding, the end if nothing was waited for.
pub struct LeastWaiting;

impl Measure for LeastWaiting {
    type Label = u32;

    ghost ops = { least_waiting };

    ghost laws = { Prim.search rules };

    fn begin(minute: u32) -> u32 {
        minute
    }

    fn ride(label: u32, duration: u16) -> u32 {
        label.saturating_add(u32::from(duration))
    }

    fn no_worse(first: u32, second: u32) -> bool {
        first >= second
    }

    fn settle(label: u32, end: u32) -> (i64, i64) {
        (i64::from(end) - i64::from(label), i64::from(end))
    }
}
