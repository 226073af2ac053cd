//! Measures whose label is the begin; they differ in how it is settled.
ghost use Rattle.std.specs.Prelude.{◌≡◌, pos, ◌-ℤ◌};
ghost use Rattle.measures.specs.Criteria.{earliest, latest};
ghost use Rattle.std.proofs.Common.{rules};
ghost use Rattle.records.specs.Limits.{last_minute};

use crate::measure::Measure;
use records::LAST_MINUTE;

// The minutes from a minute to the last one that a timetable has.
fn before_the_last(minute: u32) -> i64
    ensures { result ≡ pos last_minute -ℤ pos minute }
{
    i64::from(LAST_MINUTE) - i64::from(minute)
}

/// The end, then the later begin. The label is the begin.
pub struct EarliestArrival;

impl Measure for EarliestArrival {
    type Label = u32;

    ghost ops = { earliest };

    ghost laws = { Prim.search rules };

    fn begin(minute: u32) -> u32 {
        minute
    }

    fn ride(label: u32, _duration: u16) -> u32 {
        label
    }

    fn no_worse(first: u32, second: u32) -> bool {
        first >= second
    }

    fn settle(label: u32, end: u32) -> (i64, i64) {
        (i64::from(end), before_the_last(label))
    }
}

/// The later begin, then the end. The label is the begin.
pub struct LatestDeparture;

impl Measure for LatestDeparture {
    type Label = u32;

    ghost ops = { latest };

    ghost laws = { Prim.search rules };

    fn begin(minute: u32) -> u32 {
        minute
    }

    fn ride(label: u32, _duration: u16) -> u32 {
        label
    }

    fn no_worse(first: u32, second: u32) -> bool {
        first >= second
    }

    fn settle(label: u32, end: u32) -> (i64, i64) {
        (before_the_last(label), i64::from(end))
    }
}
