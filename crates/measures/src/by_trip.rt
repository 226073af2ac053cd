//! The measure whose label is begin and riding.
ghost use Rattle.measures.specs.Criteria.{fastest};
ghost use Rattle.std.proofs.Common.{rules};

use crate::measure::Measure;
use std::cmp::Reverse;

/// When a journey began, and the minutes ridden so far.
#[derive(Clone, Copy, PartialEq, Eq, Debug, Default)]
pub struct Trip {
    pub begin: u32,
    pub riding: u32,
}

/// The minutes from begin to end, then the riding. The label is begin and riding.
pub struct Fastest;

impl Measure for Fastest {
    type Label = Trip;

    ghost ops = { fastest };

    ghost laws = { Prim.search rules };

    fn begin(minute: u32) -> Trip {
        Trip {
            begin: minute,
            riding: 0,
        }
    }

    fn ride(label: Trip, duration: u16) -> Trip {
        Trip {
            begin: label.begin,
            riding: label.riding.saturating_add(u32::from(duration)),
        }
    }

    fn no_worse(first: Trip, second: Trip) -> bool {
        (Reverse(first.begin), first.riding) <= (Reverse(second.begin), second.riding)
    }

    fn settle(label: Trip, end: u32) -> (i64, i64) {
        (
            i64::from(end) - i64::from(label.begin),
            i64::from(label.riding),
        )
    }
}
