//! A departure of a line, and which of two goes first.
ghost use Rattle.lines.specs.Departures.{before as earlier};
ghost use Rattle.std.proofs.Common.{rules};

use queue::Precedence;

/// A minute in which a ride of a line departs; the line is told by its position.
#[derive(Clone, Copy, PartialEq, Eq, PartialOrd, Ord, Debug, Default)]
pub struct Departure {
    pub minute: u32,
    pub line: usize,
}

impl Precedence for Departure {
    ghost before = { earlier };

    ghost asymmetric = { Prim.search rules };

    ghost cotransitive = { Prim.search rules };

    fn precedes(&self, other: &Departure) -> bool {
        self < other
    }
}
