//! A key that counts how often it is compared; equal keys tie.
ghost use Rattle.std.specs.Prelude.{nat_lt};
ghost use Rattle.std.proofs.Common.{rules};

use queue::Precedence;
use std::cell::Cell;

/// Something that is told of each comparison.
pub trait Counter: Clone + Copy {
    fn count(&self);

    // How many comparisons it was told of.
    fn total(&self) -> u32;
}

#[derive(Clone, Copy)]
pub struct Tally<'a> {
    pub comparisons: &'a Cell<u32>,
}

impl<'a> Counter for Tally<'a> {
    fn count(&self) {
        self.comparisons.set(self.comparisons.get().wrapping_add(1));
    }

    fn total(&self) -> u32 {
        self.comparisons.get()
    }
}

#[derive(Clone, Copy)]
pub struct Counted<C> {
    pub key: u32,
    pub counter: C,
}

impl<C: Counter> Precedence for Counted<C> {
    ghost before = { λ x y. nat_lt x.key y.key };

    ghost asymmetric = { Prim.search rules };

    ghost cotransitive = { Prim.search rules };

    fn precedes(&self, other: &Counted<C>) -> bool {
        self.counter.count();
        self.key < other.key
    }
}
