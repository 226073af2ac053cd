//! A key with a tag, ordered by the key and then by the tag: no two elements tie.
ghost use Rattle.std.specs.Prelude.{◌≡◌, IsTrue, ◌↔◌, ◌&&◌, ◌||◌, ◌==◌, nat_lt};
ghost use Rattle.std.proofs.Common.{rules};

use crate::random::Random;
use queue::Precedence;

#[derive(Clone, Copy, PartialEq, Eq, PartialOrd, Ord, Debug, Default)]
pub struct Item {
    pub minute: u32,
    pub number: u16,
}

impl Item {
    /// One of 24 items, so that equal ones come often.
    pub fn random(random: &mut Random) -> Item {
        Item {
            minute: u32::from(random.below(8)),
            number: random.below(3),
        }
    }
}

impl Precedence for Item {
    ghost before = { λ x y.
        nat_lt x.minute y.minute || (x.minute == y.minute && nat_lt x.number y.number) };

    ghost asymmetric = { Prim.search rules };

    ghost cotransitive = { Prim.search rules };

    fn precedes(&self, other: &Item) -> bool {
        self < other
    }
}

/// Two items compare equal exactly where they are the same.
pub fn equality_is_identity()
    ensures { (a b : Item) → IsTrue (⟦<Item as PartialEq>⟧.eq a b) ↔ (a ≡ b) }
{}
