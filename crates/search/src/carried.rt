//! Labels that carry along what an answer tells of a journey.
ghost use Rattle.search.specs.Carrying.{carrying};
ghost use Rattle.search.specs.Carryings.{carrying_laws};

use measures::Measure;

/// A measure's label, and when the journey began, the minutes ridden and the rides so far.
#[derive(Clone, Copy, PartialEq, Eq, Debug)]
pub struct Carried<L> {
    pub label: L,
    pub begin: u32,
    pub riding: u32,
    pub rides: u32,
}

/// The measure M over labels that carry these along; they are compared and settled by M alone.
pub struct Carrying<M>(M);

impl<M: Measure> Measure for Carrying<M> {
    type Label = Carried<M::Label>;

    ghost ops = { carrying M.ops };

    ghost laws = { carrying_laws M.ops M.laws };

    fn begin(minute: u32) -> Carried<M::Label> {
        Carried {
            label: M::begin(minute),
            begin: minute,
            riding: 0,
            rides: 0,
        }
    }

    fn ride(label: Carried<M::Label>, duration: u16) -> Carried<M::Label> {
        Carried {
            label: M::ride(label.label, duration),
            begin: label.begin,
            riding: label.riding.saturating_add(u32::from(duration)),
            rides: label.rides.saturating_add(1),
        }
    }

    fn no_worse(first: Carried<M::Label>, second: Carried<M::Label>) -> bool {
        M::no_worse(first.label, second.label)
    }

    fn settle(label: Carried<M::Label>, end: u32) -> (i64, i64) {
        M::settle(label.label, end)
    }
}
