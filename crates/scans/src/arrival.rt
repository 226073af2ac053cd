//! Arrivals that a search awaits.
ghost use Rattle.scans.specs.Arrivals.{sooner};
ghost use Rattle.scans.specs.Orders.{sooner_asymmetric, sooner_cotransitive};

use crate::entry::Stage;
use queue::Precedence;

/// The minute in which a stage leaves its traveller ready. The queue gives the lowest minute first; within a minute the lowest
/// event number; and of one event the traveller who has made no call before the one who has.
#[derive(Clone, Copy, PartialEq, Eq, Debug, Default)]
pub struct Arrival {
    pub minute: u32,
    pub stage: Stage,
}

impl Precedence for Arrival {
    ghost before = { sooner };

    ghost asymmetric = { sooner_asymmetric };

    ghost cotransitive = { sooner_cotransitive };

    // Every comparison is made, so that a queue has no branch here for a processor to guess wrong: by a derived order a query
    // takes a quarter longer.
    fn precedes(&self, other: &Arrival) -> bool {
        let (first, second) = (self.stage, other.stage);
        let by_call = !first.called & second.called;
        let by_event = (first.event < second.event) | ((first.event == second.event) & by_call);
        (self.minute < other.minute) | ((self.minute == other.minute) & by_event)
    }
}
