//! The mathematics under a search, with no code in sight: walks, exchange, logs of best labels.
#![tactic(auto)]

ghost use Rattle.walks.specs.Logs.{LogGivesBest, LogIsGlobal, MeasuresGiveBest, StoppingLosesNothing};
ghost use Rattle.walks.specs.Walks.{Exchange, WalksFit};

use measures::{
    EarliestArrival, Fastest, FewestRides, LatestDeparture, LeastRiding, LeastWaiting, Measure,
};

/// The journeys that fit are exactly the walks that end rightly.
pub fn walks_fit<M: Measure>()
    ensures { WalksFit M.ops }
{}

/// Of two walks that can go on with the same event, in the same call state, the no-worse one can take the other's place.
pub fn walks_exchange<M: Measure>()
    ensures { Exchange M.ops }
{}

/// A log that is right at each event covers every walk, and tracing it back spells a walk for each entry.
pub fn right_logs_are_global<M: Measure>()
    ensures { LogIsGlobal M.ops }
{}

/// The lowest settled entry of a right log is the best score of the journeys that fit.
pub fn right_logs_give_the_best<M: Measure>()
    ensures { LogGivesBest M.ops }
{}

/// Events from the first that is later than the close on can't be part of a journey that fits.
pub fn stopping_loses_nothing()
    ensures { StoppingLosesNothing }
{}

/// Each measure has what a right log needs: its laws, and nothing more.
pub fn measures_give_the_best()
    ensures { MeasuresGiveBest }
{
    right_logs_give_the_best::<EarliestArrival>();
    right_logs_give_the_best::<LatestDeparture>();
    right_logs_give_the_best::<Fastest>();
    right_logs_give_the_best::<LeastRiding>();
    right_logs_give_the_best::<FewestRides>();
    right_logs_give_the_best::<LeastWaiting>();
}
