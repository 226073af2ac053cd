//! The worked day, whose best scores are computed from the definitions.
#![tactic(auto)]

ghost use Rattle.std.specs.Prelude.{◌≡◌};
ghost use Rattle.worked_scores.specs.Day.{day, DayScores};

use journeys::Query;
use records::Event;

/// From stop 1 to stop 3 within the minutes 100 to 200, without a call.
pub const WORKED_QUERY: Query = Query {
    from: 1,
    to: 3,
    open: 100,
    close: 200,
    call: false,
};

/// The same, with a call.
pub const WORKED_QUERY_WITH_CALL: Query = Query {
    call: true,
    ..WORKED_QUERY
};

/// Two lines: 1-2 from 100 on, every 15 minutes, 3 rides of 20; and 2-3 from 115 on, every 30 minutes, 2 rides of 10.
pub const WORKED_LINES: [u8; 32] = [
    3, 1, 2, 0, 0, 0, 0, 100, 0, 20, 0, 15, 0, 3, 0, 0, //
    3, 2, 3, 0, 0, 0, 0, 115, 0, 10, 0, 30, 0, 2, 0, 0, //
];

/// The events of the worked day.
pub fn worked_events() -> [Event; 7]
    ensures { result ≡ day }
{
    [
        Event::ride(1, 2, 100, 20),
        Event::ride(1, 3, 105, 60),
        Event::ride(1, 2, 110, 15),
        Event::opening(2, 125),
        Event::ride(2, 3, 125, 30),
        Event::ride(2, 3, 148, 10),
        Event::opening(3, 170),
    ]
}

/// The best scores of the worked day, and what fits in narrower windows.
pub fn worked_scores()
    ensures { DayScores }
{}
