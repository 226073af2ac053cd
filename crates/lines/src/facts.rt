//! What the order of departures is.
ghost use Rattle.std.specs.Prelude.{◌≡◌};
ghost use Rattle.queue.specs.Order.{IsConnected};
ghost use Rattle.records.specs.Limits.{most_lines};
ghost use Rattle.lines.specs.Departures.{before};

use crate::departure::Departure;
use crate::line_table::MOST_LINES;
use queue::Precedence;

/// The most lines of a block are the number that promises speak of.
pub fn limits_are_defined()
    ensures lines { MOST_LINES ≡ most_lines }
{}

/// Of two departures that are not the same one goes before the other: by minute, then by line.
pub fn orders_are_total()
    ensures departures { ⟦<Departure as Precedence>⟧.before ≡ before }
    ensures connected { IsConnected ⟦<Departure as Precedence>⟧.before }
{}
