//! An event and its limits.
ghost use Rattle.std.specs.Prelude.{◌≡◌, [], ◌∷◌, Some};
ghost use Rattle.faults.specs.Rules.{ruling};
ghost use Rattle.records.specs.Events.{arrival_of, may_precede, is_opening, limits, opening_event, ride_event, ride_rules, time_of, time_rule};
ghost use Rattle.records.specs.Shown.{event_text};

use crate::limits::{LAST_MINUTE, LONGEST_RIDE, Stop};
use faults::Fault;
use std::fmt;

/// A minute in which a place at a stop can be used.
#[derive(Clone, Copy, PartialEq, Eq, Debug)]
pub struct Opening {
    pub minute: u32,
    pub stop: Stop,
}

/// A ride from stop to stop: the minute in which it departs, and how many minutes it takes. The fields stand in the order in
/// which they take 8 bytes.
#[derive(Clone, Copy, PartialEq, Eq, Debug)]
pub struct Ride {
    pub departure: u32,
    pub duration: u16,
    pub from: Stop,
    pub to: Stop,
}

/// What a timetable holds.
#[derive(Clone, Copy, PartialEq, Eq, Debug)]
pub enum Event {
    /// A place at a stop can be used.
    Opening(Opening),
    /// A vehicle goes from one stop to another.
    Ride(Ride),
}

// In words.
impl fmt::Display for Event {
    ghost output = { λ event. Some (event_text event) };

    fn fmt<W: fmt::Write>(&self, f: &mut fmt::Formatter<W>) -> fmt::Result {
        match *self {
            Event::Opening(Opening { stop, minute }) => {
                write!(f, "opening at {stop}, minute {minute}")
            }
            Event::Ride(
                Ride {
                    from,
                    to,
                    departure,
                    duration,
                },
            ) => write!(f, "{from}-{to} {departure}+{duration}"),
        }
    }
}

/// Refuses a minute that no timetable has.
///
/// # Errors
///
/// Fault 8, with the place given, where the minute is after the last one.
pub fn check_minute(minute: u64, place: usize) -> Result<(), Fault>
    ensures { result ≡ ruling (time_rule place minute ∷ []) tt }
{
    if minute > u64::from(LAST_MINUTE) {
        return Err(Fault::TimeOutOfRange { place });
    }
    Ok(())
}

impl Ride {
    /// The minute in which the ride arrives.
    pub fn arrival(self) -> u64
        ensures { result ≡ arrival_of self }
    {
        u64::from(self.departure) + u64::from(self.duration)
    }

    /// Refuses a ride by its stops and its duration, which a ride of a line has to obey too.
    ///
    /// # Errors
    ///
    /// With the place given: fault 5 where its stops are equal, 6 where it lasts no minute or more than the longest ride.
    pub fn check(self, place: usize) -> Result<(), Fault>
        ensures { result ≡ ruling (ride_rules place self) tt }
    {
        if self.from == self.to {
            return Err(Fault::EqualStops { place });
        }
        if self.duration == 0 || self.duration > LONGEST_RIDE {
            return Err(Fault::DurationOutOfRange { place });
        }
        Ok(())
    }
}

impl Event {
    /// A ride that lasts so many minutes, within the limits or not.
    pub fn ride(from: Stop, to: Stop, departure: u32, minutes: u16) -> Event
        ensures { result ≡ ride_event from to departure minutes }
    {
        Event::Ride(Ride {
            from,
            to,
            departure,
            duration: minutes,
        })
    }

    /// An opening at a stop in a minute, within the limits or not.
    pub fn opening(stop: Stop, minute: u32) -> Event
        ensures { result ≡ opening_event stop minute }
    {
        Event::Opening(Opening { minute, stop })
    }

    /// Refuses an event outside the limits.
    ///
    /// # Errors
    ///
    /// With the place given, for a ride: fault 5 where its stops are equal, 6 where its duration is out of range, 8 where it
    /// arrives after the last minute. For an opening: 8 where its minute is after the last one.
    pub fn check(self, place: usize) -> Result<(), Fault>
        ensures { result ≡ ruling (limits place self) tt }
    {
        match self {
            Event::Opening(opening) => check_minute(u64::from(opening.minute), place),
            Event::Ride(ride) => {
                ride.check(place)?;
                check_minute(ride.arrival(), place)
            }
        }
    }

    /// The minute of an opening, or the departure of a ride.
    pub fn time(self) -> u32
        ensures { result ≡ time_of self }
    {
        match self {
            Event::Opening(opening) => opening.minute,
            Event::Ride(ride) => ride.departure,
        }
    }

    /// Whether it is an opening.
    pub fn is_opening(self) -> bool
        ensures { result ≡ is_opening self }
    {
        matches!(self, Event::Opening(_))
    }

    /// Whether `next` may come right after this event: its time is not earlier, and within a minute
    /// no opening follows a ride.
    pub fn may_precede(self, next: Event) -> bool
        ensures { result ≡ may_precede self next }
    {
        let (time, next_time) = (self.time(), next.time());
        match (self, next) {
            (Event::Ride(_), Event::Opening(_)) => time < next_time,
            _ => time <= next_time,
        }
    }
}
