//! The numbers that bound a timetable.
ghost use Rattle.std.specs.Prelude.{◌≡◌};
ghost use Rattle.records.specs.Limits.{last_minute, last_stop, longest_ride, most_events, most_stops};

/// A stop's number.
pub type Stop = u8;

/// How many stops there can be; they are numbered from 0.
pub const MOST_STOPS: usize = 256;

/// The highest number of a stop.
pub const LAST_STOP: u32 = MOST_STOPS as u32 - 1;

/// Minutes are counted from the timetable's first one; this is the last one that a timetable has.
pub const LAST_MINUTE: u32 = 999_999;

/// The longest ride, in minutes.
pub const LONGEST_RIDE: u16 = 1_440;

/// The most events that a timetable has.
pub const MOST_EVENTS: usize = 1_024;

/// The constants are the numbers that promises speak of.
pub fn limits_are_defined()
    ensures stops { MOST_STOPS ≡ most_stops }
    ensures last_stop { LAST_STOP ≡ last_stop }
    ensures minutes { LAST_MINUTE ≡ last_minute }
    ensures ride { LONGEST_RIDE ≡ longest_ride }
    ensures events { MOST_EVENTS ≡ most_events }
{}
