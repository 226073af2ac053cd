//! A line record: its first ride, which is read and tested as any other, and how it is repeated.
ghost use Rattle.std.specs.Prelude.{◌≡◌, ◌+◌, ◌≤◌, ◌++◌};
ghost use Rattle.faults.specs.Rules.{ruling};
ghost use Rattle.records.specs.Limits.{most_events};
ghost use Rattle.lines.specs.Lines.{few_rides, last_arrival, line_in, line_limits, line_rules, spare_clear};

use faults::Fault;
use records::{MOST_EVENTS, Ride, check_minute, ride_fields};

// The kind of a line record, which is the only one in a block of lines: an enum would have one case.
const LINE: u8 = 3;

// A ride that is repeated: the minutes from one departure to the next, and how many rides there are.
#[derive(Clone, Copy, PartialEq, Eq, Debug)]
pub(crate) struct Line {
    pub first: Ride,
    pub interval: u16,
    pub rides: u16,
}

// The line that the fields of a record give, whatever its kind and its spare bytes.
fn fields(row: &[u8; 16]) -> Line
    ensures { result ≡ line_in row.now }
{
    Line {
        first: ride_fields(row),
        interval: u16::from_be_bytes([row[10], row[11]]),
        rides: u16::from_be_bytes([row[12], row[13]]),
    }
}

// Whether the bytes that a line record does not use are all 0.
fn spare_bytes_clear(row: &[u8; 16]) -> bool
    ensures { result ≡ spare_clear row.now }
{
    row[3] == 0 && row[14] == 0 && row[15] == 0
}

// The arrival of a line's last ride.
fn last_arrival(line: Line) -> u64
    requires { 1 ≤ line.rides }
    ensures { result ≡ last_arrival line }
{
    line.first.arrival() + u64::from(line.rides - 1) * u64::from(line.interval)
}

// Refuses a line outside the limits, with the first broken one, at the place given.
fn check_line(line: Line, place: usize) -> Result<(), Fault>
    ensures { result ≡ ruling (line_limits place line) tt }
{
    line.first.check(place)?;
    if line.interval == 0 || line.rides == 0 {
        return Err(Fault::NoRepetition { place });
    }
    check_minute(last_arrival(line), place)
}

// Reads a line record: its line, or the first rule that it breaks, at the place given.
fn read(row: &[u8; 16], place: usize) -> Result<Line, Fault>
    ensures { result ≡ ruling (line_rules place row.now) (line_in row.now) }
{
    if row[0] != LINE {
        return Err(Fault::WrongKind { place });
    }
    if !spare_bytes_clear(row) {
        return Err(Fault::SpareByteSet { place });
    }
    let line = fields(row);
    check_line(line, place)?;
    Ok(line)
}

// The line of a record, refused as the one at `place` behind lines with so many rides with the first rule that it breaks.
pub(crate) fn read_after(rides: usize, place: usize, row: &[u8; 16]) -> Result<Line, Fault>
    requires { rides ≤ most_events }
    ensures { let line = line_in row.now in
        result ≡ ruling (line_rules place row.now ++ few_rides place (rides + line.rides)) line }
{
    let line = read(row, place)?;
    if rides + usize::from(line.rides) > MOST_EVENTS {
        return Err(Fault::TooManyRides { place });
    }
    Ok(line)
}
