//! Sixteen bytes to an event and back. What a line has beside its first ride is read where lines are.
ghost use Rattle.std.specs.Prelude.{◌≡◌, ℕ, IfOk, Ok};
ghost use Rattle.records.specs.Kinds.{spare_bytes_of};
ghost use Rattle.records.specs.Layout.{event_in, layout, reading, ride_in, word, writing, zeros};

use crate::event::{Event, Opening, Ride};
use crate::kind::Kind;
use faults::Fault;

// The minute that the fields of a record give.
fn minute_in(bytes: &[u8; 16]) -> u32
    ensures { result ≡ word bytes.now 4 }
{
    u32::from_be_bytes([bytes[4], bytes[5], bytes[6], bytes[7]])
}

/// The ride that the fields of a record give, whatever its kind and the bytes that a ride does not use: also the first
/// ride of a line.
pub fn ride_fields(bytes: &[u8; 16]) -> Ride
    ensures { result ≡ ride_in bytes.now }
{
    Ride {
        from: bytes[1],
        to: bytes[2],
        departure: minute_in(bytes),
        duration: u16::from_be_bytes([bytes[8], bytes[9]]),
    }
}

/// The event that the fields of a record give, whatever its spare bytes; a kind that is not an opening's
/// is taken for a ride's.
pub fn fields(bytes: &[u8; 16]) -> Event
    ensures { result ≡ event_in bytes.now }
{
    match Kind::try_from(bytes[0]) {
        Ok(Kind::Opening) => Event::opening(bytes[1], minute_in(bytes)),
        _ => Event::Ride(ride_fields(bytes)),
    }
}

// Whether every byte is 0.
fn all_zero(bytes: &[u8]) -> bool
    ensures { result ≡ zeros bytes.now }
{
    bytes.iter().all(|byte| *byte == 0)
}

// Whether the bytes that a record of the kind does not use are all 0.
fn spare_bytes_clear(kind: Kind, bytes: &[u8; 16]) -> bool
    ensures { result ≡ zeros (spare_bytes_of kind bytes.now) }
{
    match kind {
        Kind::Opening => all_zero(&bytes[2..4]) && all_zero(&bytes[8..16]),
        Kind::Ride => all_zero(&bytes[3..4]) && all_zero(&bytes[10..16]),
    }
}

/// Reads a record: its event, or the first rule that it breaks, at the place given.
///
/// # Errors
///
/// Fault 3 where the kind is none of an event, 4 where a spare byte is not 0, then as `Event::check`.
pub fn read(bytes: &[u8; 16], place: usize) -> Result<Event, Fault>
    ensures value { result ≡ reading place bytes.now }
    ensures only_record { IfOk result (λ e. layout e ≡ bytes.now) }
{
    let kind = Kind::try_from(bytes[0]).map_err(|_| Fault::WrongKind { place })?;
    if !spare_bytes_clear(kind, bytes) {
        return Err(Fault::SpareByteSet { place });
    }
    let event = fields(bytes);
    event.check(place)?;
    Ok(event)
}

// The sixteen bytes of an event, within its limits or not.
impl From<Event> for [u8; 16] {
    ghost from_gives = { λ event bytes. bytes ≡ layout event };

    fn from(event: Event) -> [u8; 16] {
        match event {
            Event::Opening(Opening { stop, minute }) => {
                let kind = Kind::Opening as u8;
                let m = minute.to_be_bytes();
                [
                    kind, stop, 0, 0, m[0], m[1], m[2], m[3], 0, 0, 0, 0, 0, 0, 0, 0,
                ]
            }
            Event::Ride(
                Ride {
                    from,
                    to,
                    departure,
                    duration,
                },
            ) => {
                let kind = Kind::Ride as u8;
                let t = departure.to_be_bytes();
                let d = duration.to_be_bytes();
                [
                    kind, from, to, 0, t[0], t[1], t[2], t[3], d[0], d[1], 0, 0, 0, 0, 0, 0,
                ]
            }
        }
    }
}

/// Writes an event: the one record that reads as it.
///
/// # Errors
///
/// The first limit that it breaks, as `Event::check` at place 0.
pub fn write(event: Event) -> Result<[u8; 16], Fault>
    ensures value { result ≡ writing event }
    ensures reads_back { IfOk result (λ bs. (p : ℕ) → reading p bs ≡ Ok event) }
{
    event.check(0)?;
    Ok(event.into())
}
