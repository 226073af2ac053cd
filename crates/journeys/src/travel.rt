//! An event as a traveller uses it.
ghost use Rattle.std.specs.Prelude.{◌≡◌};
ghost use Rattle.journeys.specs.Formulas.{through};
ghost use Rattle.journeys.specs.Journeys.{end_of, leaves_at, reaches_at, ready_at, starts_at};

use measures::Measure;
use records::{Event, Stop};

/// The stop that a ride leaves, or at which an opening is.
pub fn leaves_at(event: Event) -> Stop
    ensures { result ≡ leaves_at event }
{
    match event {
        Event::Opening(opening) => opening.stop,
        Event::Ride(ride) => ride.from,
    }
}

/// The stop that a ride reaches, or at which an opening is.
pub fn reaches_at(event: Event) -> Stop
    ensures { result ≡ reaches_at event }
{
    match event {
        Event::Opening(opening) => opening.stop,
        Event::Ride(ride) => ride.to,
    }
}

/// The arrival of a ride, or the minute of an opening.
pub fn end_of(event: Event) -> u64
    ensures { result ≡ end_of event }
{
    match event {
        Event::Opening(opening) => u64::from(opening.minute),
        Event::Ride(ride) => ride.arrival(),
    }
}

/// The minute in which an event starts to be used: a ride's departure, an opening's minute.
pub fn starts_at(event: Event) -> u32
    ensures { result ≡ starts_at event }
{
    event.time()
}

/// The minute from which a traveller can go on after an event.
pub fn ready_at(event: Event) -> u64
    ensures { result ≡ ready_at event }
{
    end_of(event)
}

/// A label taken through an event.
pub fn label_through<M: Measure>(label: M::Label, event: Event) -> M::Label
    ensures { result ≡ through M.ops event label }
{
    match event {
        Event::Opening(_) => label,
        Event::Ride(ride) => M::ride(label, ride.duration),
    }
}
