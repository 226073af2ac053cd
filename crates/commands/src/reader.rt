//! A line read byte by byte.
ghost use Rattle.std.specs.Prelude.{◌≡◌, ◌&&◌, Ok, nat_le, nat_lt};
ghost use Rattle.std.specs.Int.{IsInRange};
ghost use Rattle.commands.specs.Grammar.{IsAnswered, OneCommand, ShortTexts, Spells};
ghost use Rattle.commands.specs.Machine.{IsBounded, Finishes, Moves, limit};

use crate::command::Command;
use faults::Fault;
use journeys::Query;
use measures::Criterion;
use records::{LAST_STOP, Stop};

// The highest number that a command can have: it has six digits.
pub(crate) const MOST_NUMBER: u32 = 999_999;

// A number of a command, with what was read before it.
#[derive(Clone, Copy)]
enum Field {
    Withdrawn,
    Reinstated,
    From {
        criterion: Criterion,
    },
    To {
        criterion: Criterion,
        from: Stop,
    },
    Open {
        criterion: Criterion,
        from: Stop,
        to: Stop,
    },
    Close {
        criterion: Criterion,
        from: Stop,
        to: Stop,
        open: u32,
    },
}

// What was read so far, as far as it matters to what may follow. That its numbers are within bounds is said by `requires`: an
// enum has no invariant, and a struct round it would leave the functions that match on its cases as they are.
#[derive(Clone, Copy)]
enum State {
    Start,
    // A letter, and nothing else yet.
    Withdraw,
    Reinstate,
    Tally,
    Measure { criterion: Criterion },
    // The space before a number.
    Before { field: Field },
    // At least one digit of a number, which is `value` so far.
    Within { field: Field, value: u32 },
    // The space behind the last number of a query.
    BeforeCall { criterion: Criterion, query: Query },
    // The letter for a call behind that space.
    Called { criterion: Criterion, query: Query },
}

// The most that a number may be.
fn limit(field: Field) -> u32
    ensures { result ≡ limit field }
{
    match field {
        Field::From { .. } | Field::To { .. } => LAST_STOP,
        _ => MOST_NUMBER,
    }
}

// Whether a number that was `value` before its last digit and is `longer` with it may be written so: nothing follows a leading
// 0, and no number is above its limit. This and the next two functions take `field` and `value` as two parameters, although
// `State::Within` holds both, because one case of an enum can't be the type of a parameter.
fn may_go_on(field: Field, value: u32, longer: u32) -> bool
    ensures { result ≡ (nat_lt 0 value && nat_le longer (limit field)) }
{
    value > 0 && longer <= limit(field)
}

// The state behind a further digit of a number, none where the number may not go on with it.
fn further_digit(field: Field, value: u32, byte: u8) -> Option<State>
    requires bounded { IsBounded (State.Within field value) }
    requires digit { IsInRange 48 57 byte }
    ensures { Moves (State.Within field value) byte result }
{
    let longer = value * 10 + u32::from(byte - b'0');
    if !may_go_on(field, value, longer) {
        return None;
    }
    Some(State::Within {
        field,
        value: longer,
    })
}

// The state behind the space after a number, none where the command ends with it.
fn space_after(field: Field, value: u32) -> Option<State>
    requires { IsBounded (State.Within field value) }
    ensures { Moves (State.Within field value) 32 result }
{
    let next = match field {
        Field::Withdrawn | Field::Reinstated => return None,
        Field::From { criterion } => State::Before {
            field: Field::To {
                criterion,
                from: value as u8,
            },
        },
        Field::To { criterion, from } => State::Before {
            field: Field::Open {
                criterion,
                from,
                to: value as u8,
            },
        },
        Field::Open {
            criterion,
            from,
            to,
        } => State::Before {
            field: Field::Close {
                criterion,
                from,
                to,
                open: value,
            },
        },
        Field::Close {
            criterion,
            from,
            to,
            open,
        } => State::BeforeCall {
            criterion,
            query: Query {
                from,
                to,
                open,
                close: value,
                call: false,
            },
        },
    };
    Some(next)
}

// The state behind one byte more, none where no command goes on with it. Every byte is matched together with the state that it
// meets, the letters of the measures too, so that what may follow what is read off one table: a `TryFrom` of a letter would be a
// second one.
fn after_byte(state: State, byte: u8) -> Option<State>
    requires { IsBounded state }
    ensures { Moves state byte result }
{
    match (state, char::from(byte)) {
        (State::Start, 'w') => Some(State::Withdraw),
        (State::Start, 'r') => Some(State::Reinstate),
        (State::Start, 't') => Some(State::Tally),
        (State::Start, 'e') => Some(State::Measure {
            criterion: Criterion::EarliestArrival,
        }),
        (State::Start, 'l') => Some(State::Measure {
            criterion: Criterion::LatestDeparture,
        }),
        (State::Start, 'f') => Some(State::Measure {
            criterion: Criterion::Fastest,
        }),
        (State::Start, 's') => Some(State::Measure {
            criterion: Criterion::LeastRiding,
        }),
        (State::Start, 'n') => Some(State::Measure {
            criterion: Criterion::FewestRides,
        }),
        (State::Start, 'c') => Some(State::Measure {
            criterion: Criterion::LeastWaiting,
        }),
        (State::Withdraw, ' ') => Some(State::Before {
            field: Field::Withdrawn,
        }),
        (State::Reinstate, ' ') => Some(State::Before {
            field: Field::Reinstated,
        }),
        (State::Measure { criterion }, ' ') => Some(State::Before {
            field: Field::From { criterion },
        }),
        (State::Before { field }, '0'..='9') => Some(State::Within {
            field,
            value: u32::from(byte - b'0'),
        }),
        (State::Within { field, value }, '0'..='9') => further_digit(field, value, byte),
        (State::Within { field, value }, ' ') => space_after(field, value),
        (State::BeforeCall { criterion, query }, 'v') => Some(State::Called { criterion, query }),
        _ => None,
    }
}

// The command that was read, none where a command has to go on.
fn command_at_end(state: State) -> Option<Command>
    requires { IsBounded state }
    ensures { Finishes state result }
{
    match state {
        State::Tally => Some(Command::Tally),
        State::Within {
            field: Field::Withdrawn,
            value,
        } => Some(Command::Withdraw { event: value }),
        State::Within {
            field: Field::Reinstated,
            value,
        } => Some(Command::Reinstate { event: value }),
        State::Within {
            field: Field::Close {
                criterion,
                from,
                to,
                open,
            },
            value,
        } => Some(Command::Find {
            criterion,
            query: Query {
                from,
                to,
                open,
                close: value,
                call: false,
            },
        }),
        State::Called { criterion, query } => Some(Command::Find {
            criterion,
            query: Query {
                call: true,
                ..query
            },
        }),
        _ => None,
    }
}

/// Reads a line: the command that it spells, or how long its longest part is that begins one.
pub fn parse(line: &[u8]) -> Result<Command, Fault>
    ensures value { IsAnswered line.now result }
    ensures reads { (c : Command) → Spells line.now c → result ≡ Ok c }
    ensures unique { OneCommand }
    ensures short { ShortTexts }
{
    let mut state = State::Start;
    for (place, byte) in line.iter().enumerate() {
        let Some(next) = after_byte(state, *byte) else {
            return Err(Fault::NotACommand { place });
        };
        state = next;
    }
    command_at_end(state).ok_or(Fault::NotACommand { place: line.len() })
}
