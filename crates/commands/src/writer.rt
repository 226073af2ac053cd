//! A command written out.
ghost use Rattle.std.specs.Prelude.{◌≡◌, [], ◌∷◌, MatchBool};
ghost use Rattle.texts.specs.Pushing.{Pushes};
ghost use Rattle.commands.specs.Grammar.{IsValid, letter, query_text, command_text};
ghost use Rattle.commands.specs.Writing.{WritesIfRoom};

use crate::command::Command;
use crate::reader::MOST_NUMBER;
use arrayvec::{ArrayString, CapacityError};
use journeys::Query;
use measures::Criterion;
use texts::{copy_out, push, push_spaced};

/// The length of the longest text, that of `e 255 255 999999 999999 v`.
pub const LONGEST_TEXT: usize = 25;

// A line in which a text is put together.
type Line = ArrayString<LONGEST_TEXT>;

// Whether each number has at most six digits.
fn is_valid(command: Command) -> bool
    ensures { MatchBool result (IsValid command) (IsValid command → ⊥) }
{
    match command {
        Command::Withdraw { event } | Command::Reinstate { event } => event <= MOST_NUMBER,
        Command::Tally => true,
        Command::Find { query, .. } => query.open <= MOST_NUMBER && query.close <= MOST_NUMBER,
    }
}

// The letter of a measure. No `Display`: no clause says that a write to a formatter
// succeeds. A `From` to text would have the same lines in an impl.
fn letter_of(criterion: Criterion) -> &'static str
    ensures { result.now ≡ letter criterion ∷ [] }
{
    match criterion {
        Criterion::EarliestArrival => "e",
        Criterion::LatestDeparture => "l",
        Criterion::Fastest => "f",
        Criterion::LeastRiding => "s",
        Criterion::FewestRides => "n",
        Criterion::LeastWaiting => "c",
    }
}

// Puts a query's letter, stops and minutes behind the text of a line.
fn push_question(line: &mut Line, criterion: Criterion, query: Query) -> Result<(), CapacityError>
    ensures { Pushes 25 line.old.bytes (query_text criterion query) result line.new.bytes }
{
    push(line, letter_of(criterion))?;
    push_spaced(line, query.from)?;
    push_spaced(line, query.to)?;
    push_spaced(line, query.open)?;
    push_spaced(line, query.close)
}

// Puts the text of a command behind that of a line.
fn push_text(line: &mut Line, command: Command) -> Result<(), CapacityError>
    ensures { Pushes 25 line.old.bytes (command_text command) result line.new.bytes }
{
    match command {
        Command::Withdraw { event } => {
            push(line, "w")?;
            push_spaced(line, event)
        }
        Command::Reinstate { event } => {
            push(line, "r")?;
            push_spaced(line, event)
        }
        Command::Tally => push(line, "t"),
        Command::Find { criterion, query } => {
            push_question(line, criterion, query)?;
            if query.call { push(line, " v") } else { Ok(()) }
        }
    }
}

/// Writes a command's text to the front of `out` and tells its length; none, with nothing written, where a
/// number has more than six digits or there is no room.
pub fn write(command: Command, out: &mut [u8]) -> Option<usize>
    ensures { WritesIfRoom command out.old result out.new }
{
    if !is_valid(command) {
        return None;
    }
    let mut line = Line::new();
    push_text(&mut line, command).ok()?;
    copy_out(&line, out)
}
