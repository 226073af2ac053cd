//! A line of a script:
//!     d                                a new day
//!     o STOP MINUTE                    its next event, an opening
//!     r FROM TO DEPARTURE DURATION     its next event, a ride
//!     x NUMBER                         the event with this number is out of force
//!     j or q, FROM TO OPEN CLOSE CALL  a question about the day; what stands behind it is the program's to read
ghost use Rattle.std.specs.Prelude.{◌≡◌, ℕ, List, drop, Some};
ghost use Rattle.scripts.specs.Errors.{error_text};
ghost use Rattle.scripts.specs.Lines.{NumberTaken, WordsLeft, line_in, opening_in, question_in, ride_in};

use journeys::Query;
use records::{Event, Opening, Ride};
use std::error::Error;
use std::fmt;
use std::str::{FromStr, Split};

/// What a line tells.
#[derive(Clone, Copy, PartialEq, Eq, Debug)]
pub enum DayLine {
    New,
    Add(Event),
    Withdraw(u32),
    Ask(Query),
}

/// Why a line tells nothing.
#[derive(Clone, Copy, PartialEq, Eq, Debug)]
pub enum LineError {
    UnknownLetter,
    MissingNumber,
    NotANumber,
}

impl fmt::Display for LineError {
    ghost output = { λ error. Some (error_text error) };

    fn fmt<W: fmt::Write>(&self, f: &mut fmt::Formatter<W>) -> fmt::Result {
        f.write_str(match self {
            LineError::UnknownLetter => "a line begins with no known letter",
            LineError::MissingNumber => "a number is missing",
            LineError::NotANumber => "a word is not a number, or too large a one",
        })
    }
}

impl Error for LineError {}

// The next word as a number.
fn next<T: FromStr + Drop>(words: &mut Split<char>) -> Result<T, LineError>
where
    T::Err: Drop,
    ensures { (ws : List (List ℕ)) → WordsLeft words.old ws →
        NumberTaken T.from_str_gives ws result × WordsLeft words.new (drop 1 ws) }
{
    let word = words.next().ok_or(LineError::MissingNumber)?;
    word.parse::<T>().or(Err(LineError::NotANumber))
}

fn opening(words: &mut Split<char>) -> Result<Event, LineError>
    ensures { (ws : List (List ℕ)) → WordsLeft words.old ws → result ≡ opening_in ws }
{
    Ok(Event::Opening(Opening {
        stop: next(words)?,
        minute: next(words)?,
    }))
}

fn ride(words: &mut Split<char>) -> Result<Event, LineError>
    ensures { (ws : List (List ℕ)) → WordsLeft words.old ws → result ≡ ride_in ws }
{
    Ok(Event::Ride(Ride {
        from: next(words)?,
        to: next(words)?,
        departure: next(words)?,
        duration: next(words)?,
    }))
}

fn query(words: &mut Split<char>) -> Result<Query, LineError>
    ensures { (ws : List (List ℕ)) → WordsLeft words.old ws → result ≡ question_in ws }
{
    Ok(Query {
        from: next(words)?,
        to: next(words)?,
        open: next(words)?,
        close: next(words)?,
        call: next::<u8>(words)? == 1,
    })
}

impl FromStr for DayLine {
    type Err = LineError;

    ghost from_str_gives = { λ line r. r ≡ line_in line };

    fn from_str(line: &str) -> Result<DayLine, LineError> {
        let mut words = line.split(' ');
        let letter = words.next().ok_or(LineError::UnknownLetter)?;
        // An arm for each letter, since the proof of a joined one is not told which it met.
        match letter {
            "d" => Ok(DayLine::New),
            "o" => Ok(DayLine::Add(opening(&mut words)?)),
            "r" => Ok(DayLine::Add(ride(&mut words)?)),
            "x" => Ok(DayLine::Withdraw(next(&mut words)?)),
            "j" => Ok(DayLine::Ask(query(&mut words)?)),
            "q" => Ok(DayLine::Ask(query(&mut words)?)),
            _ => Err(LineError::UnknownLetter),
        }
    }
}

#[cfg(test)]
mod tests {
    use super::*;
    use std::test::Fail;

    #[test]
    fn lines_that_tell_nothing(rt: HostRuntime) -> Result<(), Fail> {
        let errors = [
            ("", LineError::UnknownLetter),
            ("z 1", LineError::UnknownLetter),
            ("x", LineError::MissingNumber),
            ("r 2 3 125", LineError::MissingNumber),
            ("o 256 125", LineError::NotANumber),
            ("q 1 3 100 200 v", LineError::NotANumber),
        ];
        for (line, error) in errors {
            assert_eq!(rt; line.parse::<DayLine>(), Err(error));
        }
        Ok(())
    }

    #[test]
    fn call_wanted_by_one_alone(rt: HostRuntime) -> Result<(), Fail> {
        let asked = Query {
            from: 1,
            to: 3,
            open: 100,
            close: 200,
            call: false,
        };
        assert_eq!(rt;
            "q 1 3 100 200 2".parse::<DayLine>(),
            Ok(DayLine::Ask(asked))
        );
        Ok(())
    }
}
