//! What the library's traits mean at a day, a line and an error.
ghost use Rattle.std.specs.Prelude.{◌≡◌, ℕ, List, [], Some, Result, IsTrue, ◌↔◌};
ghost use Rattle.scripts.specs.declared.day.Day.{Day};
ghost use Rattle.scripts.specs.declared.line.DayLine.{DayLine};
ghost use Rattle.scripts.specs.declared.line.LineError.{LineError};
ghost use Rattle.scripts.specs.Errors.{error_text};
ghost use Rattle.scripts.specs.Lines.{line_in};

use crate::day::Day;
use crate::line::{DayLine, LineError};
use std::alloc::Global;
use std::default::MadeWith;
use std::fmt;
use std::str::FromStr;

/// A line is read as what its words tell, or refused for what is wrong with them.
pub fn lines_are_read_by_their_words()
    ensures { (line : List ℕ) (r : Result DayLine LineError) →
        ⟦<DayLine as FromStr>⟧.from_str_gives line r → r ≡ line_in line }
{}

/// A day begins with no event and no mark.
pub fn days_begin_empty()
    ensures { let made = ⟦<Day as MadeWith<Global>>⟧ in
        (day : Day) → made.is_made_with day → (day.events.items ≡ []) × (day.marks.items ≡ []) }
{}

/// An error prints as its words.
pub fn displays_are_words()
    ensures { (e : LineError) → ⟦<LineError as fmt::Display>⟧.output e ≡ Some (error_text e) }
{}

/// Two lines, and two errors, compare equal exactly where they are the same.
pub fn equality_is_identity()
    ensures lines { (a b : DayLine) → IsTrue (⟦<DayLine as PartialEq>⟧.eq a b) ↔ (a ≡ b) }
    ensures errors { (a b : LineError) → IsTrue (⟦<LineError as PartialEq>⟧.eq a b) ↔ (a ≡ b) }
{}

/// The clone of a line, and of an error, is the same, and is never refused.
pub fn clone_is_identity()
    ensures lines { let clones = ⟦<DayLine as Clone>⟧ in
        (a b : DayLine) → clones.is_infallible a × (clones.is_clone a b → b ≡ a) }
    ensures errors { let clones = ⟦<LineError as Clone>⟧ in
        (a b : LineError) → clones.is_infallible a × (clones.is_clone a b → b ≡ a) }
{}
