//! What the library's traits mean at a command.
ghost use Rattle.std.specs.Prelude.{◌≡◌, IsTrue, ◌↔◌};
ghost use Rattle.records.specs.Limits.{most_number};
ghost use Rattle.commands.specs.declared.command.Command.{Command};

use crate::command::Command;
use crate::reader::MOST_NUMBER;

/// The highest number of a command is the number that promises speak of.
pub fn limits_are_defined()
    ensures number { MOST_NUMBER ≡ most_number }
{}

/// Two commands compare equal exactly where they are the same.
pub fn equality_is_identity()
    ensures { (a b : Command) → IsTrue (⟦<Command as PartialEq>⟧.eq a b) ↔ (a ≡ b) }
{}

/// The clone of a command is the same, and is never refused.
pub fn clone_is_identity()
    ensures { let clones = ⟦<Command as Clone>⟧ in
        (a b : Command) → clones.is_infallible a × (clones.is_clone a b → b ≡ a) }
{}
