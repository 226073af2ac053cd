//! What the library's traits mean at a reply.
ghost use Rattle.std.specs.Prelude.{◌≡◌};
ghost use Rattle.records.specs.Limits.{longest_line};
ghost use Rattle.replies.specs.declared.reply.Reply.{Reply};

use crate::reply::Reply;
use crate::writer::LONGEST_LINE;

/// The most bytes of a line are the number that promises speak of.
pub fn limits_are_defined()
    ensures line { LONGEST_LINE ≡ longest_line }
{}

/// The clone of a reply is the same, and is never refused.
pub fn clone_is_identity()
    ensures { let clones = ⟦<Reply as Clone>⟧ in
        (a b : Reply) → clones.is_infallible a × (clones.is_clone a b → b ≡ a) }
{}
