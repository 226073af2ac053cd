//! What the constants of this crate are.
ghost use Rattle.std.specs.Prelude.{◌≡◌};
ghost use Rattle.records.specs.Limits.{event_slots, longest_text};

use crate::conversation::{LONGEST_TEXT, SLOTS};

/// The most bytes of a text, and the slots of logs and queues, are the numbers that promises speak of.
pub fn limits_are_defined()
    ensures text { LONGEST_TEXT ≡ longest_text }
    ensures slots { SLOTS ≡ event_slots }
{}
