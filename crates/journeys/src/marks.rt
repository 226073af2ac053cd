//! Marks, one for each event: true for an event that is out of force.
ghost use Rattle.std.specs.Prelude.{◌≡◌};
ghost use Rattle.journeys.specs.Marks.{is_in_force};

/// Whether the marks leave an event in force; beyond them every event is.
pub fn is_in_force(marks: &[bool], number: usize) -> bool
    ensures { result ≡ is_in_force marks.now number }
{
    !marks.get(number).copied().unwrap_or(false)
}
