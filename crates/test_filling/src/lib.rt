//! What tests and trial programs fill tables with: numbers that no event has.
#![tactic(auto)]

ghost use Rattle.std.specs.Prelude.{◌≡◌, ◌==◌, drop};
ghost use Rattle.std.specs.List.{list_all};

/// A number that no event has, for slots of a step table that are not to be written.
pub const NONSENSE: usize = 77_777;

/// A number that no event has, for what is in the work tables before a search.
pub const NO_EVENT: u16 = 65_535;

/// Whether a step table has nonsense in each slot behind the first ones.
pub fn is_nonsense_behind(steps: &[usize], count: usize) -> bool
    ensures { result ≡ list_all (λ step. step == 77777) (drop count steps.now) }
{
    steps.iter().skip(count).all(|step| *step == NONSENSE)
}
