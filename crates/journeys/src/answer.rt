//! What is answered to a query.
ghost use Rattle.std.specs.Prelude.{◌≡◌};
ghost use Rattle.journeys.specs.Answers.{named_steps};

use crate::judgment::Verdict;

/// Score, begin, end, riding and rides of the journey that is named, how many steps it has, and how
/// many events were read. The steps themselves are at the front of the caller's step table.
#[derive(Clone, Copy, PartialEq, Eq, Debug)]
pub struct Answer {
    pub verdict: Verdict,
    pub steps: usize,
    pub reads: usize,
}

impl Answer {
    /// The steps of the journey that it names, at the front of a step table.
    pub fn named_steps(self, steps: &[usize]) -> &[usize]
        ensures { result.now ≡ named_steps self steps.now }
    {
        steps.get(..self.steps).unwrap_or(steps)
    }
}
