//! What is proved of every list of calls.
ghost use Rattle.timetable_post.specs.Histories.{HistoriesAreAnsweredRightly};

/// After every list of notices, tallies and queries each call had the answer that those before it make right, and the marks are
/// those of the events about which the latest accepted notice was a withdrawal.
pub fn histories_are_answered_rightly()
    ensures { HistoriesAreAnsweredRightly }
{}
