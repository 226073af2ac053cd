//! Following the predecessors of entries back from a journey's last event.
ghost use Rattle.std.specs.Prelude.{◌≡◌, ℕ, ◌+◌, ◌<◌, ◌≤◌, List, ◌++◌, length, drop};
ghost use Rattle.records.specs.Limits.{most_events};
ghost use Rattle.walks.specs.Logs.{TracesBack};
ghost use Rattle.scans.specs.Views.{view};
ghost use Rattle.search.specs.Tracing.{IsBackward, stage_before};

use scans::{Entry, Stage, entry_for};

// The stage before this one on its journey; none where the journey begins with it.
fn stage_before<L: Copy>(log: &[Option<Entry<L>>], stage: Stage) -> Option<Stage>
    ensures { result ≡ stage_before log.now stage }
{
    entry_for(log, stage)?.predecessor
}

// How many steps the journey has that tracing back from a stage spells.
fn count_steps<L: Copy>(log: &[Option<Entry<L>>], last: Stage) -> usize
    requires backward { IsBackward log.now }
    requires numbered { last.event < most_events }
    ensures count { (js : List ℕ)
        → TracesBack (view log.now) last.event last.called js
        → result ≡ length js }
    ensures few { result ≤ last.event + 1 }
{
    // It ends where the journey begins, and not at a count; an iterator of stages would be proved to end by the same numbers.
    let mut count = 1;
    let mut stage = last;
    while let Some(before) = stage_before(log, stage) {
        count += 1;
        stage = before;
    }
    count
}

// Writes the journey that tracing back from a stage spells into slots of which there are as many as it has steps.
fn write_steps<L: Copy>(log: &[Option<Entry<L>>], steps: &mut [usize], last: Stage)
    requires { (js : List ℕ)
        × TracesBack (view log.now) last.event last.called js
        × (length steps.old ≡ length js) }
    ensures { TracesBack (view log.now) last.event last.called steps.new }
{
    // From the end to the front, since the journey is found from its last event.
    let mut place = steps.len();
    let mut next = Some(last);
    while let Some(stage) = next {
        place -= 1;
        steps[place] = usize::from(stage.event);
        next = stage_before(log, stage);
    }
}

// Writes the journey that tracing back from a stage spells into the front of a step table, and tells its number of steps.
pub(crate) fn trace_back<L: Copy>(
    log: &[Option<Entry<L>>],
    steps: &mut [usize],
    last: Stage,
) -> usize
    requires backward { IsBackward log.now }
    requires traced { (js : List ℕ) × TracesBack (view log.now) last.event last.called js }
    requires numbered { last.event < most_events }
    requires room { last.event < length steps.old }
    ensures count { (js : List ℕ)
        → TracesBack (view log.now) last.event last.called js
        → result ≡ length js }
    ensures written { (js : List ℕ)
        → TracesBack (view log.now) last.event last.called js
        → steps.new ≡ js ++ drop (length js) steps.old }
{
    let count = count_steps(log, last);
    write_steps(log, &mut steps[..count], last);
    count
}
