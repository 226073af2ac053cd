//! Judges lists of event numbers, read from standard input line by line:
//!     d                                a new day
//!     o STOP MINUTE                    its next event, an opening
//!     r FROM TO DEPARTURE DURATION     its next event, a ride
//!     x NUMBER                         the event with this number is out of force
//!     j FROM TO OPEN CLOSE CALL STEP.. prints 'none', or begin, end, riding, rides and the score under each measure
#![tactic(auto)]

ghost use Rattle.std.specs.Prelude.{◌≡◌, MatchOption};
ghost use Rattle.journeys.specs.Journeys.{Fits};
ghost use Rattle.journeys.specs.Marks.{is_in_force};
ghost use Rattle.journeys.specs.Verdicts.{IsVerdict};
ghost use Rattle.trial_judge.specs.Scores.{other_scores};

use journeys::{Query, Verdict, judge};
use measures::{
    EarliestArrival, Fastest, FewestRides, LatestDeparture, LeastRiding, LeastWaiting, Measure,
};
use scripts::Day;
use std::alloc::Global;
use std::default::MadeWith;
use std::io::{BufRead, BufReader};

// The words of a line before the first step.
const WORDS_OF_A_QUESTION: usize = 6;

// What a list of event numbers is under a measure, if it is a journey that fits.
fn verdict<M: Measure>(day: &Day, query: Query, steps: &[usize]) -> Option<Verdict>
    ensures { let es = day.now.events.items in let p = is_in_force day.now.marks.items in
        IsVerdict M.ops es p query steps.now result }
{
    judge::<M>(&day.events, &day.marks, query, steps)
}

// The scores of a list under the measures beside the earliest arrival, or none where it does not fit.
fn scores(day: &Day, query: Query, steps: &[usize]) -> Option<[(i64, i64); 5]>
    ensures { let es = day.now.events.items in
        let p = is_in_force day.now.marks.items in
        MatchOption result
        (Fits es p query steps.now → ⊥)
        (λ found. Fits es p query steps.now × (found ≡ other_scores es steps.now)) }
{
    Some([
        verdict::<LatestDeparture>(day, query, steps)?.score,
        verdict::<Fastest>(day, query, steps)?.score,
        verdict::<LeastRiding>(day, query, steps)?.score,
        verdict::<FewestRides>(day, query, steps)?.score,
        verdict::<LeastWaiting>(day, query, steps)?.score,
    ])
}

// Prints what is said of a list, and its score under each measure.
fn print_judgment(rt: &impl Print, day: &Day, query: Query, steps: &[usize]) -> anyhow::Result<()> {
    let earliest = verdict::<EarliestArrival>(day, query, steps);
    let (Some(verdict), Some(others)) = (earliest, scores(day, query, steps)) else {
        println!(rt; "none")?;
        return Ok(());
    };
    let Verdict {
        begin,
        end,
        riding,
        rides,
        score,
    } = verdict;
    let (first, second) = score;
    print!(rt; "{begin} {end} {riding} {rides} {first} {second}")?;
    for (first, second) in others {
        print!(rt; " {first} {second}")?;
    }
    println!(rt; "")?;
    Ok(())
}

// The event numbers behind the question of a line.
fn steps(heap: Global, line: &str) -> anyhow::Result<Vec<usize>> {
    let mut found = Vec::new(heap);
    for word in line.split(' ').skip(WORDS_OF_A_QUESTION) {
        found.push(word.parse::<usize>()?)?;
    }
    Ok(found)
}

fn main(rt: HostRuntime) -> anyhow::Result<()> {
    let mut day = Day::made_with(rt.alloc());
    for line in BufReader::new(rt.alloc(), rt.stdin())?.lines(rt.alloc()) {
        let line = line?;
        if let Some(query) = day.take(line.as_str().parse()?)? {
            print_judgment(&rt, &day, query, &steps(rt.alloc(), line.as_str())?)?;
        }
    }
    Ok(())
}
