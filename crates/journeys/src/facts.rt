//! What is proved of journeys and scores in general.
ghost use Rattle.std.specs.Prelude.{◌≡◌, ◌↔◌, IsTrue};
ghost use Rattle.journeys.specs.declared.answer.Answer.{Answer};
ghost use Rattle.journeys.specs.declared.judgment.Verdict.{Verdict};
ghost use Rattle.journeys.specs.declared.query.Query.{Query};
ghost use Rattle.journeys.specs.Formulas.{MeasuresArePlain};
ghost use Rattle.journeys.specs.Journeys.{WaitingIsGaps};
ghost use Rattle.journeys.specs.Shown.{verdict_text};
ghost use Rattle.journeys.specs.Walks.{WalksAreJourneys};

use crate::answer::Answer;
use crate::judgment::Verdict;
use crate::query::Query;
use std::fmt;

/// The journeys that fit are exactly the temporal walks within the window.
pub fn walks_are_journeys()
    ensures { WalksAreJourneys }
{}

/// What a journey waits is the sum of its gaps.
pub fn waiting_is_gaps()
    ensures { WaitingIsGaps }
{}

/// The score of a journey under each measure is its plain formula.
pub fn measures_are_plain()
    ensures { MeasuresArePlain }
{}

/// A verdict displays as its words.
pub fn displays_are_words()
    ensures { (v : Verdict) → ⟦<Verdict as fmt::Display>⟧.output v ≡ Some (verdict_text v) }
{}

/// Verdicts, answers, and queries compare equal exactly where they are the same.
pub fn equality_is_identity()
    ensures answers { (a b : Answer) → IsTrue (⟦<Answer as PartialEq>⟧.eq a b) ↔ (a ≡ b) }
    ensures verdicts { (a b : Verdict) → IsTrue (⟦<Verdict as PartialEq>⟧.eq a b) ↔ (a ≡ b) }
    ensures queries { (a b : Query) → IsTrue (⟦<Query as PartialEq>⟧.eq a b) ↔ (a ≡ b) }
{}

/// The clone of a verdict, of an answer, and of a query is the same, and is never refused.
pub fn clone_is_identity()
    ensures answers { let clones = ⟦<Answer as Clone>⟧ in
        (a b : Answer) → clones.is_infallible a × (clones.is_clone a b → b ≡ a) }
    ensures verdicts { let clones = ⟦<Verdict as Clone>⟧ in
        (a b : Verdict) → clones.is_infallible a × (clones.is_clone a b → b ≡ a) }
    ensures queries { let clones = ⟦<Query as Clone>⟧ in
        (a b : Query) → clones.is_infallible a × (clones.is_clone a b → b ≡ a) }
{}
