//! Every refusal of the engine: one type, carried by `?` from a record up to the program.
#![tactic(auto)]

ghost use Rattle.std.specs.Prelude.{◌≡◌, Some, IsTrue, ◌↔◌};
ghost use Rattle.faults.specs.declared.Fault.{Fault};
ghost use Rattle.faults.specs.declared.Report.{Report};
ghost use Rattle.faults.specs.Numbered.{report, report_of, report_text};

use std::error::Error;
use std::fmt;

/// Why a call refused. `place` is where: a position, a limit, a length or an event number, by the case;
/// a case without one has place 0.
#[derive(Clone, Copy, PartialEq, Eq, Debug)]
pub enum Fault {
    /// Number 1, of a block: the bytes don't divide into records.
    PartialRecord { place: usize },
    /// Number 2, of a block: more records than it may have, or than there is room for.
    TooManyRecords { place: usize },
    /// Number 3, of a record: a kind that is not allowed here.
    WrongKind { place: usize },
    /// Number 4, of a record: a byte that its kind leaves unused is set.
    SpareByteSet { place: usize },
    /// Number 5, of a record: a ride back to the stop that it leaves.
    EqualStops { place: usize },
    /// Number 6, of a record: a ride of no minute, or of more than a day.
    DurationOutOfRange { place: usize },
    /// Number 7, of a record: a line of no ride, or of no minutes between its rides.
    NoRepetition { place: usize },
    /// Number 8, of a record: something would happen after the last minute.
    TimeOutOfRange { place: usize },
    /// Number 9, of a list: an event that may not come after the one before it.
    OutOfOrder { place: usize },
    /// Number 10, of a list: lines of more rides than a list may have.
    TooManyRides { place: usize },
    /// Number 11, of a command: the line spells none.
    NotACommand { place: usize },
    /// Number 12, of a post: a notice about no event of the day.
    UnknownEvent { place: usize },
    /// Number 13, of a post: a notice that would change nothing.
    NoticeWithoutEffect { place: usize },
    /// Number 14, of a query: it ends where it begins.
    EqualQueryStops,
    /// Number 15, of a query: its window shuts before it opens, or after the last minute.
    BadWindow,
    /// Number 16, of a query: a table of the search, its queue among them, is too short.
    WorkTableTooShort,
    /// Number 17, of a query: the table for the journey's steps is too short.
    StepTableTooShort,
    /// Number 18, of a query: no journey fits.
    NoJourney,
}

/// A fault as it is told to the outside, which knows numbers only: a line of output, or a call across C.
#[derive(Clone, Copy, PartialEq, Eq, Debug)]
pub struct Report {
    pub number: u8,
    pub layer: u8,
    pub place: usize,
}

impl Report {
    /// The report of these numbers.
    pub fn new(number: u8, layer: u8, place: usize) -> Report
        ensures { result ≡ report number layer place }
    {
        Report {
            number,
            layer,
            place,
        }
    }
}

// The fault's number, layer and place.
impl From<Fault> for Report {
    ghost from_gives = { λ f r. r ≡ report_of f };

    fn from(fault: Fault) -> Report {
        let (number, layer, place) = match fault {
            Fault::PartialRecord { place } => (1, 1, place),
            Fault::TooManyRecords { place } => (2, 1, place),
            Fault::WrongKind { place } => (3, 2, place),
            Fault::SpareByteSet { place } => (4, 2, place),
            Fault::EqualStops { place } => (5, 2, place),
            Fault::DurationOutOfRange { place } => (6, 2, place),
            Fault::NoRepetition { place } => (7, 2, place),
            Fault::TimeOutOfRange { place } => (8, 2, place),
            Fault::OutOfOrder { place } => (9, 3, place),
            Fault::TooManyRides { place } => (10, 3, place),
            Fault::NotACommand { place } => (11, 4, place),
            Fault::UnknownEvent { place } => (12, 5, place),
            Fault::NoticeWithoutEffect { place } => (13, 5, place),
            Fault::EqualQueryStops => (14, 6, 0),
            Fault::BadWindow => (15, 6, 0),
            Fault::WorkTableTooShort => (16, 6, 0),
            Fault::StepTableTooShort => (17, 6, 0),
            Fault::NoJourney => (18, 6, 0),
        };
        Report::new(number, layer, place)
    }
}

// As `no` with number, layer and place.
impl fmt::Display for Report {
    ghost output = { λ r. Some (report_text r) };

    fn fmt<W: fmt::Write>(&self, f: &mut fmt::Formatter<W>) -> fmt::Result {
        write!(f, "no {} {} {}", self.number, self.layer, self.place)
    }
}

// As its report.
impl fmt::Display for Fault {
    ghost output = { λ f. Some (report_text (report_of f)) };

    fn fmt<W: fmt::Write>(&self, f: &mut fmt::Formatter<W>) -> fmt::Result {
        write!(f, "{}", Report::from(*self))
    }
}

impl Error for Fault {}

/// A report prints as its text, and a fault as that of its report.
pub fn displays_are_words()
    ensures report { (r : Report) → ⟦<Report as fmt::Display>⟧.output r ≡ Some (report_text r) }
    ensures fault { (f : Fault) →
        ⟦<Fault as fmt::Display>⟧.output f ≡ Some (report_text (report_of f)) }
{}

/// A fault converts to its report, and to no other.
pub fn reports_are_of_faults()
    ensures { (f : Fault) (r : Report) →
        ⟦<Report as From<Fault>>⟧.from_gives f r → r ≡ report_of f }
{}

/// Two faults, and two reports, compare equal exactly where they are the same.
pub fn equality_is_identity()
    ensures faults { (a b : Fault) → IsTrue (⟦<Fault as PartialEq>⟧.eq a b) ↔ (a ≡ b) }
    ensures reports { (a b : Report) → IsTrue (⟦<Report as PartialEq>⟧.eq a b) ↔ (a ≡ b) }
{}

/// The clone of a fault, and of a report, is the same, and is never refused.
pub fn clone_is_identity()
    ensures faults { let clones = ⟦<Fault as Clone>⟧ in
        (a b : Fault) → clones.is_infallible a × (clones.is_clone a b → b ≡ a) }
    ensures reports { let clones = ⟦<Report as Clone>⟧ in
        (a b : Report) → clones.is_infallible a × (clones.is_clone a b → b ≡ a) }
{}
