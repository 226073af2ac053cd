//! What a measure is.
ghost use Rattle.std.specs.Prelude.{◌≡◌};
ghost use Rattle.measures.specs.Measures.{Laws, Ops};

/// A way to score journeys, by labels that an unfinished journey carries along. No function remembers anything: the
/// same arguments give the same result. Times and durations are in minutes.
pub trait Measure {
    /// What an unfinished journey carries along.
    type Label: Copy;

    ghost ops: { Ops Self.Label };

    /// The label of a journey that begins in a minute.
    fn begin(minute: u32) -> Self::Label
        ensures { result ≡ ops.begin minute };

    /// The label after one more ride.
    fn ride(label: Self::Label, duration: u16) -> Self::Label
        ensures { result ≡ ops.ride label duration };

    /// Whether the first label is no worse than the second.
    fn no_worse(first: Self::Label, second: Self::Label) -> bool
        ensures { result ≡ ops.no_worse first second };

    /// The score of a journey with this label that ends in a minute; lower is better.
    fn settle(label: Self::Label, end: u32) -> (i64, i64)
        ensures { result ≡ ops.settle label end };

    ghost laws: { Laws ops };
}
