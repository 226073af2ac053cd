//! The criteria by which journeys are compared.

/// A name for each measure; the lowest score under it is the best. Each case has the first part of its score and then the
/// second, which counts where the first parts are equal.
#[derive(Clone, Copy, PartialEq, Eq, Debug)]
pub enum Criterion {
    /// The end, then the later begin.
    EarliestArrival,
    /// The later begin, then the end.
    LatestDeparture,
    /// The minutes from begin to end, then the riding.
    Fastest,
    /// The riding, then the end.
    LeastRiding,
    /// The number of rides, then the end.
    FewestRides,
    /// The waiting, then the end.
    LeastWaiting,
}
