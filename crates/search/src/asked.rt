//! A query that has passed its checks.
ghost use Rattle.std.specs.Prelude.{◌≡◌};
ghost use Rattle.faults.specs.Rules.{IsKept};
ghost use Rattle.journeys.specs.Queries.{checked_query, query_rules};

use faults::Fault;
use journeys::Query;
use records::LAST_MINUTE;
use std::marker::Model;

/// A query whose stops differ, and whose window does not close before it opens, nor after the last
/// minute.
#[derive(Clone, Copy)]
pub struct CheckedQuery {
    query: Query,
}

// It is the query, of which it is known that it obeys the rules.
impl Model for CheckedQuery {
    ghost use Rattle.faults.specs.Rules.{IsKept};
    ghost use Rattle.journeys.specs.declared.query.Query.{Query};
    ghost use Rattle.journeys.specs.Queries.{query_rules};

    ghost Value = { Query };

    ghost view = { λ c. c.query };

    ghost invariant = { λ c. IsKept (query_rules c.query) };

    ghost inverse = { λ q. record { query = q } };
}

impl CheckedQuery {
    /// The query, if it passes.
    ///
    /// # Errors
    ///
    /// Fault 14 where its stops are equal, and 15 where its window is none.
    pub fn new(query: Query) -> Result<CheckedQuery, Fault>
        ensures { result ≡ checked_query query }
    {
        if query.from == query.to {
            return Err(Fault::EqualQueryStops);
        }
        if query.close < query.open || query.close > LAST_MINUTE {
            return Err(Fault::BadWindow);
        }
        Ok(CheckedQuery { query })
    }

    /// The query that was checked.
    pub fn query(self) -> Query
        ensures query { result ≡ self }
        ensures rules { IsKept (query_rules result) }
    {
        self.query
    }
}
