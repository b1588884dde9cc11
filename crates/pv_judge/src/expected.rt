//! Which queries the proofs of a claim refute.
ghost use Rattle.std.specs.Prelude.{◌≡◌, ◌==◌, nat_le, ◌&&◌, slice_get};
ghost use Rattle.pv_cert.specs.declared.proof.Query.TheVariants.{Base};
ghost use Rattle.pv_valid.specs.Claims.{expected, is_query};
ghost use Rattle.pv_valid.specs.Walk.{is_named};
ghost use Rattle.pv_judge.specs.Steps.{queries_of};

use pv_cert::Query;
use pv_claims::Claim;

/// Base queries up to a number, and, for a claim of all runs, after them the step query of that number.
#[derive(Clone, Copy)]
pub(crate) struct Expected {
    pub bases: u32,
    pub step: bool,
}

impl Expected {
    /// Those of a claim; none where a limit was spent.
    pub fn of(claim: Claim) -> Expected
        ensures { queries_of result ≡ expected claim }
    {
        match claim {
            Claim::Satisfied(k) | Claim::Unreachable(k) => Expected {
                bases: k,
                step: true,
            },
            Claim::Violated(n) | Claim::Trapped(n) | Claim::Reached(n) | Claim::Loop(n) =>
                Expected {
                    bases: n.saturating_sub(1),
                    step: false,
                },
            Claim::Depth(k) => Expected {
                bases: k,
                step: false,
            },
            Claim::Lemmas(_) | Claim::Region(_) => Expected {
                bases: 0,
                step: false,
            },
        }
    }

    /// The query that so many others come before.
    pub fn query(self, before: usize) -> Option<Query>
        ensures { result ≡ slice_get (queries_of self) before }
    {
        if before < self.bases as usize {
            Some(Query::Base(before as u32 + 1))
        } else if before == self.bases as usize && self.step {
            Some(Query::Step(self.bases))
        } else {
            None
        }
    }
}

/// Whether a query is the other one.
pub(crate) fn is_query(query: Query, other: Query) -> bool
    ensures { result ≡ is_query query other }
{
    match (query, other) {
        (Query::Base(n), Query::Base(m)) => n == m,
        (Query::Step(j), Query::Step(k)) => j == k,
        _ => false,
    }
}

/// Whether the last of n proofs may name the query, where base queries alone come before it.
pub(crate) fn is_named(depth: u32, n: u32, query: Query) -> bool
    ensures { result ≡ is_named depth n query }
{
    match query {
        Query::Base(m) => m == n && n <= depth,
        Query::Step(k) => k as u64 + 1 == n as u64 && k <= depth,
    }
}

/// Whether one of n proofs that isn't the last refutes the base query that belongs there.
pub(crate) fn is_earlier(depth: u32, n: u32, query: Query) -> bool
    ensures { result ≡ (is_query (Base n) query && nat_le n depth) }
{
    is_query(Query::Base(n), query) && n <= depth
}
