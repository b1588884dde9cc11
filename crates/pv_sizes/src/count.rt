//! Numbers of edges, which never overflow: exact up to the greatest number that a block may have, and one more for any greater number.
ghost use Rattle.std.specs.Prelude.{◌≡◌, ◌+◌};
ghost use Rattle.pv_sizes.specs.Checks as checks;
ghost use Rattle.pv_sizes.specs.Counts.{capped};

/// The greatest number of edges that a block may have, and an automaton that is made of it.
pub const MAX_EDGES: u64 = 200_000;

/// What stands for any number of edges above [`MAX_EDGES`].
pub const BEYOND: u64 = 200_001;

const _: () = prove!(BEYOND == MAX_EDGES + 1);

/// The sum of two numbers of edges.
pub(crate) fn sum(a: u64, b: u64) -> u64
    ensures { result ≡ capped (a + b) }
{
    a.saturating_add(b).min(BEYOND)
}

/// 1 where a test holds, else 0.
pub(crate) fn one_if(test: bool) -> u64
    ensures { result ≡ checks.one_if test }
{
    if test { 1 } else { 0 }
}
