//! Counts of calls and of faults.
ghost use Rattle.std.specs.Prelude.{◌≡◌};
ghost use Rattle.pv_edge.specs.Calls.{next_count};

/// The next value of a count, which stays at its last value.
pub(crate) fn next(count: u64) -> u64
    ensures { result ≡ next_count count }
{
    count.saturating_add(1)
}
