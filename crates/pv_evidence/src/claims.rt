//! What an end of k-induction claims.
ghost use Rattle.std.specs.Prelude.{◌≡◌};
ghost use Rattle.pv_valid.specs.Deciding as deciding;

use pv_claims::{Claim, Ending};

/// What is claimed where no run fails: whether a goal is asked for, and the number of the induction.
pub(crate) fn proved_claim(goal: bool, k: u32) -> Claim
    ensures { result ≡ deciding.proved_claim goal k }
{
    if goal {
        Claim::Unreachable(k)
    } else {
        Claim::Satisfied(k)
    }
}

/// What is claimed where a run fails at this scan and ends so.
pub(crate) fn failed_claim(goal: bool, ending: Option<Ending>, n: u32) -> Claim
    ensures { result ≡ deciding.failed_claim goal ending n }
{
    match ending {
        Some(Ending::Over(_)) => Claim::Loop(n),
        _ if goal => Claim::Reached(n),
        Some(Ending::Trap(..)) => Claim::Trapped(n),
        Some(Ending::Pattern) | None => Claim::Violated(n),
    }
}
