//! Verdicts, and the status that goes with each.
ghost use Rattle.std.specs.Prelude.{◌≡◌};
ghost use Rattle.pv_report.specs.Reports.{status_of};

use pv_cert::Query;
use pv_claims::{Claim, Ending, Trace};

/// What is reported of a case: a claim, and what its lines print besides.
#[derive(Drop)]
pub struct Verdict {
    pub claim: Claim,
    /// Of a claim of a scan the run from the start up to it, and of a depth the stretch from an image; else none.
    pub trace: Option<Trace>,
    /// How the last of the trace's scans ends, for a trap, a loop and a depth; else none.
    pub ending: Option<Ending>,
    /// The query at which lemmas or the region were spent; else none.
    pub query: Option<Query>,
}

/// The status: 0 where the requirement holds or its goal is reached, 1 where it doesn't or no run reaches it, and 2 where it is undecided.
pub fn status(claim: Claim) -> u8
    ensures { result ≡ status_of claim }
{
    match claim {
        Claim::Satisfied(_) | Claim::Reached(_) => 0,
        Claim::Violated(_) | Claim::Trapped(_) | Claim::Unreachable(_) => 1,
        Claim::Depth(_) | Claim::Loop(_) | Claim::Lemmas(_) | Claim::Region(_) => 2,
    }
}
