//! What is reported of evidence.
ghost use Rattle.std.specs.Prelude.{◌≡◌};
ghost use Rattle.pv_evidence.specs.Reported as reports;

use crate::evidence::Evidence;
use pv_cert::{Certificate, Proof, Query};
use pv_claims::{Claim, Ending};
use pv_report::Verdict;

/// The query of the last proof.
fn last_query(proofs: &[Proof]) -> Option<Query>
    ensures { result ≡ reports.last_query proofs.now }
{
    match proofs.last() {
        Some(proof) => Some(proof.query),
        None => None,
    }
}

/// How the trace ends, where the claim's report says it.
fn shown_ending(claim: Claim, ending: Option<Ending>) -> Option<Ending>
    ensures { result ≡ reports.shown_ending claim ending }
{
    match claim {
        Claim::Trapped(_) | Claim::Depth(_) | Claim::Loop(_) => ending,
        Claim::Satisfied(_)
        | Claim::Unreachable(_)
        | Claim::Violated(_)
        | Claim::Reached(_)
        | Claim::Lemmas(_)
        | Claim::Region(_) => None,
    }
}

/// The query at which a limit was spent, where the claim's report says it.
fn shown_query(claim: Claim, proofs: &[Proof]) -> Option<Query>
    ensures { result ≡ reports.shown_query claim proofs.now }
{
    match claim {
        Claim::Lemmas(_) | Claim::Region(_) => last_query(proofs),
        Claim::Satisfied(_)
        | Claim::Unreachable(_)
        | Claim::Violated(_)
        | Claim::Trapped(_)
        | Claim::Reached(_)
        | Claim::Depth(_)
        | Claim::Loop(_) => None,
    }
}

/// What is reported of evidence: the claim, with the trace, its ending and the query as far as the claim's report says them.
pub fn reported(evidence: Evidence) -> Verdict
    ensures { result ≡ reports.reported evidence.certificate evidence.ending }
{
    let Evidence {
        certificate,
        ending,
    } = evidence;
    let Certificate {
        claim,
        trace,
        proofs,
        next,
    } = certificate;
    let query = shown_query(claim, proofs.as_slice());
    drop(proofs);
    drop(next);
    Verdict {
        claim,
        trace,
        ending: shown_ending(claim, ending),
        query,
    }
}
