//! The certificate of a decision, with how its trace ends.
ghost use Rattle.std.specs.Prelude.{◌≡◌, Some, None};
ghost use Rattle.pv_valid.specs.Deciding.{certificate_of};
ghost use Rattle.pv_valid.specs.Validity.{ending_in};
ghost use Rattle.pv_evidence.specs.Endings.{EndReplays};

use crate::claims::{failed_claim, proved_claim};
use crate::endings::ending_of;
use pv_cert::{Certificate, Proofs};
use pv_claims::{Claim, Ending, Trace};
use pv_kind::{Decision, End};
use pv_log::Line;
use pv_valid::Judged;

/// A certificate, and how the last scan of its trace ends.
#[derive(Drop)]
pub struct Evidence {
    /// The certificate.
    pub certificate: Certificate,
    /// None where the certificate has no trace.
    pub ending: Option<Ending>,
}

/// Evidence without a trace.
fn untraced(claim: Claim, proofs: Proofs, next: Option<Line>) -> Evidence
    ensures claim { result.certificate.claim ≡ claim }
    ensures trace { result.certificate.trace ≡ None }
    ensures proofs { result.certificate.proofs ≡ proofs }
    ensures next { result.certificate.next ≡ next }
    ensures ending { result.ending ≡ None }
{
    let certificate = Certificate {
        claim,
        trace: None,
        proofs,
        next,
    };
    Evidence {
        certificate,
        ending: None,
    }
}

/// Evidence with a trace whose last scan ends so.
fn traced(claim: Claim, trace: Trace, proofs: Proofs, ending: Option<Ending>) -> Evidence
    ensures claim { result.certificate.claim ≡ claim }
    ensures trace { result.certificate.trace ≡ Some trace }
    ensures proofs { result.certificate.proofs ≡ proofs }
    ensures next { result.certificate.next ≡ None }
    ensures ending { result.ending ≡ ending }
{
    let certificate = Certificate {
        claim,
        trace: Some(trace),
        proofs,
        next: None,
    };
    Evidence {
        certificate,
        ending,
    }
}

/// The evidence of a decision, whose trace the case replays once more to see how it ends.
pub(crate) fn evidence_of<J: Judged>(case: &mut J, decision: Decision) -> Evidence
    requires replays { EndReplays (J.case case.old) decision.end }
    ensures certificate { result.certificate ≡ certificate_of (J.case case.old) decision.proofs decision.end }
    ensures ending { result.ending ≡ ending_in (J.case case.old) result.certificate.trace }
    ensures kept { J.case case.new ≡ J.case case.old }
{
    let Decision { end, proofs } = decision;
    match end {
        End::Proved(k) => untraced(proved_claim(case.facts().goal, k), proofs, None),
        End::Failed(n, trace) => {
            let ending = ending_of(case, &trace);
            let claim = failed_claim(case.facts().goal, ending, n);
            traced(claim, trace, proofs, ending)
        }
        End::Depth(trace) => {
            let ending = ending_of(case, &trace);
            traced(Claim::Depth(case.facts().depth), trace, proofs, ending)
        }
        End::SpentLemmas => untraced(Claim::Lemmas(case.facts().lemmas), proofs, None),
        End::SpentRegion(need, next) => untraced(Claim::Region(need), proofs, next),
    }
}
