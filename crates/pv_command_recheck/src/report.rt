//! What a recheck reports of a certificate that is right.
ghost use Rattle.std.specs.Prelude.{◌≡◌, IfOk, IfErr, Err};
ghost use Rattle.std.specs.Result.{IsOkAnd};
ghost use Rattle.pv_command_verdict.specs.Handed.{SubjectData, IsSubject};
ghost use Rattle.pv_command_verdict.specs.Verdicts.{verdict_text};
ghost use Rattle.pv_command_verdict.specs.Correct.{IsByPattern};

use crate::recheck::Rechecked;
use crate::stop::CertificateStop;
use pv_cert::Certificate;
use pv_command_verdict::{Subject, report_of};
use pv_evidence::{Evidence, reported};
use pv_valid::Verdict;
use std::alloc::{AllocError, Global};

/// The certificate with how its trace ends, where it was judged to be right.
pub(crate) fn evidence_by(
    certificate: Certificate,
    answer: Result<Verdict, CertificateStop>,
) -> Result<Evidence, CertificateStop>
    ensures ok { IfOk result (λ e. (e.certificate ≡ certificate) × IsOkAnd answer (λ verdict. e.ending ≡ verdict.ending)) }
    ensures err { IfErr result (λ stop. answer ≡ Err stop) }
{
    match answer {
        Ok(verdict) => Ok(Evidence {
            certificate,
            ending: verdict.ending,
        }),
        Err(stop) => {
            drop(certificate);
            Err(stop)
        }
    }
}

/// What is reported of evidence, of which an ending that is told is the pattern's, on what is worked on.
pub(crate) fn reported_of(
    alloc: Global,
    subject: &Subject,
    evidence: Evidence,
) -> Result<Rechecked, AllocError>
    requires { IsByPattern evidence.ending evidence.certificate.claim }
    ensures claim { IfOk result (λ r. r.claim ≡ evidence.certificate.claim) }
    ensures report { (s : SubjectData) → IsSubject subject.now s
        → IfOk result (λ r. r.report.items ≡ verdict_text s evidence.certificate evidence.ending) }
{
    let verdict = reported(evidence);
    let claim = verdict.claim;
    let report = report_of(alloc, subject, &verdict);
    drop(verdict);
    Ok(Rechecked {
        claim,
        report: report?,
    })
}
