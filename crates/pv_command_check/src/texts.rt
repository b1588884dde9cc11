//! The stage of a check that makes its texts: the certificate's and the report's, each whole, before anything is written.
ghost use Rattle.std.specs.Prelude.{◌≡◌, IfOk};
ghost use Rattle.std.specs.Result.{IsOkAnd};
ghost use Rattle.pv_cert.specs.CertificateText.{IsTextOf, IsWritable};
ghost use Rattle.pv_command_verdict.specs.Handed.{SubjectData, IsSubject};
ghost use Rattle.pv_command_verdict.specs.Verdicts.{verdict_text};
ghost use Rattle.pv_command_verdict.specs.Correct.{IsByPattern};

use crate::check::Checked;
use pv_cert::write;
use pv_claims::Claim;
use pv_command_verdict::{Subject, report_of};
use pv_edge::Text;
use pv_evidence::{Evidence, reported};
use std::alloc::{AllocError, Global};

/// A verdict's claim with its two texts, where both were made.
fn joined(
    claim: Claim,
    certificate: Result<Vec<u8>, AllocError>,
    report: Result<Vec<u8>, AllocError>,
) -> Result<Checked, AllocError>
    ensures claim { IfOk result (λ r. r.claim ≡ claim) }
    ensures certificate { IfOk result (λ r. IsOkAnd certificate (λ text. r.certificate ≡ text.items)) }
    ensures report { IfOk result (λ r. IsOkAnd report (λ text. r.report ≡ text)) }
{
    let certificate = certificate?;
    let report = report?;
    Ok(Checked {
        claim,
        report,
        certificate: Text::from(certificate),
    })
}

/// The texts of evidence, of which an ending that is told is the pattern's: that of its certificate and, on what is worked on, its report.
pub(crate) fn texts_of(
    alloc: Global,
    subject: &Subject,
    evidence: Evidence,
) -> Result<Checked, AllocError>
    requires writable { IsWritable evidence.certificate }
    requires ending { IsByPattern evidence.ending evidence.certificate.claim }
    ensures claim { IfOk result (λ r. r.claim ≡ evidence.certificate.claim) }
    ensures certificate { IfOk result (λ r. IsTextOf r.certificate evidence.certificate) }
    ensures report { (s : SubjectData) → IsSubject subject.now s
        → IfOk result (λ r. r.report.items ≡ verdict_text s evidence.certificate evidence.ending) }
{
    let certificate = write(alloc, &evidence.certificate);
    let verdict = reported(evidence);
    let claim = verdict.claim;
    let report = report_of(alloc, subject, &verdict);
    drop(verdict);
    joined(claim, certificate, report)
}
