//! The stage of a recheck that judges its certificate.
ghost use Rattle.std.specs.Prelude.{◌≡◌, ◌≢◌, ℕ, List, Option, IfOk, IfErr};
ghost use Rattle.pv_edge.specs.Files.{FileMap};
ghost use Rattle.pv_claims.specs.TracePart.{trace_form, HasForm};
ghost use Rattle.pv_cert.specs.CertificateText.{IsTextOf};
ghost use Rattle.pv_command_verdict.specs.Handed.{HoldsBytes, stopped_status, SubjectData, ReadsFirst, IsFirstSubject};
ghost use Rattle.pv_command_verdict.specs.Made.{IsWorkedOn};
ghost use Rattle.pv_command_recheck.specs.Certificates.{certificate_status, certificate_stopped, StopsCertificate};
ghost use Rattle.pv_command_recheck.specs.Made.{IsJudged};

use crate::stop::CertificateStop;
use pv_cert::Certificate;
use pv_command_verdict::{FirstSubject, has_too_many_edges, judge_certificate};
use pv_valid::Verdict;
use pv_valid::laws::certificates_have_one_answer;
use std::alloc::Global;

/// Judges the certificate by what a recheck works on: the count of edges comes first.
pub(crate) fn judged(
    alloc: Global,
    first: &FirstSubject,
    certificate: &Certificate,
) -> Result<Verdict, CertificateStop>
    requires worked_on { IsWorkedOn first.now }
    requires form { HasForm (trace_form certificate.now.claim) certificate.now.trace }
    ensures found { (told : Option FileMap) (case_file : List ℕ) (s : SubjectData) → ReadsFirst told case_file s
        → IsFirstSubject first.now s → IfOk result (IsJudged s certificate.now) }
    ensures stopped { (told : Option FileMap) (case_file file : List ℕ) (s : SubjectData) → ReadsFirst told case_file s
        → IsFirstSubject first.now s → HoldsBytes told file (λ bytes. IsTextOf bytes certificate.now)
        → IfErr result (StopsCertificate told file s) }
    ensures unread { IfErr result (λ stop. stopped_status certificate_status (certificate_stopped stop) ≢ 6) }
{
    certificates_have_one_answer();
    if has_too_many_edges(&first.program) {
        return Err(CertificateStop::TooManyEdges);
    }
    let verdict = judge_certificate(alloc, first, certificate)?;
    Ok(verdict)
}
