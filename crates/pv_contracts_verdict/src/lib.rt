//! Contract tests of pv_command_verdict: its calls once more, with the clauses of the library.
#![tactic(auto)]

ghost use Rattle.std.specs.Prelude.{◌≡◌, ℕ, List, Option, Err, IfSome, IfOk};
ghost use Rattle.pv_edge.specs.Files.{FileMap};
ghost use Rattle.pv_claims.specs.declared.trace.Ending.{Ending};
ghost use Rattle.pv_claims.specs.TracePart.{trace_form, HasForm};
ghost use Rattle.pv_cert.specs.declared.certificate.Certificate.{Certificate as A_certificate};
ghost use Rattle.pv_judge.specs.Answers.{Judges};
ghost use Rattle.pv_report.specs.Correct.{EndsIn};
ghost use Rattle.pv_evidence.specs.Reported.{reported};
ghost use Rattle.pv_command_verdict.specs.Handed.{SubjectData, IsSubject, ReadsFirst, IsFirstSubject};
ghost use Rattle.pv_command_verdict.specs.Sizes.{HasTooManyGates};
ghost use Rattle.pv_command_verdict.specs.Cases.{case_in};
ghost use Rattle.pv_command_verdict.specs.Verdicts.{source_lines, verdict_text};
ghost use Rattle.pv_command_verdict.specs.Made.{IsWorkedOn, IsEvidenceOf};

use pv_cert::Certificate;
use pv_command_verdict::{FirstSubject, Subject};
use pv_evidence::Evidence;
use pv_kind::OracleFault;
use pv_report::Verdict as Reported;
use pv_valid::{Fault, Verdict};
use std::alloc::{AllocError, Global};

/// [`pv_command_verdict::decide`].
pub fn decide(alloc: Global, first: &FirstSubject) -> Result<Evidence, OracleFault>
    requires worked_on { IsWorkedOn first.now }
    ensures found { (told : Option FileMap) (file : List ℕ) (s : SubjectData) → ReadsFirst told file s → IsFirstSubject first.now s
        → IfOk result (λ e. IsEvidenceOf s e.certificate e.ending) }
    ensures gates { (told : Option FileMap) (file : List ℕ) (s : SubjectData) → ReadsFirst told file s → IsFirstSubject first.now s
        → result ≡ Err OracleFault.Gates → HasTooManyGates s }
{
    pv_command_verdict::decide(alloc, first)
}

/// [`pv_command_verdict::judge_certificate`].
pub fn judge_certificate(
    alloc: Global,
    first: &FirstSubject,
    certificate: &Certificate,
) -> Result<Verdict, Fault>
    requires worked_on { IsWorkedOn first.now }
    requires form { HasForm (trace_form certificate.now.claim) certificate.now.trace }
    ensures { (told : Option FileMap) (file : List ℕ) (s : SubjectData) → ReadsFirst told file s → IsFirstSubject first.now s
        → Judges (case_in s) certificate.now result }
{
    pv_command_verdict::judge_certificate(alloc, first, certificate)
}

/// [`pv_command_verdict::report_of`].
pub fn report_of(
    alloc: Global,
    subject: &Subject,
    verdict: &Reported,
) -> Result<Vec<u8>, AllocError>
    requires { IfSome verdict.now.ending (EndsIn (source_lines subject.now.sources.items)) }
    ensures { (s : SubjectData) (c : A_certificate) (told : Option Ending) → IsSubject subject.now s
        → verdict.now ≡ reported c told → IfOk result (λ text. text.items ≡ verdict_text s c told) }
{
    pv_command_verdict::report_of(alloc, subject, verdict)
}
