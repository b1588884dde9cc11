//! The command `recheck CASE CERTIFICATE`.
ghost use Rattle.std.specs.Prelude.{◌≡◌, ◌≢◌, ℕ, List, Option};
ghost use Rattle.pv_edge.specs.Files.{FileMap};
ghost use Rattle.pv_cert.specs.CertificateText.{IsTextOf};
ghost use Rattle.pv_report.specs.Reports.{status_of};
ghost use Rattle.pv_command_verdict.specs.Handed.{Counts, HoldsBytes, IsUnread, SubjectData, ReadsFirst, IsFirstSubject};
ghost use Rattle.pv_command_verdict.specs.Made.{IsWorkedOn};
ghost use Rattle.pv_command_recheck.specs.Rechecks.{SaysRecheck, recheck_status, recheck_unread};
ghost use Rattle.pv_command_recheck.specs.Made.{IsOfText};

use crate::certificate::certificate_in;
use crate::judged::judged;
use crate::report::{evidence_by, reported_of};
use crate::stop::RecheckStop;
use pv_cert::Certificate;
use pv_claims::Claim;
use pv_command_verdict::laws::{right_certificates_say_what_is_so, scans_are_done};
use pv_command_verdict::{FirstSubject, Status, first_subject_in};
use pv_edge::Files;
use pv_report::status;
use std::alloc::Global;

/// A verdict with its report.
#[derive(Drop)]
pub struct Rechecked {
    pub claim: Claim,
    /// The report, whole: that of a check which comes to this verdict.
    pub report: Vec<u8>,
}

impl Rechecked {
    /// 0 where the requirement holds or its goal is reached, 1 where it doesn't or can't be, 2 where it is undecided.
    pub fn status(&self) -> Status
        ensures { result ≡ status_of self.now.claim }
    {
        status(self.claim)
    }
}

/// What a recheck reports of a certificate, by what it works on.
fn rechecked_of(
    alloc: Global,
    first: &FirstSubject,
    certificate: Certificate,
) -> Result<Rechecked, RecheckStop>
    requires worked_on { IsWorkedOn first.now }
    requires read { IsOfText certificate }
    ensures says { (told : Option FileMap) (case_file file : List ℕ) (s : SubjectData) → ReadsFirst told case_file s
        → IsFirstSubject first.now s → HoldsBytes told file (λ bytes. IsTextOf bytes certificate)
        → SaysRecheck told case_file file result }
    ensures unread { recheck_status result ≢ 6 }
{
    right_certificates_say_what_is_so();
    scans_are_done();
    let answer = judged(alloc, first, &certificate);
    let evidence = evidence_by(certificate, answer)?;
    let rechecked = reported_of(alloc, &first.subject, evidence)?;
    Ok(rechecked)
}

/// What a recheck reports of the certificate that the file holds, by what it works on.
fn rechecked_in<F: Files>(
    alloc: Global,
    files: &mut F,
    first: &FirstSubject,
    file: &str,
) -> Result<Rechecked, RecheckStop>
    requires worked_on { IsWorkedOn first.now }
    ensures files { F.told files.new ≡ F.told files.old }
    ensures says { (case_file : List ℕ) (s : SubjectData) → ReadsFirst (F.told files.old) case_file s → IsFirstSubject first.now s
        → SaysRecheck (F.told files.old) case_file file.now result }
    ensures counted { Counts (recheck_status result) (F.read_faults files.old) (F.read_faults files.new) }
    ensures named { IsUnread (recheck_unread result) (F.unread files.new) }
    ensures writes { F.write_faults files.new ≡ F.write_faults files.old }
{
    let certificate = certificate_in(alloc, files, file)?;
    rechecked_of(alloc, first, certificate)
}

/// Judges the certificate that a file holds by the case that another holds. What the case is about is read and refused first, then the
/// certificate: its grammar, then the count of edges, then its contents. Whoever wrote it, what is reported of it is so.
pub fn recheck_in<F: Files>(
    alloc: Global,
    files: &mut F,
    case_file: &str,
    certificate_file: &str,
) -> Result<Rechecked, RecheckStop>
    ensures files { F.told files.new ≡ F.told files.old }
    ensures says { SaysRecheck (F.told files.old) case_file.now certificate_file.now result }
    ensures counted { Counts (recheck_status result) (F.read_faults files.old) (F.read_faults files.new) }
    ensures named { IsUnread (recheck_unread result) (F.unread files.new) }
    ensures writes { F.write_faults files.new ≡ F.write_faults files.old }
{
    let first = first_subject_in(alloc, files, case_file)?;
    let rechecked = rechecked_in(alloc, files, &first, certificate_file);
    drop(first);
    rechecked
}
