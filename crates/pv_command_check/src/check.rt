//! The command `check CASE`.
ghost use Rattle.std.specs.Prelude.{◌≡◌, ◌≢◌, ℕ, List, Option, Ok, Err, IfOk, IfErr, string_bytes, option_map};
ghost use Rattle.pv_edge.specs.Files.{FileMap};
ghost use Rattle.pv_report.specs.Reports.{status_of};
ghost use Rattle.pv_command_verdict.specs.Handed.{Counts, IsUnread, SubjectData, ReadsFirst, IsFirstSubject};
ghost use Rattle.pv_command_verdict.specs.Made.{IsWorkedOn};
ghost use Rattle.pv_command_check.specs.Checks.{StopsCheck, SaysCheck, check_status, check_stop_status, check_unread};
ghost use Rattle.pv_command_check.specs.Files.{LeavesFiles, CountsWrites};
ghost use Rattle.pv_command_check.specs.Made.{IsCheckedOf, LeavesBy, status_by};

use crate::decided::decided;
use crate::stop::CheckStop;
use crate::texts::texts_of;
use crate::written::written;
use pv_claims::Claim;
use pv_command_verdict::laws::scans_are_done;
use pv_command_verdict::{FirstSubject, Status, first_subject_in};
use pv_edge::{Files, Text};
use pv_report::status;
use std::alloc::Global;

/// A verdict with its texts.
#[derive(Drop)]
pub struct Checked {
    pub claim: Claim,
    /// The report, whole.
    pub report: Vec<u8>,
    /// The text of the certificate, whole.
    pub certificate: Text,
}

impl Checked {
    /// 0 where the requirement holds or its goal is reached, 1 where it doesn't or can't be, 2 where it is undecided.
    pub fn status(&self) -> Status
        ensures { result ≡ status_of self.now.claim }
    {
        status(self.claim)
    }
}

/// What is decided of what a check works on, with its texts.
fn checked_of(alloc: Global, first: &FirstSubject) -> Result<Checked, CheckStop>
    requires worked_on { IsWorkedOn first.now }
    ensures found { (told : Option FileMap) (file : List ℕ) (s : SubjectData) → ReadsFirst told file s → IsFirstSubject first.now s
        → IfOk result (IsCheckedOf told file s) }
    ensures stopped { (told : Option FileMap) (file : List ℕ) (s : SubjectData) → ReadsFirst told file s → IsFirstSubject first.now s
        → IfErr result (StopsCheck told file) }
    ensures of_status { IfErr result (λ stop. (check_stop_status stop ≢ 6) × (check_stop_status stop ≢ 7)) }
{
    scans_are_done();
    let evidence = decided(alloc, first)?;
    let checked = texts_of(alloc, &first.subject, evidence)?;
    Ok(checked)
}

/// The verdict once its certificate is written to the file that the case names, if it names one.
fn kept_in<F: Files>(
    alloc: Global,
    files: &mut F,
    name: &Option<String>,
    checked: Checked,
) -> Result<Checked, CheckStop>
    ensures same { IfOk result (λ r. r ≡ checked) }
    ensures files { LeavesBy (option_map string_bytes name.now) checked.certificate result (F.told files.old) (F.told files.new) }
    ensures reads { F.read_faults files.new ≡ F.read_faults files.old }
    ensures writes { CountsWrites (status_by result) (F.write_faults files.old) (F.write_faults files.new) }
{
    let done = written(alloc, files, name, checked.certificate.bytes());
    once_done(checked, done)
}

/// The verdict where the last stage didn't stop.
fn once_done(checked: Checked, done: Result<(), CheckStop>) -> Result<Checked, CheckStop>
    ensures ok { IfOk result (λ r. (r ≡ checked) × (done ≡ Ok tt)) }
    ensures err { IfErr result (λ stop. done ≡ Err stop) }
{
    match done {
        Ok(()) => Ok(checked),
        Err(stop) => {
            drop(checked);
            Err(stop)
        }
    }
}

/// The verdict on a subject, with its certificate written.
fn finished<F: Files>(
    alloc: Global,
    files: &mut F,
    first: &FirstSubject,
) -> Result<Checked, CheckStop>
    requires worked_on { IsWorkedOn first.now }
    ensures says { (file : List ℕ) (s : SubjectData) → ReadsFirst (F.told files.old) file s → IsFirstSubject first.now s
        → SaysCheck (F.told files.old) file result }
    ensures files { (file : List ℕ) (s : SubjectData) → ReadsFirst (F.told files.old) file s → IsFirstSubject first.now s
        → LeavesFiles file result (F.told files.old) (F.told files.new) }
    ensures unread { check_status result ≢ 6 }
    ensures reads { F.read_faults files.new ≡ F.read_faults files.old }
    ensures writes { CountsWrites (check_status result) (F.write_faults files.old) (F.write_faults files.new) }
{
    let checked = checked_of(alloc, first)?;
    kept_in(alloc, files, &first.subject.case.certificate, checked)
}

/// Decides the case that the file holds. What it is about is read and refused first, then the count of edges comes, then that of gates with
/// the queries; the report and the certificate are made whole; and the certificate is written, if the case names a file for it. What is to be
/// printed and kept is the caller's to print and to keep.
///
/// The verdict, of several that are right, the trace and the log are the solver's choice.
pub fn check_in<F: Files>(
    alloc: Global,
    files: &mut F,
    case_file: &str,
) -> Result<Checked, CheckStop>
    ensures says { SaysCheck (F.told files.old) case_file.now result }
    ensures files { LeavesFiles case_file.now result (F.told files.old) (F.told files.new) }
    ensures counted { Counts (check_status result) (F.read_faults files.old) (F.read_faults files.new) }
    ensures named { IsUnread (check_unread result) (F.unread files.new) }
    ensures writes { CountsWrites (check_status result) (F.write_faults files.old) (F.write_faults files.new) }
{
    let first = first_subject_in(alloc, files, case_file)?;
    let checked = finished(alloc, files, &first);
    drop(first);
    checked
}
