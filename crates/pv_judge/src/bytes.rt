//! The bytes of a certificate.
ghost use Rattle.std.specs.Prelude.{◌≡◌, Result, Err};
ghost use Rattle.pv_valid.specs.Faults.{Answers};
ghost use Rattle.pv_judge.specs.Answers.{IsUnlessNoMemory};

use crate::certificate::judge;
use crate::logs::fault_at;
use pv_cert::read;
use pv_claims::CertFault;
use pv_valid::laws::certificates_have_one_answer;
use pv_valid::{Fault, Judged, Kind, Verdict};
use std::alloc::Global;

/// Reads a certificate's bytes and judges what is read by a case. What is read is held until it is judged, and beside it what `judge`
/// takes.
///
/// The grammar of the whole comes before all contents; among these the first line at fault is named. A circuit of more gates than the
/// limit is answered where its proof's chain is told, so after faults in the lines before its log and before those of the log. Who asks
/// something between grammar and contents, or prints the trace, calls `read` of `pv_cert` and then [`judge`](crate::judge).
pub fn judge_bytes<J: Judged>(alloc: Global, case: &mut J, bytes: &[u8]) -> Result<Verdict, Fault>
    // What is accepted is valid with this verdict, and each refusal is as its case says.
    ensures answer { Answers (J.case case.old) bytes.now result }
    // The one that holds is the answer.
    ensures only { (other : Result Verdict Fault)
        → (other ≡ Err Fault.NoMemory → ⊥)
        → Answers (J.case case.old) bytes.now other
        → IsUnlessNoMemory result other }
    ensures kept { J.case case.new ≡ J.case case.old }
{
    certificates_have_one_answer();
    judge_read(alloc, case, bytes)
}

/// The same, of which the answer alone is said.
fn judge_read<J: Judged>(alloc: Global, case: &mut J, bytes: &[u8]) -> Result<Verdict, Fault>
    ensures answer { Answers (J.case case.old) bytes.now result }
    ensures kept { J.case case.new ≡ J.case case.old }
{
    certificates_have_one_answer();
    match read(alloc, bytes) {
        Ok(certificate) => judge(alloc, case, &certificate),
        Err(CertFault::NotACertificate { line }) => Err(fault_at(line, Kind::NotACertificate)),
        Err(CertFault::NoMemory) => Err(Fault::NoMemory),
    }
}
