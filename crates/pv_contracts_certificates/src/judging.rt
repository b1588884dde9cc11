//! Calls of pv_judge.
ghost use Rattle.std.specs.Prelude.{◌≡◌, Result, Err};
ghost use Rattle.pv_claims.specs.TracePart.{trace_form, HasForm};
ghost use Rattle.pv_valid.specs.Faults.{Answers};
ghost use Rattle.pv_judge.specs.Answers.{Judges, IsUnlessNoMemory};

use pv_cert::Certificate;
use pv_valid::{Fault, Judged, Verdict};
use std::alloc::Global;

/// [`pv_judge::judge`].
pub fn judge<J: Judged>(
    alloc: Global,
    case: &mut J,
    certificate: &Certificate,
) -> Result<Verdict, Fault>
    requires form { HasForm (trace_form certificate.now.claim) certificate.now.trace }
    ensures judges { Judges (J.case case.old) certificate.now result }
    ensures kept { J.case case.new ≡ J.case case.old }
{
    pv_judge::judge(alloc, case, certificate)
}

/// [`pv_judge::judge_bytes`].
pub fn judge_bytes<J: Judged>(alloc: Global, case: &mut J, bytes: &[u8]) -> Result<Verdict, Fault>
    ensures answer { Answers (J.case case.old) bytes.now result }
    ensures only { (other : Result Verdict Fault)
        → (other ≡ Err Fault.NoMemory → ⊥)
        → Answers (J.case case.old) bytes.now other
        → IsUnlessNoMemory result other }
    ensures kept { J.case case.new ≡ J.case case.old }
{
    pv_judge::judge_bytes(alloc, case, bytes)
}
