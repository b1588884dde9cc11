//! Calls of pv_recheck.
ghost use Rattle.std.specs.Prelude.{◌≡◌, ◌≤◌, length, OnOk, Result, Err};
ghost use Rattle.pv_bool.specs.Programs.{program_tree};
ghost use Rattle.pv_recheck.specs.Validity.{IsValid};
ghost use Rattle.pv_recheck.specs.Answers.{Answers, IsUnlessNoMemory};

use pv_bool::Program;
use pv_recheck::{MAX_STEP_BITS, MAX_STEP_GATES, RecheckFault};
use std::alloc::Global;

/// [`pv_recheck::check_certificate`].
pub fn check_certificate(alloc: Global, program: &Program, bytes: &[u8]) -> Result<(), RecheckFault>
    requires { length program.now.bits.items ≤ MAX_STEP_BITS }
    ensures valid { OnOk result (IsValid (program_tree program.now) bytes.now) }
    ensures answer { Answers MAX_STEP_GATES (program_tree program.now) bytes.now result }
    ensures only { (other : Result (Unit {0}) RecheckFault)
        → (other ≡ Err RecheckFault.NoMemory → ⊥)
        → Answers MAX_STEP_GATES (program_tree program.now) bytes.now other
        → IsUnlessNoMemory result other }
{
    pv_recheck::check_certificate(alloc, program, bytes)
}
