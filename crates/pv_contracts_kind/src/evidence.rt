//! Calls of pv_evidence.
ghost use Rattle.std.specs.Prelude.{◌≡◌, ◌≤◌, true, false, IfOk, OnOk};
ghost use Rattle.pv_kind.specs.declared.told.TheConstants.{LAST_QUERY};
ghost use Rattle.pv_valid.specs.Deciding.{IsOracleFor};
ghost use Rattle.pv_evidence.specs.Correct.{IsEvidence};

use pv_evidence::Evidence;
use pv_kind::{Limits, Oracle, OracleFault};
use pv_valid::Judged;
use std::alloc::Global;

/// [`pv_evidence::decide_case`].
pub fn decide_case<C: Oracle + Judged>(
    alloc: Global,
    case: &mut C,
    limits: &Limits,
) -> Result<Evidence, OracleFault>
    requires depth { limits.now.depth ≤ LAST_QUERY }
    requires lemmas { 1 ≤ limits.now.lemmas }
    requires words { limits.now.words ≤ 250000000 }
    requires one { (x : C) → C.fixed x ≡ C.fixed case.old → C.case x ≡ C.case case.old }
    requires machine { C.Source.machine (C.source (C.fixed case.old)) ≡ (C.case case.old).machine }
    requires alike { IsOracleFor (C.case case.old) (C.encoding (C.fixed case.old)) (C.stage case.old) limits.now }
    ensures evidence { IfOk result (λ e. IsEvidence (C.case case.old) (C.encoding (C.fixed case.old)) (C.stage case.old) limits.now
        e.certificate e.ending) }
    ensures fits { OnOk result ((C.case case.old).passes ≡ false) }
    ensures gates { result ≡ Err OracleFault.Gates → (C.case case.old).passes ≡ true }
    ensures kept { C.case case.new ≡ C.case case.old }
{
    pv_evidence::decide_case(alloc, case, limits)
}
