//! A case decided, with its evidence.
ghost use Rattle.std.specs.Prelude.{◌≡◌, ◌≤◌, true, false, IfOk, OnOk};
ghost use Rattle.pv_kind.specs.declared.told.TheConstants.{LAST_QUERY};
ghost use Rattle.pv_valid.specs.Deciding.{IsOracleFor};
ghost use Rattle.pv_evidence.specs.Correct.{IsEvidence};

use crate::evidence::{Evidence, evidence_of};
use pv_cert::Query;
use pv_kind::{Limits, Oracle, OracleFault, decide};
use pv_valid::Judged;
use std::alloc::Global;

/// Decides a case by k-induction within limits, which are the case's own, and answers with the evidence: a certificate, and how its trace
/// ends. `Gates` comes exactly where the case's circuit passes the limit on gates, running out of memory aside.
///
/// The case is asked as an oracle that makes nothing smaller, and by its trace once more as what certificates are judged by; both speak of
/// one machine and one formula a query.
pub fn decide_case<C: Oracle + Judged>(
    alloc: Global,
    case: &mut C,
    limits: &Limits,
) -> Result<Evidence, OracleFault>
    requires depth { limits.now.depth ≤ LAST_QUERY }
    requires lemmas { 1 ≤ limits.now.lemmas }
    requires words { limits.now.words ≤ 250000000 }
    requires one { (x : C) → C.fixed x ≡ C.fixed case.old → C.case x ≡ C.case case.old }
    requires machine { C.Source.machine (C.source (C.fixed case.old)) ≡ (C.case case.old).machine }
    requires alike { IsOracleFor (C.case case.old) (C.encoding (C.fixed case.old)) (C.stage case.old) limits.now }
    ensures evidence { IfOk result (λ e. IsEvidence (C.case case.old) (C.encoding (C.fixed case.old)) (C.stage case.old) limits.now
        e.certificate e.ending) }
    ensures fits { OnOk result ((C.case case.old).passes ≡ false) }
    ensures gates { result ≡ Err OracleFault.Gates → (C.case case.old).passes ≡ true }
    ensures kept { C.case case.new ≡ C.case case.old }
{
    case.variables(Query::Step(0))?;
    let decision = decide(alloc, case, limits)?;
    Ok(evidence_of(case, decision))
}
