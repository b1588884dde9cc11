//! Calls of pv_lift.
ghost use Rattle.std.specs.Prelude.{◌≡◌, ℕ, ◌+◌, ◌≤◌, true, false, List, [], IsTrue, IfOk, OnOk};
ghost use Rattle.pv_cnf.specs.Clause.{Holds};
ghost use Rattle.pv_circuit.specs.Steps.{widths};
ghost use Rattle.pv_cert.specs.CertificateText.{no_reduction};
ghost use Rattle.pv_frames.specs.Pushing.{Pushes};
ghost use Rattle.pv_frames.specs.Queries.{variable_count, query_clauses};
ghost use Rattle.pv_kind.specs.declared.told.TheConstants.{LAST_QUERY};
ghost use Rattle.pv_kind.specs.Oracles.{IsAsked, IsTold};
ghost use Rattle.pv_queries.specs.declared.built.TheConstants.{MAX_BUILT_BITS};
ghost use Rattle.pv_replay.specs.Replays.{cells_of};
ghost use Rattle.pv_stretch.specs.Judged.{is_goal};
ghost use Rattle.pv_valid.specs.Shown.{IsStretch};
ghost use Rattle.pv_valid.specs.Starts.{IsStart, state_from};
ghost use Rattle.pv_valid.specs.Validity.{AreInputs};
ghost use Rattle.pv_lift.specs.Lifts.{looks_back_of, IsLifted};
ghost use Rattle.pv_lift.specs.Stages.{passes_limit, stage_of, encoding_of};
ghost use Rattle.pv_lift.specs.Facts.{facts_of};
ghost use Rattle.pv_lift.specs.Cases.{formula_of, case_of};

use pv_cert::Query;
use pv_circuit::StepSource;
use pv_claims::CellValues;
use pv_cnf::{Clauses, Formula, PushFault, Values};
use pv_gate::GateFault;
use pv_kind::{Limits, Oracle, OracleFault, Told};
use pv_lift::{Lift, Reduce};
use pv_pattern::Pattern;
use pv_replay::Replay;
use pv_stretch::{Stretch, StretchStart};
use pv_valid::Judged;
use std::alloc::{AllocError, Global};

/// [`pv_lift::make`].
pub fn make<'a, C: StepSource>(
    alloc: Global,
    circuits: &'a C,
    replay: Replay<'a>,
    pattern: &'a Pattern,
    reduce: &Reduce,
    limits: &Limits,
) -> Result<Lift<'a, C>, AllocError>
    requires lifted { IsLifted (C.machine circuits.now) replay pattern.now }
    requires few { widths (C.form circuits.now).state + widths (C.form circuits.now).input ≤ MAX_BUILT_BITS }
    requires depth { limits.now.depth ≤ LAST_QUERY }
    ensures circuits { IfOk result (λ lift. lift.machine.circuits.now ≡ circuits.now) }
    ensures replay { IfOk result (λ lift. lift.replay ≡ replay.entry) }
    ensures pattern { IfOk result (λ lift. lift.pattern.now ≡ pattern.now) }
    ensures facts { IfOk result (λ lift. lift.facts
        ≡ facts_of (cells_of replay.entry) (is_goal pattern.now) (looks_back_of pattern.now) limits.now) }
{
    pv_lift::make(alloc, circuits, replay, pattern, reduce, limits)
}

/// The number of variables of a query's clauses, by [`pv_lift::Lift`].
pub fn variables<'a, C: StepSource>(lift: &mut Lift<'a, C>, q: Query) -> Result<u32, OracleFault>
    requires { IsAsked q }
    ensures number { IfOk result (λ n. n
        ≡ variable_count (C.step lift.old.machine.circuits.now) (C.start lift.old.machine.circuits.now) q) }
    ensures fits { OnOk result (passes_limit (C.step lift.old.machine.circuits.now) ≡ false) }
    ensures gates { result ≡ Err OracleFault.Gates → passes_limit (C.step lift.old.machine.circuits.now) ≡ true }
{
    lift.variables(q)
}

/// The clauses of a query once its variables are counted, by [`pv_lift::Lift`].
pub fn push<'a, C: StepSource, D: Clauses>(
    lift: &mut Lift<'a, C>,
    q: Query,
    into: &mut D,
) -> Result<Result<(), PushFault>, OracleFault>
    requires asked { IsAsked q }
    requires none { D.clauses into.old ≡ [] }
    requires takes { IsTrue (D.takes_clauses into.old) }
    requires variables { variable_count (C.step lift.old.machine.circuits.now) (C.start lift.old.machine.circuits.now) q
        ≤ D.variables into.old }
    ensures pushes { IfOk result (λ done. Pushes (D.overflow into.old) (D.clauses into.old)
        (query_clauses (C.step lift.old.machine.circuits.now) (C.start lift.old.machine.circuits.now) q) (D.clauses into.new) done) }
    ensures variables_kept { D.variables into.new ≡ D.variables into.old }
{
    let _ = lift.variables(q)?;
    let done = lift.push(q, into);
    Ok(done)
}

/// What values tell of a query once its variables are counted, by [`pv_lift::Lift`].
pub fn told<'a, C: StepSource, V: Values>(
    lift: &mut Lift<'a, C>,
    q: Query,
    values: &V,
) -> Result<Told, OracleFault>
    requires asked { IsAsked q }
    requires assigned { variable_count (C.step lift.old.machine.circuits.now) (C.start lift.old.machine.circuits.now) q
        ≤ V.assigned values.now }
    requires hold { Holds (V.truth values.now)
        (query_clauses (C.step lift.old.machine.circuits.now) (C.start lift.old.machine.circuits.now) q) }
    ensures told { IfOk result (IsTold (encoding_of (C.machine lift.old.machine.circuits.now)
        (C.step lift.old.machine.circuits.now) (C.start lift.old.machine.circuits.now) (cells_of lift.old.replay)
        (looks_back_of lift.old.pattern.now)) (stage_of no_reduction) q) }
{
    let _ = lift.variables(q)?;
    let told = lift.told(q, values)?;
    Ok(told)
}

/// The formula of a query, by [`pv_lift::Lift`].
pub fn formula<'a, C: StepSource>(lift: &mut Lift<'a, C>, q: Query) -> Result<Formula, GateFault>
    requires { IsAsked q }
    ensures formula { IfOk result (λ formula. formula
        ≡ formula_of (C.step lift.old.machine.circuits.now) (C.start lift.old.machine.circuits.now) q) }
    ensures fits { OnOk result (passes_limit (C.step lift.old.machine.circuits.now) ≡ false) }
    ensures passes { result ≡ Err GateFault.Limit → passes_limit (C.step lift.old.machine.circuits.now) ≡ true }
{
    lift.formula(q)
}

/// A stretch of scans, by [`pv_lift::Lift`].
pub fn stretch<'a, C: StepSource>(
    lift: &mut Lift<'a, C>,
    start: StretchStart,
    inputs: &[CellValues],
) -> Stretch
    ensures { IsStart (case_of (C.machine lift.old.machine.circuits.now) (C.step lift.old.machine.circuits.now)
        (C.start lift.old.machine.circuits.now) lift.old.facts) start.entry
        → AreInputs (case_of (C.machine lift.old.machine.circuits.now) (C.step lift.old.machine.circuits.now)
        (C.start lift.old.machine.circuits.now) lift.old.facts) inputs.now
        → IsStretch (C.machine lift.old.machine.circuits.now)
        (state_from (case_of (C.machine lift.old.machine.circuits.now) (C.step lift.old.machine.circuits.now)
        (C.start lift.old.machine.circuits.now) lift.old.facts) start.entry) inputs.now result.good result.ending }
{
    lift.stretch(start, inputs)
}
