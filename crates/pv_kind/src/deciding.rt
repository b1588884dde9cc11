//! The queries in their order.
ghost use Rattle.std.specs.Prelude.{◌≡◌, ℕ, ◌+◌, ◌<◌, ◌≤◌, true, List, IfOk};
ghost use Rattle.pv_machine.specs.Queries.{MeetsBase, MeetsStep};
ghost use Rattle.pv_kind.specs.declared.told.TheConstants.{LAST_QUERY};
ghost use Rattle.pv_kind.specs.Refinements.{Stage, IsRefined, IsRefinedInFew};
ghost use Rattle.pv_kind.specs.Decisions.{IsTurn, Decides, IsUnspent, IsProvedBy, IsFailedBy};
ghost use Rattle.pv_kind.specs.Asking.{AfterStep, AfterBase};

use crate::ask::{Reply, ask};
use crate::decision::{Decision, End, Limits};
use crate::oracle::Oracle;
use crate::told::OracleFault;
use pv_cert::{Proofs, Query};
use std::alloc::Global;

/// Asks step(k), where a number after k is still to come. There is no end where it is met.
fn ask_step<O: Oracle>(
    alloc: Global,
    oracle: &mut O,
    k: u32,
    limits: Limits,
    proofs: &mut Proofs,
) -> Result<Option<End>, OracleFault>
    requires within { k < limits.depth }
    requires depth { limits.depth ≤ LAST_QUERY }
    requires lemmas { 1 ≤ limits.lemmas }
    requires words { limits.words ≤ 250000000 }
    ensures after { (first : Stage) → IsTurn (O.Source.machine (O.source (O.fixed oracle.old))) (O.encoding (O.fixed oracle.old)) first
        (O.stage oracle.old) (Query.Step k) proofs.old → IfOk result (AfterStep (O.Source.machine (O.source (O.fixed oracle.old)))
        (O.encoding (O.fixed oracle.old)) first (O.stage oracle.new) limits k proofs.new) }
    ensures refined { IsRefined (O.encoding (O.fixed oracle.old)).tells (O.stage oracle.old) (O.stage oracle.new) }
    ensures gates { result ≡ Err OracleFault.Gates → (O.encoding (O.fixed oracle.old)).passes (O.stage oracle.new).chain ≡ true }
    ensures fixed_kept { O.fixed oracle.new ≡ O.fixed oracle.old }
{
    match ask(alloc, oracle, Query::Step(k), limits, proofs)? {
        Reply::Met(trace) => {
            drop(trace);
            Ok(None)
        }
        Reply::Refuted => Ok(Some(End::Proved(k))),
        Reply::SpentLemmas => Ok(Some(End::SpentLemmas)),
        Reply::SpentRegion(need, next) => Ok(Some(End::SpentRegion(need, next))),
    }
}

/// Asks base(n). There is no end where it is refuted.
fn ask_base<O: Oracle>(
    alloc: Global,
    oracle: &mut O,
    n: u32,
    limits: Limits,
    proofs: &mut Proofs,
) -> Result<Option<End>, OracleFault>
    requires from_one { 1 ≤ n }
    requires within { n ≤ limits.depth }
    requires depth { limits.depth ≤ LAST_QUERY }
    requires lemmas { 1 ≤ limits.lemmas }
    requires words { limits.words ≤ 250000000 }
    ensures after { (first : Stage) → IsTurn (O.Source.machine (O.source (O.fixed oracle.old))) (O.encoding (O.fixed oracle.old)) first
        (O.stage oracle.old) (Query.Base n) proofs.old → IfOk result (AfterBase (O.Source.machine (O.source (O.fixed oracle.old)))
        (O.encoding (O.fixed oracle.old)) first (O.stage oracle.new) limits n proofs.new) }
    ensures refined { IsRefined (O.encoding (O.fixed oracle.old)).tells (O.stage oracle.old) (O.stage oracle.new) }
    ensures gates { result ≡ Err OracleFault.Gates → (O.encoding (O.fixed oracle.old)).passes (O.stage oracle.new).chain ≡ true }
    ensures fixed_kept { O.fixed oracle.new ≡ O.fixed oracle.old }
{
    match ask(alloc, oracle, Query::Base(n), limits, proofs)? {
        Reply::Met(trace) => Ok(Some(End::Failed(n, trace))),
        Reply::Refuted => Ok(None),
        Reply::SpentLemmas => Ok(Some(End::SpentLemmas)),
        Reply::SpentRegion(need, next) => Ok(Some(End::SpentRegion(need, next))),
    }
}

/// Asks step of the depth, after which nothing is asked.
fn ask_last<O: Oracle>(
    alloc: Global,
    oracle: &mut O,
    limits: Limits,
    proofs: &mut Proofs,
) -> Result<End, OracleFault>
    requires depth { limits.depth ≤ LAST_QUERY }
    requires lemmas { 1 ≤ limits.lemmas }
    requires words { limits.words ≤ 250000000 }
    ensures decides { (first : Stage) → IsTurn (O.Source.machine (O.source (O.fixed oracle.old))) (O.encoding (O.fixed oracle.old)) first
        (O.stage oracle.old) (Query.Step limits.depth) proofs.old → IfOk result (Decides (O.Source.machine (O.source (O.fixed oracle.old)))
        (O.encoding (O.fixed oracle.old)) first (O.stage oracle.new) limits proofs.new) }
    ensures refined { IsRefined (O.encoding (O.fixed oracle.old)).tells (O.stage oracle.old) (O.stage oracle.new) }
    ensures gates { result ≡ Err OracleFault.Gates → (O.encoding (O.fixed oracle.old)).passes (O.stage oracle.new).chain ≡ true }
    ensures fixed_kept { O.fixed oracle.new ≡ O.fixed oracle.old }
{
    match ask(alloc, oracle, Query::Step(limits.depth), limits, proofs)? {
        Reply::Met(trace) => Ok(End::Depth(trace)),
        Reply::Refuted => Ok(End::Proved(limits.depth)),
        Reply::SpentLemmas => Ok(End::SpentLemmas),
        Reply::SpentRegion(need, next) => Ok(End::SpentRegion(need, next)),
    }
}

/// Asks the queries in their order up to the end.
fn go<O: Oracle>(
    alloc: Global,
    oracle: &mut O,
    limits: Limits,
    proofs: &mut Proofs,
) -> Result<End, OracleFault>
    requires depth { limits.depth ≤ LAST_QUERY }
    requires lemmas { 1 ≤ limits.lemmas }
    requires words { limits.words ≤ 250000000 }
    requires turn { IsTurn (O.Source.machine (O.source (O.fixed oracle.old))) (O.encoding (O.fixed oracle.old)) (O.stage oracle.old)
        (O.stage oracle.old) (Query.Step 0) proofs.old }
    ensures decides { IfOk result (Decides (O.Source.machine (O.source (O.fixed oracle.old))) (O.encoding (O.fixed oracle.old))
        (O.stage oracle.old) (O.stage oracle.new) limits proofs.new) }
    ensures refined { IsRefined (O.encoding (O.fixed oracle.old)).tells (O.stage oracle.old) (O.stage oracle.new) }
    ensures gates { result ≡ Err OracleFault.Gates → (O.encoding (O.fixed oracle.old)).passes (O.stage oracle.new).chain ≡ true }
    ensures fixed_kept { O.fixed oracle.new ≡ O.fixed oracle.old }
{
    for k in 0..limits.depth {
        match ask_step(alloc, oracle, k, limits, proofs)? {
            Some(end) => return Ok(end),
            None => {}
        }
        match ask_base(alloc, oracle, k + 1, limits, proofs)? {
            Some(end) => return Ok(end),
            None => {}
        }
    }
    ask_last(alloc, oracle, limits, proofs)
}

/// Asks step(0), base(1), step(1), base(2), and so on up to step of the depth, each in a solver of its own, until a base query is met,
/// a step query is refuted or a limit is spent. `Gates` comes where the circuit of the oracle's chain passes the limit on circuits.
///
/// One solver's memory is held at a time, besides the proofs. It has 65,536 words first, and more only where a query needs them.
pub fn decide<O: Oracle>(
    alloc: Global,
    oracle: &mut O,
    limits: &Limits,
) -> Result<Decision, OracleFault>
    requires depth { limits.now.depth ≤ LAST_QUERY }
    requires lemmas { 1 ≤ limits.now.lemmas }
    requires words { limits.now.words ≤ 250000000 }
    ensures decides { IfOk result (λ d. Decides (O.Source.machine (O.source (O.fixed oracle.old))) (O.encoding (O.fixed oracle.old))
        (O.stage oracle.old) (O.stage oracle.new) limits.now d.proofs d.end) }

    // Where no limit is spent, what can be shown up to the depth is shown.
    ensures proves { IfOk result (λ d. (k : ℕ) → IsUnspent d.end → k ≤ limits.now.depth
        → ((j : ℕ) → 1 ≤ j → j ≤ k → MeetsBase (O.Source.machine (O.source (O.fixed oracle.old))) j → ⊥)
        → (MeetsStep (O.Source.machine (O.source (O.fixed oracle.old))) k → ⊥) → IsProvedBy k d.end) }
    ensures finds { IfOk result (λ d. (n : ℕ) → IsUnspent d.end → n ≤ limits.now.depth
        → MeetsBase (O.Source.machine (O.source (O.fixed oracle.old))) n → IsFailedBy n d.end) }

    // Only cells that differ are put back, and so in no more rounds than there are abstracted cells.
    ensures refined { IsRefinedInFew (O.encoding (O.fixed oracle.old)).tells (O.stage oracle.old) (O.stage oracle.new) }

    ensures gates { result ≡ Err OracleFault.Gates → (O.encoding (O.fixed oracle.old)).passes (O.stage oracle.new).chain ≡ true }
    ensures fixed_kept { O.fixed oracle.new ≡ O.fixed oracle.old }
{
    let mut proofs = Proofs::new(alloc);
    match go(alloc, oracle, *limits, &mut proofs) {
        Ok(end) => Ok(Decision { end, proofs }),
        Err(fault) => {
            drop(proofs);
            Err(fault)
        }
    }
}
