//! The proofs of a certificate, each with its query, its chain and its log.
ghost use Rattle.std.specs.Prelude.{◌≡◌, ◌⊎◌, ◌+◌, ◌^◌, ◌<◌, ◌≤◌, true, false, length, IfOk, IfErr, OnOk};
ghost use Rattle.std.specs.List.{AllByRecursion};
ghost use Rattle.pv_kind.specs.Oracles.{IsAsked};
ghost use Rattle.pv_kind.specs.declared.told.TheConstants.{LAST_QUERY};
ghost use Rattle.pv_valid.specs.Walk.{is_plain, proof_fault, behind_proof, proofs_fault, spent_fault};
ghost use Rattle.pv_judge.specs.Steps.{Finds, queries_of, nth_fault};
ghost use Rattle.pv_judge.specs.Logs.{log_fault};

use crate::expected::{Expected, is_earlier, is_named, is_query};
use crate::lemmas::{spend_lemmas, spend_words};
use crate::logs::{fault_at, refute};
use pv_cert::{Chain, Proof, Query};
use pv_cnf::Formula;
use pv_gate::GateFault;
use pv_log::{Line, Log, LogView};
use pv_valid::{Fault, Judged, Kind};
use std::alloc::Global;

/// What a log has to show.
#[derive(Clone, Copy)]
pub(crate) enum Task<'a> {
    /// That no values make the formula hold.
    Refute,
    /// That so many lemmas were learned.
    SpendLemmas(u32),
    /// That more than so many words were needed, this many, by the clauses and lemmas and the one that comes next, if there is one.
    SpendWords(u64, u64, &'a Option<Line>),
}

/// Whether nothing is made smaller.
fn is_plain(chain: &Chain) -> bool
    ensures { result ≡ is_plain chain.now }
{
    !chain.constants && chain.havoc.as_slice().is_empty() && !chain.cone
}

/// The log of a proof, whose number of lines stands in this line.
fn judge_log(
    alloc: Global,
    task: Task<'_>,
    formula: &Formula,
    at: u64,
    log: &Log,
) -> Result<(), Fault>
    requires few { formula.now.variables < 2 ^ 31 }
    requires line { at < 2 ^ 62 }
    ensures { Finds (log_fault task.entry formula.now at log.now) result }
{
    match task {
        Task::Refute => refute(alloc, formula, at, log),
        Task::SpendLemmas(budget) => spend_lemmas(alloc, budget, formula, at, log),
        Task::SpendWords(limit, need, next) => {
            spend_words(alloc, limit, need, next, formula, at, log)
        }
    }
}

/// The formula of a query, made anew.
fn formula<J: Judged>(case: &mut J, query: Query) -> Result<Formula, Fault>
    requires { IsAsked query }
    ensures formula { IfOk result (λ formula. formula ≡ (J.case case.old).formula query) }
    ensures few { IfOk result (λ formula. formula.variables < 2 ^ 31) }
    ensures fits { OnOk result ((J.case case.old).passes ≡ false) }
    ensures fault { IfErr result (λ fault. (fault ≡ Fault.NoMemory)
        ⊎ ((fault ≡ Fault.TooManyGates) × ((J.case case.old).passes ≡ true))) }
    ensures kept { J.case case.new ≡ J.case case.old }
{
    match case.formula(query) {
        Ok(formula) => Ok(formula),
        Err(GateFault::Limit) => Err(Fault::TooManyGates),
        Err(GateFault::NoMemory) => Err(Fault::NoMemory),
    }
}

/// A proof whose query stands in this line, and whether that is the one which belongs there.
fn judge_proof<J: Judged>(
    alloc: Global,
    case: &mut J,
    is_expected: bool,
    task: Task<'_>,
    at: u64,
    proof: &Proof,
) -> Result<(), Fault>
    requires asked { is_expected ≡ true → IsAsked proof.now.query }
    requires line { at < 2 ^ 61 }
    ensures finds { Finds (proof_fault (J.case case.old) is_expected (log_fault task.entry) at proof.now) result }
    ensures kept { J.case case.new ≡ J.case case.old }
{
    if !is_expected {
        return Err(fault_at(at, Kind::WrongQuery));
    }
    if !is_plain(&proof.chain) {
        return Err(fault_at(at + 1, Kind::WrongQuery));
    }
    match formula(case, proof.query) {
        Ok(formula) => judge_log(alloc, task, &formula, at + 2, &proof.log),
        Err(fault) => Err(fault),
    }
}

/// The line after a proof.
fn behind(at: u64, proof: &Proof) -> u64
    requires { at < 2 ^ 61 }
    ensures behind { result ≡ behind_proof at proof.now }
    ensures bounded { result ≤ at + 2 ^ 33 }
{
    at + 3 + proof.log.lines() as u64
}

/// Proofs against the queries that are expected; the first stands in this line.
pub(crate) fn judge_proofs<J: Judged>(
    alloc: Global,
    case: &mut J,
    expected: Expected,
    first: u64,
    proofs: &[Proof],
) -> Result<(), Fault>
    requires asked { AllByRecursion IsAsked (queries_of expected) }
    requires few { length (queries_of expected) ≤ LAST_QUERY + 1 }
    requires line { first < 2 ^ 60 }
    ensures finds { Finds (proofs_fault (J.case case.old) (queries_of expected) first proofs.now) result }
    ensures kept { J.case case.new ≡ J.case case.old }
{
    let mut at = first;
    for (n, proof) in proofs.iter().enumerate() {
        let Some(query) = expected.query(n) else {
            return Err(fault_at(at, Kind::WrongQuery));
        };
        let is_expected = is_query(query, proof.query);
        if let Err(fault) = judge_proof(alloc, case, is_expected, Task::Refute, at, proof) {
            return Err(fault);
        }
        at = behind(at, proof);
    }
    match expected.query(proofs.len()) {
        Some(_) => Err(fault_at(at, Kind::WrongQuery)),
        None => Ok(()),
    }
}

/// Proof n of those for which a limit was spent: the last one's log has to show the task, and an earlier one refutes base(n).
fn judge_nth<J: Judged>(
    alloc: Global,
    case: &mut J,
    n: u32,
    is_last: bool,
    task: Task<'_>,
    at: u64,
    proof: &Proof,
) -> Result<(), Fault>
    requires from_one { 1 ≤ n }
    requires line { at < 2 ^ 61 }
    ensures finds { Finds (nth_fault (J.case case.old) (log_fault task.entry) n is_last at proof.now) result }
    ensures within { OnOk result (n ≤ LAST_QUERY + 1) }
    ensures kept { J.case case.new ≡ J.case case.old }
{
    let depth = case.facts().depth;
    if is_last {
        let expected = is_named(depth, n, proof.query);
        judge_proof(alloc, case, expected, task, at, proof)
    } else {
        let expected = is_earlier(depth, n, proof.query);
        judge_proof(alloc, case, expected, Task::Refute, at, proof)
    }
}

/// Proofs for which a limit was spent: the last one's log has to show the task, and those before it refute base queries. The first
/// stands in this line.
pub(crate) fn judge_spent<J: Judged>(
    alloc: Global,
    case: &mut J,
    task: Task<'_>,
    first: u64,
    proofs: &[Proof],
) -> Result<(), Fault>
    requires line { first < 2 ^ 60 }
    ensures finds { Finds (spent_fault (J.case case.old) (log_fault task.entry) 1 first proofs.now) result }
    ensures kept { J.case case.new ≡ J.case case.old }
{
    let mut at = first;
    let mut n = 0u32;
    for proof in proofs.iter() {
        n += 1;
        let is_last = n as usize == proofs.len();
        if let Err(fault) = judge_nth(alloc, case, n, is_last, task, at, proof) {
            return Err(fault);
        }
        at = behind(at, proof);
    }
    if proofs.is_empty() {
        Err(fault_at(first, Kind::WrongQuery))
    } else {
        Ok(())
    }
}
