//! One query, asked until it is refuted, met by a trace of the machine, or a limit is spent.
//!
//! A solver takes and clears all words of its region as it is made, and most queries need few of them. So a query is asked in a small
//! region first, and in one many times as large where that is spent, up to the words that there may be. What a solver finds hangs on its
//! clauses alone, as long as its words suffice.
ghost use Rattle.std.specs.Prelude.{◌≡◌, ℕ, ◌+◌, ◌*◌, ◌^◌, ◌<◌, ◌≤◌, true, List, [], ◌∷◌, ◌++◌, IfOk, OnOk, OnErr};
ghost use Rattle.pv_cnf.specs.Clause.{Holds};
ghost use Rattle.pv_solver.specs.Answers.{lines_of, values_of, assigned_of, truth_of};
ghost use Rattle.pv_kind.specs.Oracles.{IsAsked, IsRefuted};
ghost use Rattle.pv_kind.specs.Refinements.{IsRefinedBy};
ghost use Rattle.pv_kind.specs.Decisions.{problem_of, IsFull};
ghost use Rattle.pv_kind.specs.Asking.{IsFilled, Fills, IsRefutedBy, TellsOf, Replies, GoesOn};

use crate::copy::{add_proof, copied_line};
use crate::decision::Limits;
use crate::oracle::Oracle;
use crate::told::{OracleFault, Told};
use pv_cert::{Proofs, Query};
use pv_claims::Trace;
use pv_cnf::{ClauseView, PushFault};
use pv_log::{Checker, Line, Log, Verdict};
use pv_solver::{Answer, MakeFault, Solver};
use std::alloc::{AllocError, Global};

/// The words of the region in which a query is asked first.
const FIRST: u64 = 65_536;

/// How many times as many words the next region has.
const TIMES: u64 = 16;

/// What comes of a query.
#[derive(Drop)]
pub(crate) enum Reply {
    /// The machine meets it, by this trace.
    Met(Trace),
    /// It is refuted, by the last proof.
    Refuted,
    /// One more lemma would be needed than may be learned; the log so far is the last proof's.
    SpentLemmas,
    /// So many words would be needed, more than there are, by the variables and clauses alone or by this lemma; the log so far is the
    /// last proof's.
    SpentRegion(u64, Option<Line>),
}

/// What comes of a query that is asked once.
#[derive(Drop)]
enum Outcome {
    /// Cells were put back, so the query is another one.
    PutBack,
    /// The region had too few words, and may have more.
    TooFew,
    /// A reply.
    Replied(Reply),
}

/// Pushes the query's clauses. Where there is no room for one, the answer is the words that would be needed.
fn fill<O: Oracle>(
    oracle: &mut O,
    q: Query,
    solver: &mut Solver,
    limits: Limits,
) -> Result<Option<u64>, OracleFault>
    requires asked { IsAsked q }
    requires ready { O.is_ready oracle.old q }
    requires made { solver.old ≡ record {
      problem = problem_of limits ((O.encoding (O.fixed oracle.old)).variables (O.stage oracle.old).chain q) [];
      outcome = None;
    } }
    requires fit { 2 * (O.encoding (O.fixed oracle.old)).variables (O.stage oracle.old).chain q ≤ limits.words }
    ensures fills { IfOk result (Fills (problem_of limits
        ((O.encoding (O.fixed oracle.old)).variables (O.stage oracle.old).chain q)
        ((O.encoding (O.fixed oracle.old)).clauses (O.stage oracle.old).chain q)) solver.new) }
    ensures no_gates { result ≡ Err OracleFault.Gates → ⊥ }
    ensures ready_kept { O.is_ready oracle.new q }
    ensures fixed_kept { O.fixed oracle.new ≡ O.fixed oracle.old }
    ensures stage_kept { O.stage oracle.new ≡ O.stage oracle.old }
{
    match oracle.push(q, solver) {
        Ok(()) => Ok(None),
        Err(PushFault::Full { need }) => Ok(Some(need)),
        Err(PushFault::NoMemory) => Err(OracleFault::NoMemory),
        Err(_) => unreachable!(),
    }
}

/// A proof with an empty log, where the variables and clauses alone take more words than there are, and no more may be.
fn full<O: Oracle>(
    alloc: Global,
    oracle: &O,
    q: Query,
    limits: Limits,
    may_grow: bool,
    need: u64,
    proofs: &mut Proofs,
) -> Result<Outcome, AllocError>
    requires { IsFull (problem_of limits ((O.encoding (O.fixed oracle.now)).variables (O.stage oracle.now).chain q)
        ((O.encoding (O.fixed oracle.now)).clauses (O.stage oracle.now).chain q)) [] need }
    ensures goes_on { IfOk result (GoesOn (O.Source.machine (O.source (O.fixed oracle.now))) (O.encoding (O.fixed oracle.now)) limits may_grow q
        (O.stage oracle.now) (O.stage oracle.now) proofs.old proofs.new) }
{
    if may_grow {
        return Ok(Outcome::TooFew);
    }
    add_proof(alloc, oracle, q, &Log::new(alloc), proofs)?;
    Ok(Outcome::Replied(Reply::SpentRegion(need, None)))
}

/// What the oracle tells of the solver's values: a trace, or none where cells were put back.
fn told<O: Oracle>(oracle: &mut O, q: Query, solver: &Solver) -> Result<Option<Trace>, AllocError>
    requires asked { IsAsked q }
    requires ready { O.is_ready oracle.old q }
    requires assigned { (O.encoding (O.fixed oracle.old)).variables (O.stage oracle.old).chain q ≤ assigned_of solver.now }
    requires hold { Holds (truth_of (values_of solver.now.outcome))
        ((O.encoding (O.fixed oracle.old)).clauses (O.stage oracle.old).chain q) }
    ensures tells { IfOk result (TellsOf (O.encoding (O.fixed oracle.old)) q (O.stage oracle.old) (O.stage oracle.new)) }
    ensures err { OnErr result (O.stage oracle.new ≡ O.stage oracle.old) }
    ensures fixed_kept { O.fixed oracle.new ≡ O.fixed oracle.old }
{
    match oracle.told(q, solver)? {
        Told::Same(trace) => Ok(Some(trace)),
        Told::Differs { scan: _, cells } => {
            oracle.put_back(cells.as_slice())?;
            Ok(None)
        }
    }
}

/// The solver's log, which is checked against the solver's clauses.
fn refuted<O: Oracle>(
    alloc: Global,
    oracle: &O,
    q: Query,
    solver: &Solver,
    proofs: &mut Proofs,
) -> Result<(), AllocError>
    requires few { solver.now.problem.variables < 2 ^ 31 }
    requires accepted { IsRefutedBy solver.now.problem (lines_of solver.now.outcome) }
    ensures refuted { OnOk result (IsRefuted solver.now.problem.clauses) }
    ensures ok { OnOk result (proofs.new ≡ proofs.old
        ++ record { query = q; chain = (O.stage oracle.now).chain; log = lines_of solver.now.outcome } ∷ []) }
{
    let mut checker = Checker::make(alloc, solver.variables())?;
    match checker.check(solver, solver) {
        Verdict::Accepted => add_proof(alloc, oracle, q, solver, proofs),
        _ => unreachable!(),
    }
}

/// What comes of the query once its clauses are in the solver.
fn decided<O: Oracle>(
    alloc: Global,
    oracle: &mut O,
    q: Query,
    limits: Limits,
    may_grow: bool,
    solver: &mut Solver,
    proofs: &mut Proofs,
) -> Result<Outcome, OracleFault>
    requires asked { IsAsked q }
    requires ready { O.is_ready oracle.old q }
    requires lemmas { 1 ≤ limits.lemmas }
    requires few { (O.encoding (O.fixed oracle.old)).variables (O.stage oracle.old).chain q < 2 ^ 31 }
    requires filled { IsFilled (problem_of limits ((O.encoding (O.fixed oracle.old)).variables (O.stage oracle.old).chain q)
        ((O.encoding (O.fixed oracle.old)).clauses (O.stage oracle.old).chain q)) solver.old }
    ensures goes_on { IfOk result (GoesOn (O.Source.machine (O.source (O.fixed oracle.old))) (O.encoding (O.fixed oracle.old)) limits may_grow q
        (O.stage oracle.old) (O.stage oracle.new) proofs.old proofs.new) }
    ensures err { OnErr result (O.stage oracle.new ≡ O.stage oracle.old) }
    ensures no_gates { result ≡ Err OracleFault.Gates → ⊥ }
    ensures fixed_kept { O.fixed oracle.new ≡ O.fixed oracle.old }
{
    solver.set_lemmas(limits.lemmas);
    match solver.solve() {
        Answer::Sat => match told(oracle, q, solver)? {
            Some(trace) => Ok(Outcome::Replied(Reply::Met(trace))),
            None => Ok(Outcome::PutBack),
        },
        Answer::Unsat => {
            refuted(alloc, oracle, q, solver, proofs)?;
            Ok(Outcome::Replied(Reply::Refuted))
        }
        Answer::SpentLemmas => {
            add_proof(alloc, oracle, q, solver, proofs)?;
            Ok(Outcome::Replied(Reply::SpentLemmas))
        }
        Answer::SpentRegion { need } => {
            if may_grow {
                return Ok(Outcome::TooFew);
            }
            add_proof(alloc, oracle, q, solver, proofs)?;
            let next = copied_line(alloc, solver.next())?;
            Ok(Outcome::Replied(Reply::SpentRegion(need, Some(next))))
        }
    }
}

/// What comes of the query in this solver, which has no clauses yet.
fn posed<O: Oracle>(
    alloc: Global,
    oracle: &mut O,
    q: Query,
    limits: Limits,
    may_grow: bool,
    solver: &mut Solver,
    proofs: &mut Proofs,
) -> Result<Outcome, OracleFault>
    requires asked { IsAsked q }
    requires ready { O.is_ready oracle.old q }
    requires lemmas { 1 ≤ limits.lemmas }
    requires words { limits.words ≤ 250000000 }
    requires made { solver.old ≡ record {
      problem = problem_of limits ((O.encoding (O.fixed oracle.old)).variables (O.stage oracle.old).chain q) [];
      outcome = None;
    } }
    requires fit { 2 * (O.encoding (O.fixed oracle.old)).variables (O.stage oracle.old).chain q ≤ limits.words }
    ensures goes_on { IfOk result (GoesOn (O.Source.machine (O.source (O.fixed oracle.old))) (O.encoding (O.fixed oracle.old)) limits may_grow q
        (O.stage oracle.old) (O.stage oracle.new) proofs.old proofs.new) }
    ensures err { OnErr result (O.stage oracle.new ≡ O.stage oracle.old) }
    ensures no_gates { result ≡ Err OracleFault.Gates → ⊥ }
    ensures fixed_kept { O.fixed oracle.new ≡ O.fixed oracle.old }
{
    match fill(oracle, q, solver, limits)? {
        Some(need) => Ok(full(alloc, oracle, q, limits, may_grow, need, proofs)?),
        None => decided(alloc, oracle, q, limits, may_grow, solver, proofs),
    }
}

/// What comes of the query under the present chain, in a region of so many words.
fn ask_once<O: Oracle>(
    alloc: Global,
    oracle: &mut O,
    q: Query,
    limits: Limits,
    may_grow: bool,
    proofs: &mut Proofs,
) -> Result<Outcome, OracleFault>
    requires asked { IsAsked q }
    requires lemmas { 1 ≤ limits.lemmas }
    requires words { limits.words ≤ 250000000 }
    ensures goes_on { IfOk result (GoesOn (O.Source.machine (O.source (O.fixed oracle.old))) (O.encoding (O.fixed oracle.old)) limits may_grow q
        (O.stage oracle.old) (O.stage oracle.new) proofs.old proofs.new) }
    ensures err { OnErr result (O.stage oracle.new ≡ O.stage oracle.old) }
    ensures gates { result ≡ Err OracleFault.Gates → (O.encoding (O.fixed oracle.old)).passes (O.stage oracle.old).chain ≡ true }
    ensures fixed_kept { O.fixed oracle.new ≡ O.fixed oracle.old }
{
    let variables = oracle.variables(q)?;
    match Solver::make(alloc, variables, limits.words, limits.lemmas) {
        Ok(mut solver) => {
            let outcome = posed(alloc, oracle, q, limits, may_grow, &mut solver, proofs);
            drop(solver);
            outcome
        }
        Err(MakeFault::Full { need }) => Ok(full(
            alloc, oracle, q, limits, may_grow, need, proofs,
        )?),
        Err(MakeFault::NoMemory) => Err(OracleFault::NoMemory),
    }
}

/// More words, where there may be more.
fn more(words: u64, most: u64) -> u64
    requires { words < most }
    ensures more { words < result }
    ensures most { result ≤ most }
{
    words.saturating_mul(TIMES).max(words + 1).min(most)
}

/// What comes of the query: it is asked again after each round in which cells were put back, and with more words where they were too few,
/// each time in a solver of its own.
pub(crate) fn ask<O: Oracle>(
    alloc: Global,
    oracle: &mut O,
    q: Query,
    limits: Limits,
    proofs: &mut Proofs,
) -> Result<Reply, OracleFault>
    requires asked { IsAsked q }
    requires lemmas { 1 ≤ limits.lemmas }
    requires words { limits.words ≤ 250000000 }
    ensures replies { IfOk result (Replies (O.Source.machine (O.source (O.fixed oracle.old))) (O.encoding (O.fixed oracle.old))
        (O.stage oracle.new) limits q proofs.old proofs.new) }
    ensures refined { IsRefinedBy (O.encoding (O.fixed oracle.old)).tells (λ asked. asked ≡ q) (O.stage oracle.old) (O.stage oracle.new) }
    ensures gates { result ≡ Err OracleFault.Gates → (O.encoding (O.fixed oracle.old)).passes (O.stage oracle.new).chain ≡ true }
    ensures fixed_kept { O.fixed oracle.new ≡ O.fixed oracle.old }
{
    let mut words = limits.words.min(FIRST);
    'rounds: loop {
        let within = Limits { words, ..limits };
        match ask_once(alloc, oracle, q, within, words < limits.words, proofs)? {
            Outcome::Replied(reply) => return Ok(reply),
            Outcome::PutBack => {}
            Outcome::TooFew => words = more(words, limits.words),
        }
    }
}
