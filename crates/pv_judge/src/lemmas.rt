//! Logs of lemmas, for which a limit was spent.
ghost use Rattle.std.specs.Prelude.{◌≡◌, ℕ, ◌^◌, ◌<◌, suc, Option, Some, length, IfOk, IfErr};
ghost use Rattle.pv_log.specs.declared.line.Line.{Line};
ghost use Rattle.pv_valid.specs.Walk.{lines_fault, wrong_lemma, budget_fault, need_fault, is_same};
ghost use Rattle.pv_judge.specs.Steps.{Finds, first_empty, is_not_new, refused_in, first_wrong, placed, is_in_log};

use crate::joined::Joined;
use crate::logs::fault_at;
use crate::words::first_sum_past;
use pv_cnf::{ClauseView, Formula};
use pv_log::{Checker, Line, LineFault, Log, LogView, Verdict};
use pv_valid::{Fault, Kind};
use std::alloc::Global;

/// The first line without a literal, from 1.
fn first_empty<L: LogView>(log: &L) -> Option<u32>
    ensures { result ≡ first_empty (L.all_lines log.now) }
{
    for n in 0..log.lines() {
        if log.lits(n + 1).is_empty() {
            return Some(n + 1);
        }
    }
    None
}

fn is_not_new(kind: LineFault) -> bool
    ensures { result ≡ is_not_new kind }
{
    matches!(kind, LineFault::NotNew)
}

/// The line that was refused, with its kind.
fn refused_in(verdict: Verdict) -> Option<(u32, LineFault)>
    ensures { result ≡ refused_in verdict }
{
    match verdict {
        Verdict::Refused { line, kind } => Some((line, kind)),
        Verdict::Accepted | Verdict::NoEmpty => None,
    }
}

/// What is wrong first where one line was refused and another is empty. At one line the line's own fault comes first, then that it is
/// empty, then that it isn't new.
fn earlier(line: u32, kind: LineFault, empty: u32) -> (u32, Kind)
    ensures { Some result ≡ first_wrong (Some (line, kind)) (Some empty) }
{
    if line < empty || line == empty && !is_not_new(kind) {
        (line, Kind::Line(kind))
    } else {
        (empty, Kind::WrongQuery)
    }
}

/// What is wrong first with lemmas: the line that was refused with its kind, if one was, and the first empty line.
fn first_wrong(refused: Option<(u32, LineFault)>, empty: Option<u32>) -> Option<(u32, Kind)>
    ensures { result ≡ first_wrong refused empty }
{
    let Some(n) = empty else {
        let (line, kind) = refused?;
        return Some((line, Kind::Line(kind)));
    };
    match refused {
        Some((line, kind)) => Some(earlier(line, kind, n)),
        None => Some((n, Kind::WrongQuery)),
    }
}

/// What is wrong first with lemmas, and in which of their lines, from 1.
fn wrong_lemma<L: LogView>(
    alloc: Global,
    formula: &Formula,
    lemmas: &L,
) -> Result<Option<(u32, Kind)>, Fault>
    requires few { formula.now.variables < 2 ^ 31 }
    ensures wrong { IfOk result (λ wrong. (at : ℕ) → lines_fault (wrong_lemma formula.now.variables) formula.now.clauses (suc at)
        (L.all_lines lemmas.now) ≡ placed at wrong) }
    ensures fault { IfErr result (λ fault. fault ≡ Fault.NoMemory) }
{
    let mut checker = Checker::make(alloc, formula.variables())?;
    let verdict = checker.check_new(alloc, formula, lemmas)?;
    Ok(first_wrong(refused_in(verdict), first_empty(lemmas)))
}

/// What is wrong first with lemmas, whose log stands after this line.
fn placed(at: u64, wrong: Option<(u32, Kind)>) -> Result<(), Fault>
    requires { at < 2 ^ 63 }
    ensures { Finds (placed at wrong) result }
{
    match wrong {
        Some((line, kind)) => Err(fault_at(at + line as u64, kind)),
        None => Ok(()),
    }
}

/// A log of as many lemmas as the case allows, whose number of lines stands in this line.
pub(crate) fn spend_lemmas(
    alloc: Global,
    budget: u32,
    formula: &Formula,
    at: u64,
    log: &Log,
) -> Result<(), Fault>
    requires few { formula.now.variables < 2 ^ 31 }
    requires line { at < 2 ^ 62 }
    ensures { Finds (budget_fault budget formula.now at log.now) result }
{
    if log.lines() != budget {
        return Err(fault_at(at, Kind::WrongBudget));
    }
    let wrong = wrong_lemma(alloc, formula, log)?;
    placed(at, wrong)
}

/// Whether the sum is there and is this.
fn is_same(sum: Option<u128>, need: u64) -> bool
    ensures { result ≡ is_same sum need }
{
    match sum {
        Some(sum) => sum == need as u128,
        None => false,
    }
}

/// Whether what is wrong first stands in one of the first lines.
fn is_in_log(wrong: Option<(u32, Kind)>, lines: u32) -> bool
    ensures { result ≡ is_in_log wrong lines }
{
    match wrong {
        Some((line, _)) => line <= lines,
        None => false,
    }
}

/// A log of so many lines that ids can't count one more: something is wrong with one of its lines, and what comes next doesn't matter.
/// Its number of lines stands in this line.
fn spend_full(alloc: Global, formula: &Formula, at: u64, log: &Log) -> Result<(), Fault>
    requires few { formula.now.variables < 2 ^ 31 }
    requires line { at < 2 ^ 62 }
    requires full { length log.now ≡ 4294967295 }
    ensures { (limit need : ℕ) (next : Option Line) → Finds (need_fault limit need next formula.now at log.now) result }
{
    let wrong = wrong_lemma(alloc, formula, log)?;
    let _last = log.id(log.lines());
    placed(at, wrong)
}

/// A log of lemmas with the words that were needed after it, and the lemma that comes next, if there is one. The log's number of lines
/// stands in this line.
pub(crate) fn spend_words(
    alloc: Global,
    limit: u64,
    need: u64,
    next: &Option<Line>,
    formula: &Formula,
    at: u64,
    log: &Log,
) -> Result<(), Fault>
    requires few { formula.now.variables < 2 ^ 31 }
    requires line { at < 2 ^ 62 }
    ensures { Finds (need_fault limit need next.now formula.now at log.now) result }
{
    let Some(lemmas) = Joined::make(log, next) else {
        return spend_full(alloc, formula, at, log);
    };
    let wrong = wrong_lemma(alloc, formula, &lemmas)?;
    let own = log.lines();
    if is_in_log(wrong, own) {
        return placed(at, wrong);
    }
    if !is_same(first_sum_past(limit, formula, &lemmas), need) {
        return Err(fault_at(at + 1 + own as u64, Kind::WrongNeed));
    }
    placed(at + 1, wrong)
}
