//! Whether a line is new: no earlier clause has all its literals among the line's.
ghost use Rattle.std.specs.Prelude.{◌≡◌, ℕ, ◌+◌, ◌-◌, ◌*◌, ◌<◌, ◌≤◌, ◌^◌, ◌||◌, false, List, [], ◌∷◌, ◌++◌, length, Some, slice_get, IfOk, OnOk};
ghost use Rattle.std.specs.Result.{result_err};
ghost use Rattle.pv_cnf.specs.Clause.{has_outside, has_double};
ghost use Rattle.pv_log.specs.declared.line.Line.{Line};
ghost use Rattle.pv_log.specs.Propagation.{named};
ghost use Rattle.pv_log.specs.Newness.{is_subsumed, new_fault_of};
ghost use Rattle.pv_log.specs.Filing.{IsFiled, FindsFalse, is_false_one};
ghost use Rattle.pv_log.specs.Checking.{lemmas, known, AreInside};

use crate::assignment::Assignment;
use crate::fault::LineFault;
use crate::filing::Filing;
use crate::follow::{assume, check_line, find};
use crate::left::all_false;
use crate::view::LogView;
use pv_cnf::ClauseView;
use std::alloc::{AllocError, Global};

/// Files the clauses of a formula.
pub(crate) fn file_formula<F: ClauseView>(alloc: Global, f: &F) -> Result<Filing, AllocError>
    ensures { IfOk result (λ filing. IsFiled (F.variables f.now) filing (F.clauses f.now)) }
{
    let mut filing = Filing::new(alloc, f.variables())?;
    for n in 0..f.count() {
        filing.add(f.clause(n + 1))?;
    }
    Ok(filing)
}

/// Whether the clause with this id is false.
fn is_false_at<F: ClauseView, L: LogView>(
    values: &Assignment,
    f: &F,
    log: &L,
    lines: u32,
    id: u32,
) -> bool
    requires few { lines ≤ length (L.all_lines log.now) }
    requires enough { F.variables f.now ≤ values.now.variables }
    requires inside { AreInside (F.variables f.now) (lemmas (L.all_lines log.now) lines) }
    ensures { result ≡ is_false_one values.now.falses
        (named (known (F.clauses f.now) (L.all_lines log.now) lines) id) }
{
    match find(f, log, lines, id) {
        Some(clause) => all_false(values, clause),
        None => false,
    }
}

/// Whether a clause that is filed under this literal is false.
fn finds_false_under<F: ClauseView, L: LogView>(
    values: &Assignment,
    filing: &Filing,
    f: &F,
    log: &L,
    lines: u32,
    lit: u32,
) -> bool
    requires few { lines ≤ length (L.all_lines log.now) }
    requires enough { F.variables f.now ≤ values.now.variables }
    requires inside { AreInside (F.variables f.now) (lemmas (L.all_lines log.now) lines) }
    requires filed { IsFiled (F.variables f.now) filing.now
        (known (F.clauses f.now) (L.all_lines log.now) lines) }
    requires literal { lit < length filing.now.heads }
    ensures { FindsFalse values.now.falses (known (F.clauses f.now) (L.all_lines log.now) lines)
        filing.now lit result }
{
    let mut id = filing.last(lit);
    while id > 0 {
        if is_false_at(values, f, log, lines, id) {
            return true;
        }
        id = filing.before(id);
    }
    false
}

/// Whether one of the clauses is false where these literals alone are.
fn finds_false<F: ClauseView, L: LogView>(
    values: &Assignment,
    filing: &Filing,
    f: &F,
    log: &L,
    lines: u32,
    lits: &[u32],
) -> bool
    requires few { lines ≤ length (L.all_lines log.now) }
    requires enough { F.variables f.now ≤ values.now.variables }
    requires inside { AreInside (F.variables f.now) (lemmas (L.all_lines log.now) lines) }
    requires filed { IsFiled (F.variables f.now) filing.now
        (known (F.clauses f.now) (L.all_lines log.now) lines) }
    requires literals { has_outside (F.variables f.now) lits.now ≡ false }
    requires falses { values.now.falses ≡ lits.now }
    ensures { result ≡ is_subsumed (known (F.clauses f.now) (L.all_lines log.now) lines) lits.now }
{
    if finds_false_under(values, filing, f, log, lines, 0) {
        return true;
    }
    for lit in lits {
        if finds_false_under(values, filing, f, log, lines, *lit) {
            return true;
        }
    }
    false
}

/// Whether a clause has all its literals among these.
fn subsumed<F: ClauseView, L: LogView>(
    values: &mut Assignment,
    filing: &Filing,
    f: &F,
    log: &L,
    lines: u32,
    lits: &[u32],
) -> bool
    requires few { lines ≤ length (L.all_lines log.now) }
    requires enough { F.variables f.now ≤ values.old.variables }
    requires none { values.old.falses ≡ [] }
    requires inside { AreInside (F.variables f.now) (lemmas (L.all_lines log.now) lines) }
    requires filed { IsFiled (F.variables f.now) filing.now
        (known (F.clauses f.now) (L.all_lines log.now) lines) }
    requires lemma { (has_outside (F.variables f.now) lits.now || has_double lits.now) ≡ false }
    ensures variables { values.new.variables ≡ values.old.variables }
    ensures none { values.new.falses ≡ [] }
    ensures value { result ≡ is_subsumed (known (F.clauses f.now) (L.all_lines log.now) lines) lits.now }
{
    let answer = assume(values, f.variables(), lits).is_ok()
        && finds_false(values, filing, f, log, lines, lits);
    values.clear();
    answer
}

/// Tries the line behind the first `lines` lines, which also has to be new.
pub(crate) fn check_new_line<F: ClauseView, L: LogView>(
    values: &mut Assignment,
    filing: &Filing,
    f: &F,
    log: &L,
    lines: u32,
) -> Result<(), LineFault>
    requires few { lines < length (L.all_lines log.now) }
    requires fits { lines < 2 ^ 32 - 1 }
    requires enough { F.variables f.now ≤ values.old.variables }
    requires none { values.old.falses ≡ [] }
    requires inside { AreInside (F.variables f.now) (lemmas (L.all_lines log.now) lines) }
    requires filed { IsFiled (F.variables f.now) filing.now
        (known (F.clauses f.now) (L.all_lines log.now) lines) }
    ensures variables { values.new.variables ≡ values.old.variables }
    ensures none { values.new.falses ≡ [] }
    ensures short { OnOk result (length (F.clauses f.now) + lines + 1 < 2 ^ 32) }
    ensures fault { (line : Line) → slice_get (L.all_lines log.now) lines ≡ Some line
        → result_err result ≡ new_fault_of (F.variables f.now)
        (known (F.clauses f.now) (L.all_lines log.now) lines) line }
{
    check_line(values, f, log, lines)?;
    if subsumed(values, filing, f, log, lines, log.lits(lines + 1)) {
        return Err(LineFault::NotNew);
    }
    Ok(())
}
