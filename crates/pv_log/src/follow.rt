//! Whether a line follows from the clauses before it.
ghost use Rattle.std.specs.Prelude.{◌≡◌, ◌⊎◌, ℕ, ◌+◌, ◌-◌, ◌*◌, ◌<◌, ◌≤◌, ◌^◌, ◌||◌, true, false, List, [], ◌∷◌, Some, length, slice_get, IfSome, IfErr, OnOk, MatchResult};
ghost use Rattle.std.specs.Option.{option_copied};
ghost use Rattle.std.specs.Result.{result_err};
ghost use Rattle.pv_cnf.specs.Clause.{has_outside, has_double};
ghost use Rattle.pv_log.specs.declared.line.Line.{Line};
ghost use Rattle.pv_log.specs.Propagation.{named, hints_fault};
ghost use Rattle.pv_log.specs.Follows.{fault_of};
ghost use Rattle.pv_log.specs.Checking.{lemmas, known, AreInside};

use crate::assignment::Assignment;
use crate::fault::LineFault;
use crate::left::{follow_last, follow_unit};
use crate::view::LogView;
use pv_cnf::{ClauseView, flip};

/// The clause with an id: one of the formula's, or that of one of the first `lines` lines.
pub(crate) fn find<'a, F: ClauseView, L: LogView>(
    f: &'a F,
    log: &'a L,
    lines: u32,
    id: u32,
) -> Option<&'a [u32]>
    requires few { lines ≤ length (L.all_lines log.now) }
    requires inside { AreInside (F.variables f.now) (lemmas (L.all_lines log.now) lines) }
    ensures value { option_copied result ≡ named (known (F.clauses f.now) (L.all_lines log.now) lines) id }
    ensures inside { IfSome result (λ lits. has_outside (F.variables f.now) lits.now ≡ false) }
{
    let count = f.count();
    if id == 0 {
        return None;
    }
    if id <= count {
        return Some(f.clause(id));
    }
    let line = id - count;
    if line <= lines {
        Some(log.lits(line))
    } else {
        None
    }
}

/// Makes the literals of a lemma false.
pub(crate) fn assume(values: &mut Assignment, variables: u32, lits: &[u32]) -> Result<(), LineFault>
    requires enough { variables ≤ values.old.variables }
    requires none { values.old.falses ≡ [] }
    ensures variables { values.new.variables ≡ values.old.variables }
    ensures lemma { OnOk result ((has_outside variables lits.now || has_double lits.now) ≡ false) }
    ensures falses { OnOk result (values.new.falses ≡ lits.now) }
    ensures tautology { IfErr result (λ fault. (fault ≡ LineFault.Tautology)
        × ((has_outside variables lits.now || has_double lits.now) ≡ true)) }
{
    for lit in lits {
        let variable = *lit / 2;
        if variable == 0 || variable > variables {
            return Err(LineFault::Tautology);
        }
        if values.is_false(*lit) || values.is_false(flip(*lit)) {
            return Err(LineFault::Tautology);
        }
        values.make_false(*lit);
    }
    Ok(())
}

/// Follows the hints in order.
fn follow<F: ClauseView, L: LogView>(
    values: &mut Assignment,
    f: &F,
    log: &L,
    lines: u32,
    hints: &[u32],
) -> Result<(), LineFault>
    requires few { lines ≤ length (L.all_lines log.now) }
    requires enough { F.variables f.now ≤ values.old.variables }
    requires inside { AreInside (F.variables f.now) (lemmas (L.all_lines log.now) lines) }
    ensures variables { values.new.variables ≡ values.old.variables }
    ensures fault { result_err result
        ≡ hints_fault (known (F.clauses f.now) (L.all_lines log.now) lines) values.old.falses hints.now }
{
    for (i, hint) in hints.iter().enumerate() {
        let Some(clause) = find(f, log, lines, *hint) else {
            return Err(LineFault::UnknownHint);
        };
        if i + 1 == hints.len() {
            return follow_last(values, clause);
        }
        follow_unit(values, clause)?;
    }
    Err(LineFault::LastNotFalse)
}

/// Tries the line behind the first `lines` lines, and leaves its values.
fn try_line<F: ClauseView, L: LogView>(
    values: &mut Assignment,
    f: &F,
    log: &L,
    lines: u32,
) -> Result<(), LineFault>
    requires few { lines < length (L.all_lines log.now) }
    requires fits { lines < 2 ^ 32 - 1 }
    requires enough { F.variables f.now ≤ values.old.variables }
    requires none { values.old.falses ≡ [] }
    requires inside { AreInside (F.variables f.now) (lemmas (L.all_lines log.now) lines) }
    ensures variables { values.new.variables ≡ values.old.variables }
    ensures short { OnOk result (length (F.clauses f.now) + lines + 1 < 2 ^ 32) }
    ensures fault { (line : Line) → slice_get (L.all_lines log.now) lines ≡ Some line → result_err result
        ≡ fault_of (F.variables f.now) (known (F.clauses f.now) (L.all_lines log.now) lines) line }
{
    let n = lines + 1;
    if log.id(n) as u64 != f.count() as u64 + n as u64 {
        return Err(LineFault::BadId);
    }
    assume(values, f.variables(), log.lits(n))?;
    follow(values, f, log, lines, log.hints(n))
}

/// Tries the line behind the first `lines` lines.
pub(crate) fn check_line<F: ClauseView, L: LogView>(
    values: &mut Assignment,
    f: &F,
    log: &L,
    lines: u32,
) -> Result<(), LineFault>
    requires few { lines < length (L.all_lines log.now) }
    requires fits { lines < 2 ^ 32 - 1 }
    requires enough { F.variables f.now ≤ values.old.variables }
    requires none { values.old.falses ≡ [] }
    requires inside { AreInside (F.variables f.now) (lemmas (L.all_lines log.now) lines) }
    ensures variables { values.new.variables ≡ values.old.variables }
    ensures none { values.new.falses ≡ [] }
    ensures short { OnOk result (length (F.clauses f.now) + lines + 1 < 2 ^ 32) }
    ensures fault { (line : Line) → slice_get (L.all_lines log.now) lines ≡ Some line → result_err result
        ≡ fault_of (F.variables f.now) (known (F.clauses f.now) (L.all_lines log.now) lines) line }
{
    let answer = try_line(values, f, log, lines);
    values.clear();
    answer
}
