//! Lists of cells, and of clauses that are pushed.
ghost use Rattle.std.specs.Prelude.{◌≡◌, ℕ, ◌≤◌, List, [], IsTrue, IfOk};
ghost use Rattle.pv_frames.specs.Pushing.{Pushes};
ghost use Rattle.pv_kind.specs.Refinements.{is_among, without};

use pv_cnf::{ClauseView, Clauses, Formula, PushFault};
use pv_log::Numbers;
use std::alloc::{AllocError, Global};

/// Whether the cell is among these.
fn is_among(cells: &[u32], cell: u32) -> bool
    ensures { result ≡ is_among cells.now cell }
{
    for other in cells {
        if cell == *other {
            return true;
        }
    }
    false
}

/// The list without these cells.
pub(crate) fn without(alloc: Global, cells: &[u32], list: &[u32]) -> Result<Numbers, AllocError>
    ensures { IfOk result (λ left. left ≡ without cells.now list.now) }
{
    let mut left = Numbers::new(alloc);
    for cell in list {
        if !is_among(cells, *cell) {
            left.push(*cell)?;
        }
    }
    Ok(left)
}

/// Pushes the formula's clauses into a store without clauses.
pub(crate) fn push_all<C: Clauses>(formula: &Formula, into: &mut C) -> Result<(), PushFault>
    requires none { C.clauses into.old ≡ [] }
    requires takes { IsTrue (C.takes_clauses into.old) }
    requires variables { formula.now.variables ≤ C.variables into.old }
    ensures pushes { Pushes (C.overflow into.old) (C.clauses into.old) formula.now.clauses (C.clauses into.new) result }
    ensures variables_kept { C.variables into.new ≡ C.variables into.old }
    ensures takes_kept { C.takes_clauses into.new ≡ C.takes_clauses into.old }
    ensures overflow_kept { (all : List (List ℕ)) → C.overflow into.new all ≡ C.overflow into.old all }
{
    for n in 0..formula.count() {
        into.push(formula.clause(n + 1))?;
    }
    Ok(())
}
