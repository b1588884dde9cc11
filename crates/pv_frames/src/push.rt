//! The clauses of a query's formula, pushed into a store.
//!
//! What a call gives that pushes a list is one relation by cases on its result: the list stands behind
//! what was there, or the clauses before the first that is refused do. The store may refuse by a test
//! of its own on all its clauses, which no call changes.

ghost use Rattle.std.specs.Prelude.{◌≡◌, ◌+◌, ◌-◌, ◌^◌, ◌<◌, ℕ, List, length, IsTrue};
ghost use Rattle.std.specs.List.{flat_map};
ghost use Rattle.pv_cnf.specs.Clause.{AreClauses};
ghost use Rattle.pv_frames.specs.Pushing.{Pushes};
ghost use Rattle.pv_frames.specs.Short.{clauses_of};

use crate::short::Short;
use pv_cnf::{Clauses, PushFault};

/// So many gates the circuit of a query may have.
pub const MAX_QUERY_GATES: u32 = 10_000_000;

/// So many clauses a store may have before those of a formula, which then are counted by a `u32`.
pub const MAX_CLAUSES_BEFORE: u32 = 1_000_000_000;

/// A clause, if it isn't left out.
pub(crate) fn push_short<C: Clauses>(clause: Short, into: &mut C) -> Result<(), PushFault>
    requires takes { IsTrue (C.takes_clauses into.old) }
    requires valid { AreClauses (C.variables into.old) (clauses_of clause) }
    requires room { length (C.clauses into.old) < 2 ^ 32 - 1 }
    ensures pushes { Pushes (C.overflow into.old) (C.clauses into.old) (clauses_of clause) (C.clauses into.new) result }
    ensures variables_kept { C.variables into.new ≡ C.variables into.old }
    ensures takes_kept { C.takes_clauses into.new ≡ C.takes_clauses into.old }
    ensures overflow_kept { (all : List (List ℕ)) → C.overflow into.new all ≡ C.overflow into.old all }
{
    match clause {
        Short::Omitted => Ok(()),
        Short::One(a) => into.push(&[a]),
        Short::Two(a, b) => into.push(&[a, b]),
        Short::Three(a, b, c) => into.push(&[a, b, c]),
    }
}

/// Clauses in order.
pub(crate) fn push_all<C: Clauses>(clauses: &[Short], into: &mut C) -> Result<(), PushFault>
    requires takes { IsTrue (C.takes_clauses into.old) }
    requires valid { AreClauses (C.variables into.old) (flat_map clauses_of clauses.now) }
    requires room { length (C.clauses into.old) + length clauses.now < 2 ^ 32 }
    ensures pushes { Pushes (C.overflow into.old) (C.clauses into.old) (flat_map clauses_of clauses.now) (C.clauses into.new) result }
    ensures variables_kept { C.variables into.new ≡ C.variables into.old }
    ensures takes_kept { C.takes_clauses into.new ≡ C.takes_clauses into.old }
    ensures overflow_kept { (all : List (List ℕ)) → C.overflow into.new all ≡ C.overflow into.old all }
{
    for clause in clauses {
        push_short(*clause, into)?;
    }
    Ok(())
}
