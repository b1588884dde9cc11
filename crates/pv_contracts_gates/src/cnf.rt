//! Calls of pv_cnf.
ghost use Rattle.std.specs.Prelude.{◌≡◌, ◌↔◌, ℕ, false, true, ◌+◌, ◌-◌, ◌^◌, ◌<◌, ◌≤◌, List, [], ◌∷◌, ◌++◌, length, IsTrue, None, OnErr, OnOk, Some};
ghost use Rattle.pv_cnf.specs.Clause.{Holds, IsClause, has_double, has_outside};

use pv_cnf::{ClauseView, Clauses, PushFault, Values};

/// [`Clauses::push`], through the bound.
pub fn push<C: Clauses>(store: &mut C, lits: &[u32]) -> Result<(), PushFault>
    requires takes { IsTrue (C.takes_clauses store.old) }
    requires room { length (C.clauses store.old) < 2 ^ 32 - 1 }
    ensures ok { OnOk result (C.clauses store.new ≡ C.clauses store.old ++ lits.now ∷ []) }
    ensures valid { OnOk result (IsClause (C.variables store.old) lits.now) }
    ensures err { OnErr result (C.clauses store.new ≡ C.clauses store.old) }
    ensures out_of_range { (result ≡ Err PushFault.VariableOutOfRange)
        ↔ (has_outside (C.variables store.old) lits.now ≡ true) }
    ensures doubled { (result ≡ Err PushFault.Doubled)
        ↔ ((has_outside (C.variables store.old) lits.now ≡ false) × (has_double lits.now ≡ true)) }
    ensures empty { (result ≡ Err PushFault.Empty) ↔ (lits.now ≡ []) }
    ensures full { (need : ℕ) → result ≡ Err (PushFault.Full need) →
        C.overflow store.old (C.clauses store.old ++ lits.now ∷ []) ≡ Some need }
    ensures fits { OnOk result (C.overflow store.old (C.clauses store.old ++ lits.now ∷ []) ≡ None) }
    ensures variables_kept { C.variables store.new ≡ C.variables store.old }
    ensures takes_kept { C.takes_clauses store.new ≡ C.takes_clauses store.old }
    ensures overflow_kept { (all : List (List ℕ)) → C.overflow store.new all ≡ C.overflow store.old all }
{
    store.push(lits)
}

/// [`pv_cnf::holds`].
pub fn holds<F: ClauseView, V: Values>(f: &F, values: &V) -> bool
    requires { F.variables f.now ≤ V.assigned values.now }
    ensures { IsTrue result ↔ Holds (V.truth values.now) (F.clauses f.now) }
{
    pv_cnf::holds(f, values)
}
