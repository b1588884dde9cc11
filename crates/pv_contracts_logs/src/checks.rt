//! The checker of pv_log.
ghost use Rattle.std.specs.Prelude.{◌≡◌, ◌↔◌, ℕ, Bool, ◌≤◌, Ok, IfOk};
ghost use Rattle.pv_cnf.specs.Clause.{Holds};
ghost use Rattle.pv_log.specs.declared.fault.LineFault.{LineFault};
ghost use Rattle.pv_log.specs.Follows.{Follows, fault_of, IsAccepted, LacksEmpty, FailsFirst};
ghost use Rattle.pv_log.specs.Newness.{FollowsNew, new_fault_of};

use pv_cnf::ClauseView;
use pv_log::{Checker, LogView, Verdict};
use std::alloc::{AllocError, Global};

/// [`Checker::check`].
pub fn check<F: ClauseView, L: LogView>(checker: &mut Checker, f: &F, log: &L) -> Verdict
    requires { F.variables f.now ≤ checker.old }
    ensures refuted { result ≡ Verdict.Accepted → (values : ℕ → Bool) → Holds values (F.clauses f.now) → ⊥ }
    ensures accepted { (result ≡ Verdict.Accepted)
        ↔ IsAccepted (Follows (F.variables f.now)) (F.clauses f.now) (L.all_lines log.now) }
    ensures no_empty { (result ≡ Verdict.NoEmpty)
        ↔ LacksEmpty (Follows (F.variables f.now)) (F.clauses f.now) (L.all_lines log.now) }
    ensures refused { (n : ℕ) (kind : LineFault) → (result ≡ Verdict.Refused n kind)
        ↔ FailsFirst (fault_of (F.variables f.now)) (F.clauses f.now) (L.all_lines log.now) n kind }
    ensures unchanged { checker.new ≡ checker.old }
{
    checker.check(f, log)
}

/// [`Checker::check_new`].
pub fn check_new<F: ClauseView, L: LogView>(
    checker: &mut Checker,
    alloc: Global,
    f: &F,
    log: &L,
) -> Result<Verdict, AllocError>
    requires { F.variables f.now ≤ checker.old }
    ensures refuted { result ≡ Ok Verdict.Accepted → (values : ℕ → Bool)
        → Holds values (F.clauses f.now) → ⊥ }
    ensures accepted { IfOk result (λ verdict. (verdict ≡ Verdict.Accepted)
        ↔ IsAccepted (FollowsNew (F.variables f.now)) (F.clauses f.now) (L.all_lines log.now)) }
    ensures no_empty { IfOk result (λ verdict. (verdict ≡ Verdict.NoEmpty)
        ↔ LacksEmpty (FollowsNew (F.variables f.now)) (F.clauses f.now) (L.all_lines log.now)) }
    ensures refused { IfOk result (λ verdict. (n : ℕ) (kind : LineFault)
        → (verdict ≡ Verdict.Refused n kind) ↔ FailsFirst (new_fault_of (F.variables f.now))
        (F.clauses f.now) (L.all_lines log.now) n kind) }
    ensures unchanged { checker.new ≡ checker.old }
{
    checker.check_new(alloc, f, log)
}
