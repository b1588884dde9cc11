//! The checker of logs: its lines tried in order.
ghost use Rattle.std.specs.Prelude.{◌≡◌, ◌↔◌, ℕ, ◌+◌, ◌*◌, ◌<◌, ◌≤◌, ◌^◌, Bool, List, [], ◌∷◌, length, Ok, IfOk};
ghost use Rattle.pv_cnf.specs.Clause.{Holds};
ghost use Rattle.pv_log.specs.declared.fault.LineFault.{LineFault};
ghost use Rattle.pv_log.specs.Follows.{Follows, fault_of, IsAccepted, LacksEmpty, FailsFirst};
ghost use Rattle.pv_log.specs.Newness.{FollowsNew, new_fault_of};
ghost use Rattle.pv_log.specs.Checking.{EndsAs, Says};

use crate::assignment::Assignment;
use crate::fault::Verdict;
use crate::follow::check_line;
use crate::newness::{check_new_line, file_formula};
use crate::view::LogView;
use pv_cnf::ClauseView;
use std::alloc::{AllocError, Global};
use std::marker::Model;

/// A checker of logs. Contracts see it as the number of variables that it can have.
#[derive(Drop)]
pub struct Checker {
    values: Assignment,
}

impl Model for Checker {
    ghost Value = { ℕ };

    ghost view = { λ c. c.values.variables };

    ghost invariant = { λ c. c.values.falses ≡ [] };
}

/// The verdict on a log once each line follows.
fn ending<L: LogView>(log: &L) -> Verdict
    ensures { EndsAs (L.all_lines log.now) result }
{
    let lines = log.lines();
    if lines > 0 && log.lits(lines).is_empty() {
        Verdict::Accepted
    } else {
        Verdict::NoEmpty
    }
}

/// Tries the lines in order.
fn verdict<F: ClauseView, L: LogView>(values: &mut Assignment, f: &F, log: &L) -> Verdict
    requires enough { F.variables f.now ≤ values.old.variables }
    requires none { values.old.falses ≡ [] }
    ensures variables { values.new.variables ≡ values.old.variables }
    ensures none { values.new.falses ≡ [] }
    ensures says { Says (Follows (F.variables f.now)) (fault_of (F.variables f.now))
        (F.clauses f.now) (L.all_lines log.now) result }
{
    for n in 0..log.lines() {
        if let Err(kind) = check_line(values, f, log, n) {
            return Verdict::Refused { line: n + 1, kind };
        }
    }
    ending(log)
}

/// Tries the lines in order, which also have to be new.
fn new_verdict<F: ClauseView, L: LogView>(
    alloc: Global,
    values: &mut Assignment,
    f: &F,
    log: &L,
) -> Result<Verdict, AllocError>
    requires enough { F.variables f.now ≤ values.old.variables }
    requires none { values.old.falses ≡ [] }
    ensures variables { values.new.variables ≡ values.old.variables }
    ensures none { values.new.falses ≡ [] }
    ensures says { IfOk result (Says (FollowsNew (F.variables f.now))
        (new_fault_of (F.variables f.now)) (F.clauses f.now) (L.all_lines log.now)) }
{
    let mut filing = file_formula(alloc, f)?;
    for n in 0..log.lines() {
        if let Err(kind) = check_new_line(values, &filing, f, log, n) {
            return Ok(Verdict::Refused { line: n + 1, kind });
        }
        filing.add(log.lits(n + 1))?;
    }
    Ok(ending(log))
}

impl Checker {
    /// A checker for formulas with at most this many variables. It takes all memory that it needs.
    pub fn make(alloc: Global, variables: u32) -> Result<Checker, AllocError>
        requires { variables < 2 ^ 31 }
        ensures { IfOk result (λ c. c ≡ variables) }
    {
        let values = Assignment::new(alloc, variables)?;
        Ok(Checker { values })
    }

    /// Checks a log against a formula with no more variables than the checker's. A line costs its own length
    /// and the lengths of the clauses that its hints name.
    pub fn check<F: ClauseView, L: LogView>(&mut self, f: &F, log: &L) -> Verdict
        requires { F.variables f.now ≤ self.old }
        // An accepted log shows that no values make the formula hold.
        ensures refuted { result ≡ Verdict.Accepted → (values : ℕ → Bool) → Holds values (F.clauses f.now) → ⊥ }

        ensures accepted { (result ≡ Verdict.Accepted)
            ↔ IsAccepted (Follows (F.variables f.now)) (F.clauses f.now) (L.all_lines log.now) }
        ensures no_empty { (result ≡ Verdict.NoEmpty)
            ↔ LacksEmpty (Follows (F.variables f.now)) (F.clauses f.now) (L.all_lines log.now) }
        ensures refused { (n : ℕ) (kind : LineFault) → (result ≡ Verdict.Refused n kind)
            ↔ FailsFirst (fault_of (F.variables f.now)) (F.clauses f.now) (L.all_lines log.now) n kind }

        ensures unchanged { self.new ≡ self.old }
    {
        verdict(&mut self.values, f, log)
    }
    /// Checks a log as `check` does, and besides that each line is new: no clause of the formula and no earlier
    /// line has all its literals among the line's. At a line `NotNew` comes after all else. A line also costs the
    /// clauses that are filed under one of its literals; a clause is filed under that one of its own under which
    /// the fewest are, and takes four bytes, as many as three for each literal that the formula could have.
    pub fn check_new<F: ClauseView, L: LogView>(
        &mut self,
        alloc: Global,
        f: &F,
        log: &L,
    ) -> Result<Verdict, AllocError>
        requires { F.variables f.now ≤ self.old }
        // An accepted log shows that no values make the formula hold.
        ensures refuted { result ≡ Ok Verdict.Accepted → (values : ℕ → Bool)
            → Holds values (F.clauses f.now) → ⊥ }

        ensures accepted { IfOk result (λ verdict. (verdict ≡ Verdict.Accepted)
            ↔ IsAccepted (FollowsNew (F.variables f.now)) (F.clauses f.now) (L.all_lines log.now)) }
        ensures no_empty { IfOk result (λ verdict. (verdict ≡ Verdict.NoEmpty)
            ↔ LacksEmpty (FollowsNew (F.variables f.now)) (F.clauses f.now) (L.all_lines log.now)) }
        ensures refused { IfOk result (λ verdict. (n : ℕ) (kind : LineFault)
            → (verdict ≡ Verdict.Refused n kind) ↔ FailsFirst (new_fault_of (F.variables f.now))
            (F.clauses f.now) (L.all_lines log.now) n kind) }

        ensures unchanged { self.new ≡ self.old }
    {
        new_verdict(alloc, &mut self.values, f, log)
    }
}
