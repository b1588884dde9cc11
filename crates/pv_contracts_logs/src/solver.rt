//! Calls of pv_solver.
ghost use Rattle.std.specs.Prelude.{◌≡◌, ℕ, ◌*◌, ◌<◌, ◌≤◌, [], Err, Some, None, IfOk, IsSome};
ghost use Rattle.pv_cnf.specs.Clause.{Holds};
ghost use Rattle.pv_log.specs.declared.line.Line.{Line};
ghost use Rattle.pv_log.specs.Follows.{Follows, IsAccepted};
ghost use Rattle.pv_solver.specs.Answers.{truth_of, HasSpentLemmas, HasSpentRegion, lines_of, values_of, next_of, answer_of};

use pv_log::Line;
use pv_solver::{Answer, MakeFault, Solver};
use std::alloc::Global;

/// [`Solver::make`].
pub fn make(alloc: Global, variables: u32, words: u64, lemmas: u32) -> Result<Solver, MakeFault>
    requires words { words ≤ 250000000 }
    requires lemmas { 1 ≤ lemmas }
    ensures ok { IfOk result (λ s. s ≡ record {
      problem = record {
        variables = variables;
        clauses = [];
        words = words;
        lemmas = lemmas;
      };
      outcome = None;
    }) }
    ensures full { (need : ℕ) → result ≡ Err (MakeFault.Full need) → (need ≡ 2 * variables) × (words < need) }
    ensures fits { IfOk result (λ _. 2 * variables ≤ words) }
{
    Solver::make(alloc, variables, words, lemmas)
}

/// [`Solver::solve`].
pub fn solve(solver: &mut Solver) -> Answer
    ensures answered { answer_of solver.new.outcome ≡ Some result }
    ensures problem { solver.new.problem ≡ solver.old.problem }
    ensures again { (a : Answer) → answer_of solver.old.outcome ≡ Some a → (result ≡ a) × (solver.new ≡ solver.old) }
    ensures sat { result ≡ Answer.Sat →
        Holds (truth_of (values_of solver.new.outcome)) solver.new.problem.clauses }
    ensures unsat { result ≡ Answer.Unsat → IsAccepted (Follows solver.new.problem.variables)
        solver.new.problem.clauses (lines_of solver.new.outcome) }
    ensures spent_lemmas { result ≡ Answer.SpentLemmas →
        HasSpentLemmas solver.new.problem (lines_of solver.new.outcome) }
    ensures spent_region { (need : ℕ) → result ≡ Answer.SpentRegion need →
        (next : Line) → next_of solver.new.outcome ≡ Some next →
        HasSpentRegion solver.new.problem (lines_of solver.new.outcome) next need }
{
    solver.solve()
}

/// [`Solver::next`].
pub fn next(solver: &Solver) -> &Line
    requires { IsSome (next_of solver.now.outcome) }
    ensures { next_of solver.now.outcome ≡ Some result.now }
{
    solver.next()
}
