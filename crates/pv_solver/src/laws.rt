//! Laws of limits that are spent.
ghost use Rattle.std.specs.Prelude.{ℕ, ◌+◌, ◌*◌, ◌^◌, ◌<◌, List, []};
ghost use Rattle.pv_cnf.specs.Clause.{AreClauses};
ghost use Rattle.pv_log.specs.declared.line.Line.{Line};
ghost use Rattle.pv_log.specs.Propagation.{LeadsToFalse};
ghost use Rattle.pv_solver.specs.Costs.{words_of};
ghost use Rattle.pv_solver.specs.Answers.{Problem, HasSpentLemmas, HasSpentRegion};

/// A law: three to the number of variables is more lemmas than can be spent, and with the formula's words so many
/// times five and twice the variables more words than can be.
pub fn limits_that_suffice()
    ensures lemmas { (p : Problem) (lines : List Line) → HasSpentLemmas p lines → p.lemmas < 3 ^ p.variables }
    ensures words { (p : Problem) (lines : List Line) (next : Line) (need : ℕ) → AreClauses p.variables p.clauses
        → HasSpentRegion p lines next need
        → p.words < words_of p.variables p.clauses + 3 ^ p.variables * (2 * p.variables + 5) }
{}

/// A law: no limit is spent where unit propagation over the clauses alone makes one of them false.
pub fn propagation_spends_nothing()
    ensures lemmas { (p : Problem) (lines : List Line) (hints : List ℕ) → LeadsToFalse p.clauses [] hints
        → HasSpentLemmas p lines → ⊥ }
    ensures words { (p : Problem) (lines : List Line) (next : Line) (need : ℕ) (hints : List ℕ)
        → LeadsToFalse p.clauses [] hints → HasSpentRegion p lines next need → ⊥ }
{}
