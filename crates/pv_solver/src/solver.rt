//! The solver: a store of clauses, a log and values.
ghost use Rattle.std.specs.Prelude.{◌≡◌, ℕ, ◌*◌, ◌<◌, ◌≤◌, [], Err, Some, None, IfOk, IsSome};
ghost use Rattle.pv_cnf.specs.Clause.{Holds};
ghost use Rattle.pv_log.specs.Follows.{Follows, IsAccepted};
ghost use Rattle.pv_solver.specs.Answers.{Solving, truth_of, HasSpentLemmas, HasSpentRegion, lines_of, values_of, next_of, answer_of};
ghost use Rattle.pv_solver.specs.Logged.{extra_as};
ghost use Rattle.pv_solver.specs.States.{answer_as};

use crate::answer::Answer;
use crate::search::{End, Search};
use pv_cnf::{ClauseView, Clauses, Formula, PushFault, Values};
use pv_learn::next_id;
use pv_log::{Line, LogView, Numbers};
use pv_region::MakeFault;
use std::alloc::Global;
use std::marker::Model;

/// A solver: a formula with two limits, and what was found of it. Of its calls `make` alone takes memory.
#[derive(Drop)]
pub struct Solver {
    alloc: Global,
    /// A formula without clauses, which says what is wrong with one.
    blank: Formula,
    search: Search,
    found: Option<Answer>,
    /// After Unsat the empty line, after SpentRegion the lemma for which there was no room.
    last: Line,
}

impl Model for Solver {
    ghost use Rattle.std.specs.Prelude.{◌≡◌, ◌<◌, ◌^◌};
    ghost use Rattle.pv_solver.specs.Answers.{Solving};
    ghost use Rattle.pv_solver.specs.States.{problem_in, outcome_in, IsKept};

    ghost Value = { Solving };

    ghost view = { λ s. record { problem = problem_in s.search; outcome = outcome_in s.search s.last s.found } };

    ghost invariant = { λ s. record {
      small : s.search.propagator.stored.variables < 2 ^ 31;
      blank : s.blank.variables ≡ s.search.propagator.stored.variables;
      kept : IsKept s.search s.last s.found;
    } };
}

/// What an end answers.
fn answer_for(end: End) -> Answer
    ensures { result ≡ answer_as end }
{
    match end {
        End::Settled => Answer::Sat,
        End::Refuted => Answer::Unsat,
        End::NoLemma => Answer::SpentLemmas,
        End::NoRoom(need) => Answer::SpentRegion { need },
    }
}

/// How many lines of the log lie outside the region with an answer: after Unsat the empty one does.
fn extra(answer: Answer) -> u32
    ensures { result ≡ extra_as answer }
{
    match answer {
        Answer::Sat => 0,
        Answer::Unsat => 1,
        Answer::SpentLemmas => 0,
        Answer::SpentRegion { need: _ } => 0,
    }
}

/// A line without literals that stands for none.
fn no_line(alloc: Global) -> Line {
    Line {
        id: 0,
        lits: Numbers::new(alloc),
        hints: Numbers::new(alloc),
    }
}

impl Solver {
    /// A solver without clauses over the variables 1 to `variables`, with room for `words` words, at most
    /// 250,000,000 (two for each variable, three and its length for each clause, four and the lengths of its
    /// literals and hints for each lemma), that learns at most `lemmas` lemmas, at least 1.
    pub fn make(alloc: Global, variables: u32, words: u64, lemmas: u32) -> Result<Solver, MakeFault>
        requires words { words ≤ 250000000 }
        requires lemmas { 1 ≤ lemmas }
        ensures ok { IfOk result (λ s. s ≡ record {
          problem = record {
            variables = variables;
            clauses = [];
            words = words;
            lemmas = lemmas;
          };
          outcome = None;
        }) }
        ensures full { (need : ℕ) → result ≡ Err (MakeFault.Full need) → (need ≡ 2 * variables) × (words < need) }
        ensures fits { IfOk result (λ _. 2 * variables ≤ words) }
    {
        let search = match Search::new(alloc, variables, words, lemmas) {
            Ok(search) => search,
            Err(fault) => return Err(fault),
        };
        let blank = Formula::make(alloc, variables)?;
        Ok(Solver {
            alloc,
            blank,
            search,
            found: None,
            last: no_line(alloc),
        })
    }

    /// Sets how many lemmas may be learned, at least 1, as long as there is no answer. A push through `Clauses` says nothing of this
    /// limit.
    pub fn set_lemmas(&mut self, lemmas: u32)
        requires unanswered { self.old.outcome ≡ None }
        requires some { 1 ≤ lemmas }
        ensures { self.new ≡ record { problem = record self.old.problem { lemmas = lemmas }; outcome = None } }
    {
        self.search.lemmas = lemmas;
    }

    /// Decides whether some values make the clauses hold. After an answer each further call gives the same.
    pub fn solve(&mut self) -> Answer
        ensures answered { answer_of self.new.outcome ≡ Some result }
        ensures problem { self.new.problem ≡ self.old.problem }
        ensures again { (a : Answer) → answer_of self.old.outcome ≡ Some a → (result ≡ a) × (self.new ≡ self.old) }

        ensures sat { result ≡ Answer.Sat →
            Holds (truth_of (values_of self.new.outcome)) self.new.problem.clauses }
        ensures unsat { result ≡ Answer.Unsat → IsAccepted (Follows self.new.problem.variables)
            self.new.problem.clauses (lines_of self.new.outcome) }
        ensures spent_lemmas { result ≡ Answer.SpentLemmas →
            HasSpentLemmas self.new.problem (lines_of self.new.outcome) }
        ensures spent_region { (need : ℕ) → result ≡ Answer.SpentRegion need →
            (next : Line) → next_of self.new.outcome ≡ Some next →
            HasSpentRegion self.new.problem (lines_of self.new.outcome) next need }
    {
        match self.found {
            Some(answer) => return answer,
            None => {}
        }
        let end = self.search.run();
        let id = next_id(&self.search.propagator);
        self.last = self.search.draft.line(self.alloc, id);
        let answer = answer_for(end);
        self.found = Some(answer);
        answer
    }

    /// The lemma for which there was no room.
    pub fn next(&self) -> &Line
        requires { IsSome (next_of self.now.outcome) }
        ensures { next_of self.now.outcome ≡ Some result.now }
    {
        &self.last
    }
}

impl Clauses for Solver {
    ghost use Rattle.std.specs.Prelude.{is_none};
    ghost use Rattle.pv_solver.specs.Costs.{words_of, past};

    ghost variables = { λ s. s.problem.variables };

    ghost clauses = { λ s. s.problem.clauses };

    ghost takes_clauses = { λ s. is_none s.outcome };

    ghost overflow = { λ s all. past s.problem.words (words_of s.problem.variables all) };

    fn push(&mut self, lits: &[u32]) -> Result<(), PushFault> {
        match self.blank.fault(lits) {
            Some(fault) => return Err(fault),
            None => {}
        }
        match self.search.propagator.put_clause(lits) {
            Ok(_) => {}
            Err(full) => return Err(PushFault::Full { need: full.need }),
        }
        let _ = self.search.propagator.region().used();
        Ok(())
    }
}

impl ClauseView for Solver {
    ghost variables = { λ s. s.problem.variables };

    ghost clauses = { λ s. s.problem.clauses };

    fn variables(&self) -> u32 {
        self.blank.variables()
    }

    fn count(&self) -> u32 {
        self.search.propagator.region().clauses()
    }

    fn clause(&self, n: u32) -> &[u32] {
        self.search.propagator.region().lits(n)
    }
}

impl LogView for Solver {
    ghost use Rattle.pv_solver.specs.Answers.{lines_of};

    ghost all_lines = { λ s. lines_of s.outcome };

    fn lines(&self) -> u32 {
        let _ = next_id(&self.search.propagator);
        let lemmas = self.search.propagator.region().lemmas();
        match self.found {
            Some(answer) => lemmas + extra(answer),
            None => 0,
        }
    }

    fn id(&self, n: u32) -> u32 {
        let _ = next_id(&self.search.propagator);
        let region = self.search.propagator.region();
        if n > region.lemmas() {
            return self.last.id;
        }
        region.clauses() + n
    }

    fn lits(&self, n: u32) -> &[u32] {
        let _ = next_id(&self.search.propagator);
        let region = self.search.propagator.region();
        if n > region.lemmas() {
            return self.last.lits.as_slice();
        }
        region.lits(region.clauses() + n)
    }

    fn hints(&self, n: u32) -> &[u32] {
        let _ = next_id(&self.search.propagator);
        let region = self.search.propagator.region();
        if n > region.lemmas() {
            return self.last.hints.as_slice();
        }
        region.hints(region.clauses() + n)
    }
}

impl Values for Solver {
    ghost use Rattle.pv_solver.specs.Answers.{truth_of, values_of, assigned_of};

    ghost assigned = { λ s. assigned_of s };

    ghost truth = { λ s. truth_of (values_of s.outcome) };

    fn value(&self, v: u32) -> bool {
        self.search.propagator.trail().is_false(2 * v + 1)
    }
}
