//! The search: propagate to the end, decide, and learn of each conflict.
ghost use Rattle.std.specs.Prelude.{◌≡◌, ℕ, ◌*◌, ◌^◌, ◌<◌, ◌≤◌, false, [], length, take, Err, IfOk, IfSome, IfNone};
ghost use Rattle.std.specs.List.{AllByRecursion};
ghost use Rattle.pv_cnf.specs.Clause.{has_outside};
ghost use Rattle.pv_region.specs.Stored.{all_lits};
ghost use Rattle.pv_watch.specs.Trail.{IsSound};
ghost use Rattle.pv_watch.specs.Quiet.{IsQuiet, AreQuiet, IsConflict};
ghost use Rattle.pv_watch.specs.Watched.{IsReady};
ghost use Rattle.pv_watch.specs.Turns.{SameText};
ghost use Rattle.pv_solver.specs.Answers.{Problem};
ghost use Rattle.pv_learn.specs.Learning.{IsNext};
ghost use Rattle.pv_solver.specs.Search.{AllSet, StepsBack, GoesBack};
ghost use Rattle.pv_solver.specs.States.{problem_in, line_in, IsFresh, IsUnderWay, IsSearching, HasLearned, HasEnded, Turns};

use crate::pick::pick;
use crate::restarts::Restarts;
use pv_learn::{Analysis, Draft, Look, look_at, make_last, make_lemma};
use pv_log::Checker;
use pv_order::Order;
use pv_region::MakeFault;
use pv_watch::{Propagator, Trail};
use std::alloc::Global;

/// A search with what it has found. All its memory is taken when it is made.
#[derive(Drop)]
pub(crate) struct Search {
    /// The clauses, the lemmas, and which literals are false.
    pub(crate) propagator: Propagator,
    /// The line at hand.
    pub(crate) draft: Draft,
    analysis: Analysis,
    order: Order,
    checker: Checker,
    restarts: Restarts,
    /// How many lemmas may be learned.
    pub(crate) lemmas: u32,
}

/// How a search ends.
#[derive(Clone, Copy, Debug)]
pub(crate) enum End {
    /// Each variable has a value, and no clause is false.
    Settled,
    /// The line at hand is the empty one that ends the log.
    Refuted,
    /// As many lemmas were learned as may be.
    NoLemma,
    /// There is no room for the line at hand, with which so many words would be in use.
    NoRoom(u64),
}

/// Propagates and decides up to a conflict, or until each variable has a value.
fn descend(propagator: &mut Propagator, order: &mut Order) -> Option<u32>
    requires { IsReady (all_lits propagator.old.stored) propagator.old.path }
    ensures text { SameText propagator.old.stored propagator.new.stored }
    ensures variables { propagator.new.path.variables ≡ propagator.old.path.variables }
    ensures ready { IsReady (all_lits propagator.new.stored) propagator.new.path }
    ensures conflict { IfSome result (IsConflict (all_lits propagator.new.stored) propagator.new.path.falses) }
    ensures quiet { IfNone result (AreQuiet propagator.new.path.falses (all_lits propagator.new.stored)) }
    ensures set { IfNone result (AllSet propagator.new.path.variables propagator.new.path.falses) }
{
    'levels: loop {
        match propagator.propagate() {
            Some(n) => return Some(n),
            None => {}
        }
        match pick(order, propagator.trail()) {
            None => return None,
            Some(lit) => propagator.decide(lit),
        }
        let _ = propagator.trail().len();
    }
}

/// How many of the first decisions there are, before each of which the clause is quiet.
fn quiet_starts(trail: &Trail, lits: &[u32]) -> usize
    requires { has_outside trail.now.variables lits.now ≡ false }
    ensures bound { result ≤ length trail.now.starts }
    ensures quiet { AllByRecursion (λ s. IsQuiet (take s trail.now.falses) lits.now)
        (take result trail.now.starts) }
{
    let mut keep = 0;
    for start in trail.starts() {
        match look_at(trail, *start, lits) {
            Look::Quiet => keep += 1,
            _ => break,
        }
    }
    keep
}

/// How many of the first decisions stay where the clause is learned: those before which it is quiet, or none
/// where it is time to begin anew.
fn kept_starts(restarts: &mut Restarts, trail: &Trail, lits: &[u32]) -> usize
    requires { has_outside trail.now.variables lits.now ≡ false }
    ensures bound { result ≤ length trail.now.starts }
    ensures quiet { AllByRecursion (λ s. IsQuiet (take s trail.now.falses) lits.now)
        (take result trail.now.starts) }
{
    if restarts.is_due() {
        return 0;
    }
    quiet_starts(trail, lits)
}

/// Takes the last decision back.
fn undo(propagator: &mut Propagator, order: &mut Order)
    requires { 0 < length propagator.old.path.starts }
    ensures stored { propagator.new.stored ≡ propagator.old.stored }
    ensures back { StepsBack propagator.old.path propagator.new.path }
    ensures ended { propagator.new.done ≡ length propagator.new.path.falses }
{
    let trail = propagator.trail();
    let start = trail.last_start();
    order.take_back(&trail.falses()[start..]);
    propagator.undo();
}

/// Takes all decisions back but the first `keep`.
fn undo_to(propagator: &mut Propagator, order: &mut Order, keep: usize)
    requires { keep ≤ length propagator.old.path.starts }
    ensures stored { propagator.new.stored ≡ propagator.old.stored }
    ensures back { GoesBack keep propagator.old.path propagator.new.path }
    ensures ended { keep < length propagator.old.path.starts
        → propagator.new.done ≡ length propagator.new.path.falses }
{
    'levels: while propagator.trail().starts().len() > keep {
        undo(propagator, order);
    }
}

impl Search {
    /// A search without clauses over the variables 1 to `variables`, with room for `words` words, that learns at
    /// most `lemmas` lemmas.
    pub(crate) fn new(
        alloc: Global,
        variables: u32,
        words: u64,
        lemmas: u32,
    ) -> Result<Search, MakeFault>
        requires { words ≤ 250000000 }
        ensures fresh { IfOk result IsFresh }
        ensures problem { IfOk result (λ s. problem_in s ≡ record {
          variables = variables;
          clauses = [];
          words = words;
          lemmas = lemmas;
        }) }
        ensures full { (need : ℕ) → result ≡ Err (MakeFault.Full need) → (need ≡ 2 * variables) × (words < need) }
        ensures fits { IfOk result (λ _. 2 * variables ≤ words) }
        ensures small { IfOk result (λ _. variables < 2 ^ 31) }
    {
        let propagator = match Propagator::make(alloc, words, variables) {
            Ok(propagator) => propagator,
            Err(fault) => return Err(fault),
        };
        let _ = propagator.region().used();
        let count = propagator.trail().variables();
        let draft = Draft::new(alloc, count)?;
        let analysis = Analysis::new(alloc, count)?;
        let order = Order::new(alloc, count)?;
        let checker = Checker::make(alloc, count)?;
        Ok(Search {
            propagator,
            draft,
            analysis,
            order,
            checker,
            restarts: Restarts::new(),
            lemmas,
        })
    }

    /// Ends the log with the empty line, of a conflict without a decision.
    fn refute(&mut self, conflict: u32)
        requires under_way { (p : Problem) × IsUnderWay p self.old }
        requires undecided { self.old.propagator.path.starts ≡ [] }
        requires sound { IsSound (all_lits self.old.propagator.stored) self.old.propagator.path }
        requires conflict { IsConflict (all_lits self.old.propagator.stored)
            self.old.propagator.path.falses conflict }
        ensures { (p : Problem) → IsUnderWay p self.old → HasEnded p self.new End.Refuted }
    {
        make_last(
            &mut self.draft,
            &mut self.analysis,
            &mut self.checker,
            &self.propagator,
            &mut self.order,
            conflict,
        );
    }

    /// Learns the line at hand, or tells how many words would be in use with it, more than there are.
    fn learn(&mut self) -> Option<u64>
        requires searching { (p : Problem) × IsSearching p self.old }
        requires next { IsNext self.old.propagator.stored.variables (all_lits self.old.propagator.stored)
            self.old.propagator.path (line_in self.old) }
        requires left { length self.old.propagator.stored.lemmas < self.old.lemmas }
        ensures learned { IfNone result ((p : Problem) → IsSearching p self.old → HasLearned p self.old self.new) }
        ensures full { IfSome result (λ need. (p : Problem) → IsSearching p self.old
            → HasEnded p self.new (End.NoRoom need)) }
    {
        let region = self.propagator.region();
        let _ = region.used();
        let keep = kept_starts(
            &mut self.restarts,
            self.propagator.trail(),
            self.draft.lits.as_slice(),
        );
        undo_to(&mut self.propagator, &mut self.order, keep);
        self.order.decay();
        match self
            .propagator
            .learn(self.draft.lits.as_slice(), self.draft.hints.as_slice())
        {
            Ok(_) => None,
            Err(full) => Some(full.need),
        }
    }

    /// Learns a lemma of a false clause, or ends.
    fn turn(&mut self, conflict: u32) -> Option<End>
        requires searching { (p : Problem) × IsSearching p self.old }
        requires conflict { IsConflict (all_lits self.old.propagator.stored)
            self.old.propagator.path.falses conflict }
        ensures { (p : Problem) → IsSearching p self.old → Turns p self.old self.new result }
    {
        if self.propagator.trail().starts().is_empty() {
            self.refute(conflict);
            return Some(End::Refuted);
        }
        if self.propagator.region().lemmas() == self.lemmas {
            return Some(End::NoLemma);
        }
        make_lemma(
            &mut self.draft,
            &mut self.analysis,
            &mut self.checker,
            &self.propagator,
            &mut self.order,
            conflict,
        );
        match self.learn() {
            None => None,
            Some(need) => Some(End::NoRoom(need)),
        }
    }

    /// Goes on until it ends.
    fn go_on(&mut self) -> End
        requires { (p : Problem) × IsSearching p self.old }
        ensures { (p : Problem) → IsSearching p self.old → HasEnded p self.new result }
    {
        'conflicts: loop {
            let conflict = match descend(&mut self.propagator, &mut self.order) {
                Some(conflict) => conflict,
                None => return End::Settled,
            };
            match self.turn(conflict) {
                Some(end) => return end,
                None => {}
            }
        }
    }

    /// Searches until it ends.
    pub(crate) fn run(&mut self) -> End
        requires { IsFresh self.old }
        ensures { HasEnded (problem_in self.old) self.new result }
    {
        match self.propagator.begin() {
            Some(conflict) => {
                self.refute(conflict);
                return End::Refuted;
            }
            None => {}
        }
        self.go_on()
    }
}
