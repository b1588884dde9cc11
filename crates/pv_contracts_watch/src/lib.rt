//! Contract tests of pv_watch: each call whose clauses are no equation of its answer once more, with the clauses of its library.
#![tactic(auto)]

ghost use Rattle.std.specs.Prelude.{◌≡◌, ◌↔◌, ℕ, ◌+◌, ◌*◌, ◌<◌, ◌≤◌, false, List, [], ◌∷◌, ◌++◌, length, take, replicate, IfOk, OnOk, OnErr, IfSome, IfNone, ◌^◌, Some, slice_index_or};
ghost use Rattle.std.specs.List.{AllByRecursion};
ghost use Rattle.pv_cnf.specs.Literal.{complement, is_outside};
ghost use Rattle.pv_cnf.specs.Clause.{IsClause};
ghost use Rattle.pv_log.specs.Propagation.{is_false, unit_of};
ghost use Rattle.pv_region.specs.Stored.{clause_cost, lemma_cost, Passes, count_of, all_lits, with_clause, with_lemma};
ghost use Rattle.pv_watch.specs.Trail.{Extends, LastIs, Rise};
ghost use Rattle.pv_watch.specs.Quiet.{IsQuiet, AreQuiet, IsConflict};
ghost use Rattle.pv_watch.specs.Watched.{IsReady};
ghost use Rattle.pv_watch.specs.Turns.{GoesOn, SameText, HasUnset};

use pv_region::{Full, MakeFault};
use pv_watch::{Propagator, Trail};
use std::alloc::Global;

/// [`Propagator::make`].
pub fn make(alloc: Global, words: u64, variables: u32) -> Result<Propagator, MakeFault>
    requires { words ≤ 250000000 }
    ensures stored { IfOk result (λ p. p.stored ≡ record {
      variables = variables;
      capacity = words;
      clauses = [];
      lemmas = [];
      lists = replicate (2 * variables) [];
    }) }
    ensures falses { IfOk result (λ p. p.path.falses ≡ []) }
    ensures starts { IfOk result (λ p. p.path.starts ≡ []) }
    ensures full { (need : ℕ) → (result ≡ Err (MakeFault.Full need))
        ↔ ((need ≡ 2 * variables) × (words < need)) }
{
    Propagator::make(alloc, words, variables)
}

/// [`Propagator::put_clause`].
pub fn put_clause(propagator: &mut Propagator, lits: &[u32]) -> Result<u32, Full>
    requires early { propagator.old.path.falses ≡ [] }
    requires lemmas { propagator.old.stored.lemmas ≡ [] }
    requires valid { IsClause propagator.old.stored.variables lits.now }
    ensures id { IfOk result (λ id. id ≡ count_of propagator.old.stored + 1) }
    ensures ok { OnOk result (SameText (with_clause propagator.old.stored lits.now) propagator.new.stored) }
    ensures path { propagator.new.path ≡ propagator.old.path }
    ensures err { OnErr result (propagator.new ≡ propagator.old) }
    ensures full { (need : ℕ) → (result ≡ Err (record { need = need }))
        ↔ Passes propagator.old.stored (clause_cost lits.now) need }
{
    propagator.put_clause(lits)
}

/// [`Propagator::begin`].
pub fn begin(propagator: &mut Propagator) -> Option<u32>
    requires early { propagator.old.path.falses ≡ [] }
    requires undecided { propagator.old.path.starts ≡ [] }
    ensures goes { GoesOn propagator.old.stored propagator.new.stored propagator.old.path propagator.new.path }
    ensures ready { IfNone result (IsReady (all_lits propagator.new.stored) propagator.new.path) }
    ensures conflict { IfSome result (IsConflict (all_lits propagator.new.stored) propagator.new.path.falses) }
{
    propagator.begin()
}

/// [`Propagator::propagate`].
pub fn propagate(propagator: &mut Propagator) -> Option<u32>
    requires ready { IsReady (all_lits propagator.old.stored) propagator.old.path }
    ensures goes { GoesOn propagator.old.stored propagator.new.stored propagator.old.path propagator.new.path }
    ensures ready { IsReady (all_lits propagator.new.stored) propagator.new.path }
    ensures ended { IfNone result (propagator.new.done ≡ length propagator.new.path.falses) }
    ensures quiet { IfNone result (AreQuiet propagator.new.path.falses (all_lits propagator.new.stored)) }
    ensures conflict { IfSome result (IsConflict (all_lits propagator.new.stored) propagator.new.path.falses) }
{
    propagator.propagate()
}

/// [`Propagator::decide`].
pub fn decide(propagator: &mut Propagator, lit: u32)
    requires inside { is_outside propagator.old.path.variables lit ≡ false }
    requires not_false { is_false propagator.old.path.falses lit ≡ false }
    requires not_true { is_false propagator.old.path.falses (complement lit) ≡ false }
    requires ended { propagator.old.done ≡ length propagator.old.path.falses }
    ensures stored { propagator.new.stored ≡ propagator.old.stored }
    ensures variables { propagator.new.path.variables ≡ propagator.old.path.variables }
    ensures falses { propagator.new.path.falses ≡ propagator.old.path.falses ++ lit ∷ [] }
    ensures starts { propagator.new.path.starts ≡ propagator.old.path.starts ++ length propagator.old.path.falses ∷ [] }
    ensures ready { (clauses : List (List ℕ)) → AreQuiet propagator.old.path.falses clauses
        → IsReady clauses propagator.old.path → IsReady clauses propagator.new.path }
{
    propagator.decide(lit)
}

/// [`Propagator::undo`].
pub fn undo(propagator: &mut Propagator)
    requires { 0 < length propagator.old.path.starts }
    ensures stored { propagator.new.stored ≡ propagator.old.stored }
    ensures variables { propagator.new.path.variables ≡ propagator.old.path.variables }
    ensures reasons { propagator.new.path.reasons ≡ propagator.old.path.reasons }
    ensures starts { propagator.old.path.starts ≡ propagator.new.path.starts ++ length propagator.new.path.falses ∷ [] }
    ensures falses { propagator.new.path.falses ≡ take (length propagator.new.path.falses) propagator.old.path.falses }
    ensures ended { propagator.new.done ≡ length propagator.new.path.falses }
    ensures ready { (clauses : List (List ℕ)) → IsReady clauses propagator.old.path → IsReady clauses propagator.new.path }
{
    propagator.undo()
}

/// [`Propagator::learn`].
pub fn learn(propagator: &mut Propagator, lits: &[u32], hints: &[u32]) -> Result<u32, Full>
    requires ended { propagator.old.done ≡ length propagator.old.path.falses }
    requires valid { IsClause propagator.old.stored.variables lits.now }
    requires unset { HasUnset propagator.old.path.falses lits.now }
    requires quiet { AllByRecursion (λ s. IsQuiet (take s propagator.old.path.falses) lits.now)
        propagator.old.path.starts }
    ensures id { IfOk result (λ id. id ≡ count_of propagator.old.stored + 1) }
    ensures ok { OnOk result (SameText (with_lemma propagator.old.stored
        (record { lits = lits.now; hints = hints.now })) propagator.new.stored) }
    ensures extends { Extends propagator.old.path propagator.new.path }
    ensures ready { OnOk result (IsReady (all_lits propagator.old.stored) propagator.old.path
        → IsReady (all_lits propagator.new.stored) propagator.new.path) }
    ensures err { OnErr result (propagator.new ≡ propagator.old) }
    ensures full { (need : ℕ) → (result ≡ Err (record { need = need }))
        ↔ Passes propagator.old.stored (lemma_cost (record { lits = lits.now; hints = hints.now })) need }
{
    propagator.learn(lits, hints)
}

/// [`Trail::last_start`].
pub fn last_start(trail: &Trail) -> usize
    requires { 0 < length trail.now.starts }
    ensures last { LastIs trail.now.starts result }
    ensures rise { Rise trail.now.starts (length trail.now.falses) }
    ensures bound { result < length trail.now.falses }
    ensures small { result < 2 ^ 31 }
    ensures alone { unit_of (take result trail.now.falses) (take (result + 1) trail.now.falses)
        ≡ Some (slice_index_or trail.now.falses result 0) }
{
    trail.last_start()
}
