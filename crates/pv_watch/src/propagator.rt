//! Clauses and lemmas with their watches, and the trail.
ghost use Rattle.std.specs.Prelude.{◌≡◌, ◌↔◌, ℕ, ◌+◌, ◌-◌, ◌*◌, ◌<◌, ◌≤◌, false, List, [], ◌∷◌, ◌++◌, length, take, replicate, slice_set, IfOk, OnOk, OnErr, IfSome, IfNone};
ghost use Rattle.std.specs.List.{AllByRecursion};
ghost use Rattle.pv_cnf.specs.Literal.{complement, is_outside};
ghost use Rattle.pv_cnf.specs.Clause.{IsClause, AreClauses};
ghost use Rattle.pv_log.specs.Propagation.{is_false};
ghost use Rattle.pv_region.specs.Stored.{clause_cost, lemma_cost, Passes, count_of, all_lits, with_clause, with_lemma};
ghost use Rattle.pv_watch.specs.Trail.{Extends};
ghost use Rattle.pv_watch.specs.Quiet.{IsQuiet, AreQuiet, IsConflict};
ghost use Rattle.pv_watch.specs.Watched.{IsReady};
ghost use Rattle.pv_watch.specs.Turns.{GoesOn, SameText, HasUnset};

use crate::enter::{Pair, attach, enter, settle_all};
use crate::trail::Trail;
use crate::turn::turn;
use pv_region::{Full, MakeFault, Region};
use std::alloc::Global;
use std::marker::Model;

/// Clauses and lemmas in a region, each of two or more literals watched at two of them, and a trail. Of its calls
/// `make` alone takes memory.
#[derive(Drop)]
pub struct Propagator {
    region: Region,
    trail: Trail,
    /// By the code of a slot, twice the number of its clause and 0 or 1 more: the literal that it watches.
    slots: Vec<u32>,
    /// How many literals of the trail have had their turn.
    done: usize,
}

impl Model for Propagator {
    ghost use Rattle.pv_watch.specs.Propagating.{Propagating};
    ghost use Rattle.pv_watch.specs.Watched.{Keeps};

    ghost Value = { Propagating };

    ghost view = { λ p. record { stored = p.region; path = p.trail; done = p.done } };

    ghost invariant = { λ p. Keeps p.region p.trail p.slots.items p.done };
}

impl Propagator {
    /// No clauses over the variables 1 to `variables`, and room for `words` words, at most 250,000,000, of which
    /// each variable takes two.
    pub fn make(alloc: Global, words: u64, variables: u32) -> Result<Propagator, MakeFault>
        requires { words ≤ 250000000 }
        ensures stored { IfOk result (λ p. p.stored ≡ record {
          variables = variables;
          capacity = words;
          clauses = [];
          lemmas = [];
          lists = replicate (2 * variables) [];
        }) }
        ensures falses { IfOk result (λ p. p.path.falses ≡ []) }
        ensures starts { IfOk result (λ p. p.path.starts ≡ []) }
        ensures full { (need : ℕ) → (result ≡ Err (MakeFault.Full need))
            ↔ ((need ≡ 2 * variables) × (words < need)) }
    {
        let region = match Region::make(alloc, words, variables) {
            Ok(region) => region,
            Err(fault) => return Err(fault),
        };
        let _ = region.used();
        let trail = Trail::new(alloc, variables)?;
        let slots = vec![in alloc; 0; 2 * (words as usize / 3) + 2]?;
        Ok(Propagator {
            region,
            trail,
            slots,
            done: 0,
        })
    }

    /// The clauses and lemmas, with their watches.
    pub fn region(&self) -> &Region
        ensures stored { result.now ≡ self.now.stored }
        ensures valid { AreClauses self.now.stored.variables (all_lits self.now.stored) }
    {
        &self.region
    }

    /// The trail.
    pub fn trail(&self) -> &Trail
        ensures path { result.now ≡ self.now.path }
        ensures variables { self.now.stored.variables ≡ self.now.path.variables }
    {
        &self.trail
    }

    /// Adds a clause while no literal has a value and no lemma is there, and answers its number.
    pub fn put_clause(&mut self, lits: &[u32]) -> Result<u32, Full>
        requires early { self.old.path.falses ≡ [] }
        requires lemmas { self.old.stored.lemmas ≡ [] }
        requires valid { IsClause self.old.stored.variables lits.now }
        ensures id { IfOk result (λ id. id ≡ count_of self.old.stored + 1) }
        ensures ok { OnOk result (SameText (with_clause self.old.stored lits.now) self.new.stored) }
        ensures path { self.new.path ≡ self.old.path }
        ensures err { OnErr result (self.new ≡ self.old) }
        ensures full { (need : ℕ) → (result ≡ Err (record { need = need }))
            ↔ Passes self.old.stored (clause_cost lits.now) need }
    {
        let id = match self.region.put_clause(lits) {
            Ok(id) => id,
            Err(full) => return Err(full),
        };
        let _ = self.region.used();
        if lits.len() < 2 {
            return Ok(id);
        }
        let pair = Pair {
            first: lits[0],
            second: lits[1],
        };
        attach(&mut self.region, &mut self.slots, id, pair);
        Ok(id)
    }

    /// Before the first decision: makes the literals of the clauses of one literal true, up to a false one, whose
    /// number it gives.
    pub fn begin(&mut self) -> Option<u32>
        requires early { self.old.path.falses ≡ [] }
        requires undecided { self.old.path.starts ≡ [] }
        ensures goes { GoesOn self.old.stored self.new.stored self.old.path self.new.path }
        ensures ready { IfNone result (IsReady (all_lits self.new.stored) self.new.path) }
        ensures conflict { IfSome result (IsConflict (all_lits self.new.stored) self.new.path.falses) }
    {
        settle_all(&self.region, &mut self.trail)
    }

    /// Propagates until nothing changes, or up to a false clause, whose number it gives.
    pub fn propagate(&mut self) -> Option<u32>
        requires ready { IsReady (all_lits self.old.stored) self.old.path }
        ensures goes { GoesOn self.old.stored self.new.stored self.old.path self.new.path }
        ensures ready { IsReady (all_lits self.new.stored) self.new.path }
        ensures ended { IfNone result (self.new.done ≡ length self.new.path.falses) }
        ensures quiet { IfNone result (AreQuiet self.new.path.falses (all_lits self.new.stored)) }
        ensures conflict { IfSome result (IsConflict (all_lits self.new.stored) self.new.path.falses) }
    {
        'turns: while self.done < self.trail.len() {
            let place = self.done;
            match turn(&mut self.region, &mut self.trail, &mut self.slots, place) {
                Some(id) => return Some(id),
                None => self.done += 1,
            }
        }
        None
    }

    /// Makes a literal without a value false, by decision, where propagation has ended.
    pub fn decide(&mut self, lit: u32)
        requires inside { is_outside self.old.path.variables lit ≡ false }
        requires not_false { is_false self.old.path.falses lit ≡ false }
        requires not_true { is_false self.old.path.falses (complement lit) ≡ false }
        requires ended { self.old.done ≡ length self.old.path.falses }
        ensures stored { self.new.stored ≡ self.old.stored }
        ensures variables { self.new.path.variables ≡ self.old.path.variables }
        ensures falses { self.new.path.falses ≡ self.old.path.falses ++ lit ∷ [] }
        ensures starts { self.new.path.starts ≡ self.old.path.starts ++ length self.old.path.falses ∷ [] }
        ensures ready { (clauses : List (List ℕ)) → AreQuiet self.old.path.falses clauses
            → IsReady clauses self.old.path → IsReady clauses self.new.path }
    {
        self.trail.decide(lit);
    }

    /// Takes the last decision back and all that became false after it.
    pub fn undo(&mut self)
        requires { 0 < length self.old.path.starts }
        ensures stored { self.new.stored ≡ self.old.stored }
        ensures variables { self.new.path.variables ≡ self.old.path.variables }
        ensures reasons { self.new.path.reasons ≡ self.old.path.reasons }
        ensures starts { self.old.path.starts ≡ self.new.path.starts ++ length self.new.path.falses ∷ [] }
        ensures falses { self.new.path.falses ≡ take (length self.new.path.falses) self.old.path.falses }
        ensures ended { self.new.done ≡ length self.new.path.falses }
        ensures ready { (clauses : List (List ℕ)) → IsReady clauses self.old.path → IsReady clauses self.new.path }
    {
        self.trail.undo();
        self.done = self.trail.len();
    }

    /// Adds a lemma of which a literal has no value, where each literal has had its turn, and answers its number.
    /// Where all its others are false, that literal becomes true.
    pub fn learn(&mut self, lits: &[u32], hints: &[u32]) -> Result<u32, Full>
        requires ended { self.old.done ≡ length self.old.path.falses }
        requires valid { IsClause self.old.stored.variables lits.now }
        requires unset { HasUnset self.old.path.falses lits.now }
        requires quiet { AllByRecursion (λ s. IsQuiet (take s self.old.path.falses) lits.now)
            self.old.path.starts }
        ensures id { IfOk result (λ id. id ≡ count_of self.old.stored + 1) }
        ensures ok { OnOk result (SameText (with_lemma self.old.stored
            (record { lits = lits.now; hints = hints.now })) self.new.stored) }
        ensures extends { Extends self.old.path self.new.path }
        ensures ready { OnOk result (IsReady (all_lits self.old.stored) self.old.path
            → IsReady (all_lits self.new.stored) self.new.path) }
        ensures err { OnErr result (self.new ≡ self.old) }
        ensures full { (need : ℕ) → (result ≡ Err (record { need = need }))
            ↔ Passes self.old.stored (lemma_cost (record { lits = lits.now; hints = hints.now })) need }
    {
        let id = match self.region.put_lemma(lits, hints) {
            Ok(id) => id,
            Err(full) => return Err(full),
        };
        let _ = self.region.used();
        match enter(&mut self.trail, lits, id) {
            None => Ok(id),
            Some(pair) => {
                attach(&mut self.region, &mut self.slots, id, pair);
                Ok(id)
            }
        }
    }
}
