//! Which literals are false, in their order, and why.
ghost use Rattle.std.specs.Prelude.{◌≡◌, ℕ, ◌+◌, ◌*◌, ◌^◌, ◌<◌, ◌≤◌, Bool, false, List, [], ◌∷◌, ◌++◌, length, take, IfOk, vec_capacity, Some, slice_index_or, slice_set};
ghost use Rattle.pv_cnf.specs.Literal.{complement, is_outside};
ghost use Rattle.pv_cnf.specs.Clause.{has_outside, has_double};
ghost use Rattle.pv_log.specs.Propagation.{is_false, unit_of};
ghost use Rattle.pv_watch.specs.Trail.{Path, Agree, LastIs, Rise, place_from, no_place};

use pv_cnf::flip;
use std::alloc::{AllocError, Global};
use std::marker::Model;

/// Stands for the place of a literal that isn't false.
const NO_PLACE: u32 = u32::MAX;

/// Which literals are false, in the order in which they became so, with their reasons and the places at
/// which a literal was decided. The memory for all of it is taken when it is made.
#[derive(Drop)]
pub struct Trail {
    /// The variables are 1 to this number.
    variables: u32,
    /// For each literal, by its code, its place among those that are false.
    places: Vec<u32>,
    /// The literals made false, in order.
    falses: Vec<u32>,
    /// For each place the number of the clause that made its literal false; 0 for a decision.
    reasons: Vec<u32>,
    /// The places of the decisions.
    starts: Vec<usize>,
}

impl Model for Trail {
    ghost Value = { Path };

    ghost view = { λ t. record {
      variables = t.variables;
      falses = t.falses.items;
      reasons = t.reasons.items;
      starts = t.starts.items;
    } };

    ghost invariant = { λ t. Agree t.variables t.places.items t.falses.items t.reasons.items t.starts.items
        × (t.variables ≤ vec_capacity t.falses) × (t.variables ≤ vec_capacity t.starts) };
}

impl Trail {
    /// No variable has a value.
    pub(crate) fn new(alloc: Global, variables: u32) -> Result<Self, AllocError>
        requires { variables < 2 ^ 31 }
        ensures variables { IfOk result (λ t. t.variables ≡ variables) }
        ensures falses { IfOk result (λ t. t.falses ≡ []) }
        ensures starts { IfOk result (λ t. t.starts ≡ []) }
    {
        let places = vec![in alloc; NO_PLACE; 2 * variables as usize + 2]?;
        let falses = Vec::with_capacity(alloc, variables as usize)?;
        let reasons = vec![in alloc; 0; variables as usize]?;
        let starts = Vec::with_capacity(alloc, variables as usize)?;
        Ok(Trail {
            variables,
            places,
            falses,
            reasons,
            starts,
        })
    }

    /// The number of variables.
    pub fn variables(&self) -> u32
        ensures value { result ≡ self.now.variables }
        ensures small { result < 2 ^ 31 }
    {
        self.variables
    }

    /// The place of a literal among those that are false, in their order; 2^32 - 1 where it isn't false.
    pub fn place(&self, lit: u32) -> u32
        requires { lit < 2 * self.now.variables + 2 }
        ensures { result ≡ place_from no_place 0 self.now.falses lit }
    {
        self.places[lit as usize]
    }

    /// Whether a literal is one of the first `upto` that became false.
    pub fn is_false_at(&self, upto: usize, lit: u32) -> bool
        requires inside { lit < 2 * self.now.variables + 2 }
        requires there { upto ≤ length self.now.falses }
        ensures { result ≡ is_false (take upto self.now.falses) lit }
    {
        (self.places[lit as usize] as usize) < upto
    }

    /// Whether a literal is false.
    pub fn is_false(&self, lit: u32) -> bool
        requires { lit < 2 * self.now.variables + 2 }
        ensures { result ≡ is_false self.now.falses lit }
    {
        self.is_false_at(self.falses.len(), lit)
    }

    /// Whether a literal is true.
    pub fn is_true(&self, lit: u32) -> bool
        requires { lit < 2 * self.now.variables + 2 }
        ensures { result ≡ is_false self.now.falses (complement lit) }
    {
        self.is_false(flip(lit))
    }

    /// How many literals are false: one of each variable at most.
    pub fn len(&self) -> usize
        ensures len { result ≡ length self.now.falses }
        ensures bound { result ≤ self.now.variables }
    {
        self.falses.len()
    }

    /// The literals that are false, in order.
    pub fn falses(&self) -> &[u32]
        ensures value { result.now ≡ self.now.falses }
        ensures inside { has_outside self.now.variables self.now.falses ≡ false }
        ensures distinct { has_double self.now.falses ≡ false }
    {
        &self.falses
    }

    /// For each place a reason.
    pub fn reasons(&self) -> &[u32]
        ensures value { result.now ≡ self.now.reasons }
        ensures size { length self.now.reasons ≡ self.now.variables }
    {
        &self.reasons
    }

    /// The places of the decisions.
    pub fn starts(&self) -> &[usize]
        ensures value { result.now ≡ self.now.starts }
        ensures rise { Rise self.now.starts (length self.now.falses) }
    {
        &self.starts
    }

    /// The place of the last decision.
    pub fn last_start(&self) -> usize
        requires { 0 < length self.now.starts }
        ensures last { LastIs self.now.starts result }
        ensures rise { Rise self.now.starts (length self.now.falses) }
        ensures bound { result < length self.now.falses }
        ensures small { result < 2 ^ 31 }
        // The literal there had no value.
        ensures alone { unit_of (take result self.now.falses) (take (result + 1) self.now.falses)
            ≡ Some (slice_index_or self.now.falses result 0) }
    {
        self.starts[self.starts.len() - 1]
    }

    /// Makes a literal false that has no value, for a reason.
    pub(crate) fn imply(&mut self, lit: u32, reason: u32)
        requires inside { is_outside self.old.variables lit ≡ false }
        requires not_false { is_false self.old.falses lit ≡ false }
        requires not_true { is_false self.old.falses (complement lit) ≡ false }
        ensures variables { self.new.variables ≡ self.old.variables }
        ensures falses { self.new.falses ≡ self.old.falses ++ lit ∷ [] }
        ensures reasons { self.new.reasons ≡ slice_set self.old.reasons (length self.old.falses) reason }
        ensures starts { self.new.starts ≡ self.old.starts }
        ensures bound { length self.new.falses ≤ self.new.variables }
        ensures distinct { has_double self.new.falses ≡ false }
        ensures room { length self.old.falses < length self.old.reasons }
        ensures rise { Rise self.old.starts (length self.old.falses) }
    {
        let place = self.falses.len();
        self.places[lit as usize] = place as u32;
        self.reasons[place] = reason;
        self.falses.push(lit).unwrap();
    }

    /// Makes a literal false that has no value, by decision.
    pub(crate) fn decide(&mut self, lit: u32)
        requires inside { is_outside self.old.variables lit ≡ false }
        requires not_false { is_false self.old.falses lit ≡ false }
        requires not_true { is_false self.old.falses (complement lit) ≡ false }
        ensures variables { self.new.variables ≡ self.old.variables }
        ensures falses { self.new.falses ≡ self.old.falses ++ lit ∷ [] }
        ensures reasons { self.new.reasons ≡ slice_set self.old.reasons (length self.old.falses) 0 }
        ensures starts { self.new.starts ≡ self.old.starts ++ length self.old.falses ∷ [] }
        ensures bound { length self.new.falses ≤ self.new.variables }
        ensures distinct { has_double self.new.falses ≡ false }
        ensures rise { Rise self.old.starts (length self.old.falses) }
    {
        let place = self.falses.len();
        self.starts.push(place).unwrap();
        self.places[lit as usize] = place as u32;
        self.reasons[place] = 0;
        self.falses.push(lit).unwrap();
    }

    /// Takes the last decision back and all that became false after it.
    pub(crate) fn undo(&mut self)
        requires { 0 < length self.old.starts }
        ensures variables { self.new.variables ≡ self.old.variables }
        ensures reasons { self.new.reasons ≡ self.old.reasons }
        ensures starts { self.old.starts ≡ self.new.starts ++ length self.new.falses ∷ [] }
        ensures falses { self.new.falses ≡ take (length self.new.falses) self.old.falses }
        ensures rise { Rise self.old.starts (length self.old.falses) }
    {
        let start = self.starts.pop().unwrap();
        'back: while self.falses.len() > start {
            if let Some(lit) = self.falses.pop() {
                self.places[lit as usize] = NO_PLACE;
            }
        }
    }
}
