//! The region.
ghost use Rattle.std.specs.Prelude.{◌≡◌, ◌↔◌, ℕ, ◌+◌, ◌-◌, ◌*◌, ◌<◌, ◌≤◌, false, List, [], ◌∷◌, ◌++◌, length, Some, None, slice_get, replicate, IfOk, OnOk, OnErr};
ghost use Rattle.pv_cnf.specs.Literal.{is_outside};
ghost use Rattle.pv_region.specs.declared.watch.Watch.{Watch};
ghost use Rattle.pv_region.specs.Stored.{Stored, clause_cost, lemma_cost, used_of, Passes, count_of, all_lits, all_hints, with_clause, with_lemma, list_of, with_list, IsLinked, Without, HasNext};

use crate::fault::{Full, MakeFault};
use crate::watch::{Watch, watch_at};
use crate::words::{
    clause_at, hints_at, link_at, link_before, link_in, lits_at, take_out, write_clause,
    write_lemma,
};
use std::alloc::Global;
use std::marker::Model;

/// Clauses, lemmas with their hints and lists of watches in one block of words. Of its calls `make` alone takes
/// memory.
#[derive(Drop)]
pub struct Region {
    /// The variables are 1 to this number.
    variables: u32,
    clauses: u32,
    lemmas: u32,
    /// Where the clauses' literals end.
    clauses_end: usize,
    /// Where the lemmas end.
    end: usize,
    words: Vec<u32>,
}

impl Model for Region {
    ghost use Rattle.pv_region.specs.Stored.{Stored};
    ghost use Rattle.pv_region.specs.Layout.{stored_of, IsLaidOut};

    ghost Value = { Stored };

    ghost view = { λ r. stored_of (record {
      variables = r.variables;
      clauses = r.clauses;
      lemmas = r.lemmas;
      clauses_end = r.clauses_end;
      end = r.end;
      words = r.words.items;
    }) };

    ghost invariant = { λ r. IsLaidOut (record {
      variables = r.variables;
      clauses = r.clauses;
      lemmas = r.lemmas;
      clauses_end = r.clauses_end;
      end = r.end;
      words = r.words.items;
    }) };
}

impl Region {
    /// An empty region of `words` words, at most 250,000,000, for the variables 1 to `variables`, of which each
    /// takes two words.
    pub fn make(alloc: Global, words: u64, variables: u32) -> Result<Region, MakeFault>
        requires { words ≤ 250000000 }
        ensures ok { IfOk result (λ r. r ≡ record {
          variables = variables;
          capacity = words;
          clauses = [];
          lemmas = [];
          lists = replicate (2 * variables) [];
        }) }
        ensures full { (need : ℕ) → (result ≡ Err (MakeFault.Full need))
            ↔ ((need ≡ 2 * variables) × (words < need)) }
    {
        let need = 2 * variables as u64;
        if need > words {
            return Err(MakeFault::Full { need });
        }
        let end = need as usize;
        let words = vec![in alloc; 0; words as usize]?;
        Ok(Region {
            variables,
            clauses: 0,
            lemmas: 0,
            clauses_end: end,
            end,
            words,
        })
    }

    /// The words in use.
    pub fn used(&self) -> u64
        ensures value { result ≡ used_of self.now }
        ensures fits { result ≤ self.now.capacity }
    {
        self.end as u64 + 3 * (self.clauses as u64 + self.lemmas as u64)
    }

    /// The words that there are.
    pub fn capacity(&self) -> u64
        ensures value { result ≡ self.now.capacity }
        ensures small { result ≤ 250000000 }
    {
        self.words.len() as u64
    }

    /// How many clauses there are.
    pub fn clauses(&self) -> u32
        ensures { result ≡ length self.now.clauses }
    {
        self.clauses
    }

    /// How many lemmas there are.
    pub fn lemmas(&self) -> u32
        ensures { result ≡ length self.now.lemmas }
    {
        self.lemmas
    }

    /// Adds a clause, as long as there is no lemma, and answers its number. It takes three words beside its
    /// literals.
    pub fn put_clause(&mut self, lits: &[u32]) -> Result<u32, Full>
        requires { self.old.lemmas ≡ [] }
        ensures id { IfOk result (λ id. id ≡ count_of self.old + 1) }
        ensures ok { OnOk result (self.new ≡ with_clause self.old lits.now) }
        ensures err { OnErr result (self.new ≡ self.old) }
        ensures full { (need : ℕ) → (result ≡ Err (record { need = need }))
            ↔ Passes self.old (clause_cost lits.now) need }
    {
        let need = self.used() + 3 + lits.len() as u64;
        if need > self.capacity() {
            return Err(Full { need });
        }
        let id = self.clauses + 1;
        write_clause(&mut self.words, self.end, id, lits);
        self.clauses = id;
        self.end += lits.len();
        self.clauses_end = self.end;
        Ok(id)
    }

    /// Adds a lemma, and answers its number. It takes four words beside its literals and hints.
    pub fn put_lemma(&mut self, lits: &[u32], hints: &[u32]) -> Result<u32, Full>
        ensures id { IfOk result (λ id. id ≡ count_of self.old + 1) }
        ensures ok { OnOk result (self.new
            ≡ with_lemma self.old (record { lits = lits.now; hints = hints.now })) }
        ensures err { OnErr result (self.new ≡ self.old) }
        ensures full { (need : ℕ) → (result ≡ Err (record { need = need }))
            ↔ Passes self.old (lemma_cost (record { lits = lits.now; hints = hints.now })) need }
    {
        let need = self.used() + 4 + lits.len() as u64 + hints.len() as u64;
        if need > self.capacity() {
            return Err(Full { need });
        }
        let id = self.clauses + self.lemmas + 1;
        write_lemma(&mut self.words, self.end, id, lits, hints);
        self.lemmas += 1;
        self.end += 1 + lits.len() + hints.len();
        Ok(id)
    }

    /// The literals of the clause or lemma with this number.
    pub fn lits(&self, id: u32) -> &[u32]
        requires from_one { 0 < id }
        requires to_last { id ≤ count_of self.now }
        ensures { slice_get (all_lits self.now) (id - 1) ≡ Some result.now }
    {
        if id <= self.clauses {
            return clause_at(&self.words, id, self.clauses, self.clauses_end);
        }
        lits_at(&self.words, id)
    }

    /// The hints of the clause or lemma with this number. A clause has none.
    pub fn hints(&self, id: u32) -> &[u32]
        requires from_one { 0 < id }
        requires to_last { id ≤ count_of self.now }
        ensures { slice_get (all_hints self.now) (id - 1) ≡ Some result.now }
    {
        if id <= self.clauses {
            return &self.words[..0];
        }
        hints_at(&self.words, id, self.clauses + self.lemmas, self.end)
    }

    /// Puts a slot of a clause or lemma, which is in no list, in front of the list of a literal.
    pub fn watch(&mut self, lit: u32, id: u32, slot: u8)
        requires literal { is_outside self.old.variables lit ≡ false }
        requires from_one { 0 < id }
        requires to_last { id ≤ count_of self.old }
        requires slot { slot < 2 }
        requires free { IsLinked self.old (record { id = id; slot = slot }) → ⊥ }
        ensures { self.new
            ≡ with_list self.old lit (record { id = id; slot = slot } ∷ list_of self.old lit) }
    {
        link_in(&mut self.words, lit as usize - 2, Watch { id, slot });
    }

    /// The first entry of the list of a literal. No list is longer than there are slots.
    pub fn first_watch(&self, lit: u32) -> Option<Watch>
        requires { is_outside self.now.variables lit ≡ false }
        ensures first { result ≡ slice_get (list_of self.now lit) 0 }
        ensures few { length (list_of self.now lit) ≤ 2 * count_of self.now + 2 }
    {
        watch_at(self.words[lit as usize - 2])
    }

    /// The entry that follows this one, which is in some list.
    pub fn next_watch(&self, watch: Watch) -> Option<Watch>
        requires { IsLinked self.now watch }
        ensures { (lit : ℕ) (front rest : List Watch)
            → list_of self.now lit ≡ front ++ watch ∷ rest → result ≡ slice_get rest 0 }
    {
        watch_at(self.words[link_at(&self.words, watch)])
    }

    /// Takes the entry that follows this one, or the first one, out of the list of a literal. It is in no list then.
    pub fn unwatch(&mut self, lit: u32, before: Option<Watch>)
        requires literal { is_outside self.old.variables lit ≡ false }
        requires follows { HasNext before (list_of self.old lit) }
        ensures out { (gone : Watch) (left : List Watch) → Without before gone (list_of self.old lit) left
            → self.new ≡ with_list self.old lit left }
        ensures free { (gone : Watch) (left : List Watch) → Without before gone (list_of self.old lit) left
            → IsLinked self.new gone → ⊥ }
    {
        let at = link_before(&self.words, lit, before);
        take_out(&mut self.words, at);
    }
}
