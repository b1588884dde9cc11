//! Contract tests of pv_region: each call once more, with the clauses of its library.
#![tactic(auto)]

ghost use Rattle.std.specs.Prelude.{◌≡◌, ◌↔◌, ℕ, ◌-◌, ◌*◌, ◌+◌, ◌<◌, ◌≤◌, false, List, [], ◌∷◌, ◌++◌, Some, slice_get, replicate, IfOk, OnOk, OnErr};
ghost use Rattle.pv_cnf.specs.Literal.{is_outside};
ghost use Rattle.pv_region.specs.declared.watch.Watch.{Watch};
ghost use Rattle.pv_region.specs.Stored.{clause_cost, lemma_cost, Passes, count_of, all_lits, all_hints, with_clause, with_lemma, list_of, with_list, IsLinked, Without, HasNext};

use pv_region::{Full, MakeFault, Region, Watch};
use std::alloc::Global;

/// [`Region::make`].
pub fn make(alloc: Global, words: u64, variables: u32) -> Result<Region, MakeFault>
    requires { words ≤ 250000000 }
    ensures ok { IfOk result (λ r. r ≡ record {
      variables = variables;
      capacity = words;
      clauses = [];
      lemmas = [];
      lists = replicate (2 * variables) [];
    }) }
    ensures full { (need : ℕ) → (result ≡ Err (MakeFault.Full need))
        ↔ ((need ≡ 2 * variables) × (words < need)) }
{
    Region::make(alloc, words, variables)
}

/// [`Region::put_clause`].
pub fn put_clause(region: &mut Region, lits: &[u32]) -> Result<u32, Full>
    requires { region.old.lemmas ≡ [] }
    ensures id { IfOk result (λ id. id ≡ count_of region.old + 1) }
    ensures ok { OnOk result (region.new ≡ with_clause region.old lits.now) }
    ensures err { OnErr result (region.new ≡ region.old) }
    ensures full { (need : ℕ) → (result ≡ Err (record { need = need }))
        ↔ Passes region.old (clause_cost lits.now) need }
{
    region.put_clause(lits)
}

/// [`Region::put_lemma`].
pub fn put_lemma(region: &mut Region, lits: &[u32], hints: &[u32]) -> Result<u32, Full>
    ensures id { IfOk result (λ id. id ≡ count_of region.old + 1) }
    ensures ok { OnOk result (region.new
        ≡ with_lemma region.old (record { lits = lits.now; hints = hints.now })) }
    ensures err { OnErr result (region.new ≡ region.old) }
    ensures full { (need : ℕ) → (result ≡ Err (record { need = need }))
        ↔ Passes region.old (lemma_cost (record { lits = lits.now; hints = hints.now })) need }
{
    region.put_lemma(lits, hints)
}

/// [`Region::lits`].
pub fn lits(region: &Region, id: u32) -> &[u32]
    requires from_one { 0 < id }
    requires to_last { id ≤ count_of region.now }
    ensures { slice_get (all_lits region.now) (id - 1) ≡ Some result.now }
{
    region.lits(id)
}

/// [`Region::hints`].
pub fn hints(region: &Region, id: u32) -> &[u32]
    requires from_one { 0 < id }
    requires to_last { id ≤ count_of region.now }
    ensures { slice_get (all_hints region.now) (id - 1) ≡ Some result.now }
{
    region.hints(id)
}

/// [`Region::watch`].
pub fn watch(region: &mut Region, lit: u32, id: u32, slot: u8)
    requires literal { is_outside region.old.variables lit ≡ false }
    requires from_one { 0 < id }
    requires to_last { id ≤ count_of region.old }
    requires slot { slot < 2 }
    requires free { IsLinked region.old (record { id = id; slot = slot }) → ⊥ }
    ensures { region.new
        ≡ with_list region.old lit (record { id = id; slot = slot } ∷ list_of region.old lit) }
{
    region.watch(lit, id, slot)
}

/// [`Region::next_watch`].
pub fn next_watch(region: &Region, watch: Watch) -> Option<Watch>
    requires { IsLinked region.now watch }
    ensures { (lit : ℕ) (front rest : List Watch)
        → list_of region.now lit ≡ front ++ watch ∷ rest → result ≡ slice_get rest 0 }
{
    region.next_watch(watch)
}

/// [`Region::unwatch`].
pub fn unwatch(region: &mut Region, lit: u32, before: Option<Watch>)
    requires literal { is_outside region.old.variables lit ≡ false }
    requires follows { HasNext before (list_of region.old lit) }
    ensures out { (gone : Watch) (left : List Watch) → Without before gone (list_of region.old lit) left
        → region.new ≡ with_list region.old lit left }
    ensures free { (gone : Watch) (left : List Watch) → Without before gone (list_of region.old lit) left
        → IsLinked region.new gone → ⊥ }
{
    region.unwatch(lit, before)
}
