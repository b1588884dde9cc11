//! How clauses enter: those of one literal make it true, the others are watched at two of theirs.
ghost use Rattle.std.specs.Prelude.{◌≡◌, ◌≢◌, ℕ, ◌+◌, ◌*◌, ◌<◌, ◌≤◌, false, true, List, length, take, Some, IsTrue, IsFalse, IfSome, IfNone, slice_set};
ghost use Rattle.std.specs.List.{AllByRecursion};
ghost use Rattle.pv_cnf.specs.Literal.{is_outside};
ghost use Rattle.pv_cnf.specs.Clause.{has_outside, has_double, IsClause, AreClauses};
ghost use Rattle.pv_log.specs.Propagation.{is_false, named};
ghost use Rattle.pv_region.specs.declared.watch.Watch.{Watch};
ghost use Rattle.pv_region.specs.Stored.{count_of, all_lits, IsLinked};
ghost use Rattle.pv_watch.specs.Trail.{IsSound, Extends};
ghost use Rattle.pv_watch.specs.Quiet.{IsQuiet, IsConflict};
ghost use Rattle.pv_watch.specs.Turns.{HasUnset, IsLevel, CanAttach, IsOne, HasEntered, OneIsTrue, attached};

use crate::trail::Trail;
use crate::visit::{other_free, settle};
use pv_cnf::flip;
use pv_region::Region;

/// Two literals of a clause, at which it is watched.
#[derive(Clone, Copy)]
pub(crate) struct Pair {
    pub(crate) first: u32,
    pub(crate) second: u32,
}

/// Watches a clause or lemma, the last one, at two of its literals.
pub(crate) fn attach(region: &mut Region, slots: &mut [u32], id: u32, pair: Pair)
    requires from_one { 0 < id }
    requires to_last { id ≤ count_of region.old }
    requires small { id < 1000000000 }
    requires first { is_outside region.old.variables pair.first ≡ false }
    requires second { is_outside region.old.variables pair.second ≡ false }
    requires room { 2 * id + 1 < length slots.old }
    requires free { (slot : ℕ) → slot < 2 → IsLinked region.old (record { id = id; slot = slot }) → ⊥ }
    requires differ { pair.first ≢ pair.second }
    ensures stored { region.new ≡ attached region.old id pair.first pair.second }
    ensures slots { slots.new ≡ slice_set (slice_set slots.old (2 * id) pair.first) (2 * id + 1) pair.second }
{
    region.watch(pair.first, id, 0);
    region.watch(pair.second, id, 1);
    slots[2 * id as usize] = pair.first;
    slots[2 * id as usize + 1] = pair.second;
}

/// A literal that isn't false.
fn free_of(trail: &Trail, lits: &[u32]) -> u32
    requires inside { has_outside trail.now.variables lits.now ≡ false }
    requires unset { HasUnset trail.now.falses lits.now }
    ensures own { is_false lits.now result ≡ true }
    ensures not_false { is_false trail.now.falses result ≡ false }
{
    match other_free(trail, trail.len(), lits, 0) {
        Some(lit) => lit,
        None => unreachable!(),
    }
}

/// The place of the last decision, or 0.
fn last_level(trail: &Trail) -> usize
    ensures { IsLevel trail.now result }
{
    if trail.starts().is_empty() {
        return 0;
    }
    trail.last_start()
}

/// Makes the literal of a new clause or lemma true that has no value, where all others are false, and gives two
/// literals at which it can be watched, if it has two.
pub(crate) fn enter(trail: &mut Trail, lits: &[u32], id: u32) -> Option<Pair>
    requires valid { IsClause trail.old.variables lits.now }
    requires distinct { has_double trail.old.falses ≡ false }
    requires unset { HasUnset trail.old.falses lits.now }
    requires quiet { AllByRecursion (λ s. IsQuiet (take s trail.old.falses) lits.now) trail.old.starts }
    ensures entered { HasEntered trail.old trail.new id lits.now }
    ensures distinct { has_double trail.new.falses ≡ false }
    ensures pair { IfSome result (λ pair.
        CanAttach trail.new (length trail.old.falses) lits.now pair.first pair.second) }
    ensures single { IfNone result (IsOne trail.new lits.now) }
{
    let first = free_of(trail, lits);
    match other_free(trail, trail.len(), lits, first) {
        Some(second) => return Some(Pair { first, second }),
        None => {}
    }
    let second = other_free(trail, last_level(trail), lits, first);
    trail.imply(flip(first), id);
    match second {
        Some(second) => Some(Pair { first, second }),
        None => None,
    }
}

/// Makes the literal of clause number `id` true, if it has one alone. Returns whether it isn't false.
fn settle_one(region: &Region, trail: &mut Trail, id: u32) -> bool
    requires from_one { 0 < id }
    requires to_last { id ≤ count_of region.now }
    requires valid { AreClauses trail.old.variables (all_lits region.now) }
    requires sound { IsSound (all_lits region.now) trail.old }
    requires distinct { has_double trail.old.falses ≡ false }
    ensures distinct { has_double trail.new.falses ≡ false }
    ensures extends { Extends trail.old trail.new }
    ensures sound { IsSound (all_lits region.now) trail.new }
    ensures true_is { IsTrue result → OneIsTrue (all_lits region.now) trail.new.falses id }
    ensures conflict { IsFalse result → IsConflict (all_lits region.now) trail.new.falses id }
{
    let lits = region.lits(id);
    if lits.len() != 1 {
        return true;
    }
    settle(trail, id, lits[0])
}

/// Makes the literals of all clauses of one literal true, up to a false one, whose number it gives.
pub(crate) fn settle_all(region: &Region, trail: &mut Trail) -> Option<u32>
    requires small { count_of region.now < 1000000000 }
    requires valid { AreClauses trail.old.variables (all_lits region.now) }
    requires sound { IsSound (all_lits region.now) trail.old }
    requires distinct { has_double trail.old.falses ≡ false }
    ensures distinct { has_double trail.new.falses ≡ false }
    ensures extends { Extends trail.old trail.new }
    ensures sound { IsSound (all_lits region.now) trail.new }
    ensures ones { IfNone result ((id : ℕ) → id ≤ count_of region.now
        → OneIsTrue (all_lits region.now) trail.new.falses id) }
    ensures conflict { IfSome result (IsConflict (all_lits region.now) trail.new.falses) }
{
    let count = region.clauses() + region.lemmas();
    for n in 0..count {
        if !settle_one(region, trail, n + 1) {
            return Some(n + 1);
        }
    }
    None
}
