//! A look at a clause one of whose watched literals became false.
ghost use Rattle.std.specs.Prelude.{◌≡◌, ℕ, ◌+◌, ◌*◌, ◌<◌, ◌≤◌, false, true, List, length, take, Some, IsTrue, IsFalse};
ghost use Rattle.pv_cnf.specs.Literal.{is_outside};
ghost use Rattle.pv_cnf.specs.Clause.{has_outside, has_double, IsClause};
ghost use Rattle.pv_log.specs.Propagation.{is_false, named};
ghost use Rattle.pv_region.specs.Stored.{all_lits};
ghost use Rattle.pv_watch.specs.Turns.{Replaces, LeavesOne, IsMadeTrue, Looks, IsVisited};

use crate::trail::Trail;
use pv_cnf::flip;
use pv_region::{Region, Watch};

/// What comes of a look at a clause one of whose watched literals became false.
#[derive(Clone, Copy)]
pub(crate) enum Visit {
    /// The other watched literal is true.
    Stays,
    /// This literal isn't false, and can be watched instead.
    Moves(u32),
    /// All literals are false.
    Conflict,
}

/// A literal of the clause other than this one that isn't among the first `upto` that became false.
pub(crate) fn other_free(trail: &Trail, upto: usize, clause: &[u32], other: u32) -> Option<u32>
    requires inside { has_outside trail.now.variables clause.now ≡ false }
    requires there { upto ≤ length trail.now.falses }
    ensures { Replaces (take upto trail.now.falses) clause.now other result }
{
    for lit in clause {
        if *lit != other && !trail.is_false_at(upto, *lit) {
            return Some(*lit);
        }
    }
    None
}

/// Makes a literal true, unless it's false, for which the clause with this number may be the reason. Returns whether
/// it is true.
pub(crate) fn settle(trail: &mut Trail, id: u32, lit: u32) -> bool
    requires inside { is_outside trail.old.variables lit ≡ false }
    requires distinct { has_double trail.old.falses ≡ false }
    ensures distinct { has_double trail.new.falses ≡ false }
    ensures made { IsTrue result → (clause : List ℕ) → LeavesOne trail.old clause lit
        → IsMadeTrue trail.old trail.new id clause lit }
    ensures same { IsFalse result → trail.new ≡ trail.old }
    ensures gone { IsFalse result → is_false trail.old.falses lit ≡ true }
{
    if trail.is_true(lit) {
        return true;
    }
    if trail.is_false(lit) {
        return false;
    }
    trail.imply(flip(lit), id);
    true
}

/// Looks at clause number `id`, of whose watched literals one is false, and `other` is the other one. Where all its
/// literals but that are false, and that has no value, it becomes true.
fn look(trail: &mut Trail, clause: &[u32], id: u32, other: u32) -> Visit
    requires valid { IsClause trail.old.variables clause.now }
    requires own { is_false clause.now other ≡ true }
    requires distinct { has_double trail.old.falses ≡ false }
    ensures looks { Looks trail.old trail.new id clause.now other result }
    ensures distinct { has_double trail.new.falses ≡ false }
{
    match other_free(trail, trail.len(), clause, other) {
        Some(lit) => return Visit::Moves(lit),
        None => {}
    }
    if settle(trail, id, other) {
        return Visit::Stays;
    }
    Visit::Conflict
}

/// Looks at the clause of an entry, whose other slot watches `other`. It isn't opened where that is true.
pub(crate) fn visit_entry(region: &Region, trail: &mut Trail, watch: Watch, other: u32) -> Visit
    requires visited { IsVisited region.now trail.old watch other }
    requires distinct { has_double trail.old.falses ≡ false }
    ensures looks { (clause : List ℕ) → named (all_lits region.now) watch.id ≡ Some clause
        → Looks trail.old trail.new watch.id clause other result }
    ensures distinct { has_double trail.new.falses ≡ false }
{
    if trail.is_true(other) {
        return Visit::Stays;
    }
    look(trail, region.lits(watch.id), watch.id, other)
}
