//! The turn of a literal that became false: the clauses that watch it are looked at.
ghost use Rattle.std.specs.Prelude.{◌≡◌, ℕ, ◌+◌, ◌-◌, ◌*◌, ◌/◌, ◌<◌, ◌≤◌, false, true, ◌∷◌, List, length, Some, IsTrue, IsFalse, IfSome, IfNone, slice_index};
ghost use Rattle.pv_region.specs.declared.watch.Watch.{Watch};
ghost use Rattle.pv_region.specs.Stored.{all_lits};
ghost use Rattle.pv_region.specs.Links.{code_of};
ghost use Rattle.pv_watch.specs.Trail.{IsSound};
ghost use Rattle.pv_watch.specs.Watched.{other, Keeps};
ghost use Rattle.pv_watch.specs.Turns.{Walks, IsAtEntry, GoesOn, IsTurned, IsStuck};

use crate::trail::Trail;
use crate::visit::{Visit, visit_entry};
use pv_region::{Region, Watch};

/// Where the walk over the list of a literal stands.
#[derive(Clone, Copy)]
pub(crate) struct Walk {
    /// The literal, which is false, and its place in the trail.
    lit: u32,
    place: usize,
    /// The last of the entries that stay in the list.
    before: Option<Watch>,
    /// How many stay.
    kept: usize,
}

/// Where the literal of a slot stands among those of all.
fn place_of(watch: Watch) -> usize
    requires small { watch.id < 1000000000 }
    requires slot { watch.slot < 2 }
    ensures { result ≡ code_of watch }
{
    2 * watch.id as usize + watch.slot as usize
}

/// Where that of the other slot of its clause stands.
fn place_of_other(watch: Watch) -> usize
    requires small { watch.id < 1000000000 }
    requires slot { watch.slot < 2 }
    ensures { result ≡ code_of (other watch) }
{
    2 * watch.id as usize + 1 - watch.slot as usize
}

/// Looks at the clause of the next entry. Returns whether it isn't false.
fn step(
    region: &mut Region,
    trail: &mut Trail,
    slots: &mut [u32],
    walk: &mut Walk,
    watch: Watch,
) -> bool
    requires entry { IsAtEntry region.old trail.old slots.old walk.old watch }
    requires sound { IsSound (all_lits region.old) trail.old }
    ensures place { walk.new.place ≡ walk.old.place }
    ensures lit { walk.new.lit ≡ walk.old.lit }
    ensures goes { GoesOn region.old region.new trail.old trail.new }
    ensures on { IsTrue result → (left : List Watch) → Walks region.old trail.old slots.old walk.old (watch ∷ left)
        → Walks region.new trail.new slots.new walk.new left }
    ensures stuck { IsFalse result → IsStuck region.new trail.new slots.new walk.old.place watch.id }
{
    let other = slots[place_of_other(watch)];
    match visit_entry(region, trail, watch, other) {
        Visit::Stays => {
            walk.before = Some(watch);
            walk.kept += 1;
            true
        }
        Visit::Moves(lit) => {
            region.unwatch(walk.lit, walk.before);
            region.watch(lit, watch.id, watch.slot);
            slots[place_of(watch)] = lit;
            true
        }
        Visit::Conflict => false,
    }
}

/// Looks at all clauses that watch the literal at a place of the trail, up to a false one, whose number it gives.
pub(crate) fn turn(
    region: &mut Region,
    trail: &mut Trail,
    slots: &mut [u32],
    place: usize,
) -> Option<u32>
    requires keeps { Keeps region.old trail.old slots.old place }
    requires there { place < length trail.old.falses }
    requires sound { IsSound (all_lits region.old) trail.old }
    ensures goes { GoesOn region.old region.new trail.old trail.new }
    ensures turned { IfNone result (IsTurned region.new trail.new slots.new place
        (slice_index trail.old.falses place)) }
    ensures stuck { IfSome result (IsStuck region.new trail.new slots.new place) }
{
    let lit = trail.falses()[place];
    let mut walk = Walk {
        lit,
        place,
        before: None,
        kept: 0,
    };
    let mut next = region.first_watch(lit);
    'entries: loop {
        match next {
            None => return None,
            Some(watch) => {
                next = region.next_watch(watch);
                if !step(region, trail, slots, &mut walk, watch) {
                    return Some(watch.id);
                }
            }
        }
    }
}
