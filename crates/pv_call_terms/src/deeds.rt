//! Copies of deeds.
ghost use Rattle.std.specs.Prelude.{◌≡◌, ◌++◌, ◌∷◌, [], IfOk, map};
ghost use Rattle.pv_call_terms.specs.Places.{place_of};
ghost use Rattle.pv_call_terms.specs.Deeds.{set_at, deed_seen, deed_at};

use crate::numbers::sum;
use crate::places::Places;
use pv_flow::{Deed, Set};
use smallvec::SmallVec;
use std::alloc::{AllocError, Global};

fn set_at(places: &Places, after: u32, set: Set) -> Set
    ensures { result ≡ set_at (place_of places.now) after set }
{
    Set {
        variable: places.place(set.variable as u64),
        value: sum(after, set.value),
    }
}

fn sets_at(
    alloc: Global,
    places: &Places,
    after: u32,
    sets: &[Set],
) -> Result<SmallVec<Set, 2>, AllocError>
    ensures { IfOk result (λ made. made.items ≡ map (set_at (place_of places.now) after) sets.now) }
{
    let mut made = SmallVec::new(alloc);
    for set in sets {
        made.push(set_at(places, after, *set))?;
    }
    Ok(made)
}

/// The copy of a deed, whose terms stand behind so many others.
fn deed_of(alloc: Global, places: &Places, after: u32, deed: &Deed) -> Result<Deed, AllocError>
    ensures { IfOk result (λ made. deed_seen made ≡ deed_at (place_of places.now) after (deed_seen deed.now)) }
{
    let sets = sets_at(alloc, places, after, deed.sets.as_slice())?;
    Ok(Deed {
        guard: sum(after, deed.guard),
        sets,
    })
}

/// Puts the deed behind those that are there.
fn push(all: &mut Vec<Deed>, deed: Deed) -> Result<(), AllocError>
    ensures { IfOk result (λ _. map deed_seen all.new.items ≡ map deed_seen all.old.items ++ deed_seen deed ∷ []) }
{
    all.push(deed)?;
    Ok(())
}

/// Puts copies of a block's deeds behind those that are there. Their terms are the copies that stand behind `after` others.
pub fn add_deeds(
    alloc: Global,
    all: &mut Vec<Deed>,
    places: &Places,
    after: u32,
    deeds: &[Deed],
) -> Result<(), AllocError>
    ensures { IfOk result (λ _. map deed_seen all.new.items
        ≡ map deed_seen all.old.items ++ map (deed_at (place_of places.now) after) (map deed_seen deeds.now)) }
{
    for deed in deeds {
        push(all, deed_of(alloc, places, after, deed)?)?;
    }
    Ok(())
}
