//! The ways of a spot: a deed, an edge, and the turn that it starts.
ghost use Rattle.std.specs.Prelude.{◌≡◌, ◌+◌, ◌<◌, ◌∷◌, [], ◌++◌, length, map, IfOk, OnOk};
ghost use Rattle.pv_flow.specs.View.{loop_of};
ghost use Rattle.pv_layer.specs.Standing.{sets_below, turn_below};
ghost use Rattle.pv_layer.specs.Making.{deed_seen, plain_deed, plain_edge, turned_once};

use crate::tables::add_deed;
use crate::types::Way;
use pv_flow::{Deed, Edge, Loop, Set};
use std::alloc::AllocError;

/// Whether the terms are among so many whose values the sets take.
pub(crate) fn sets_lie(sets: &[Set], terms: usize) -> bool
    ensures { result ≡ sets_below terms sets.now }
{
    sets.iter().all(|set| (set.value as usize) < terms)
}

/// Whether the loop is among so many, if there is one.
pub(crate) fn turn_lies(turn: Option<u32>, loops: usize) -> bool
    ensures { result ≡ turn_below loops turn }
{
    match turn {
        None => true,
        Some(i) => (i as usize) < loops,
    }
}

/// The edge starts a turn of the loop of this number, if it names one that is there.
pub(crate) fn add_turn(
    loops: &mut Vec<Loop>,
    turn: Option<u32>,
    edge: u32,
) -> Result<(), AllocError>
    ensures { OnOk result (map loop_of loops.new.items ≡ turned_once turn 0 edge (map loop_of loops.old.items)) }
{
    match turn {
        None => Ok(()),
        Some(i) => {
            if (i as usize) < loops.len() {
                loops[i as usize].turns.push(edge)?;
            }
            Ok(())
        }
    }
}

/// The edge of the way, from this location, under this guard: its number.
pub(crate) fn add_way(
    deeds: &mut Vec<Deed>,
    edges: &mut Vec<Edge>,
    from: u32,
    guard: u32,
    way: Way,
) -> Result<u32, AllocError>
    requires deeds { length deeds.old.items < 4294967295 }
    requires edges { length edges.old.items < 4294967295 }
    ensures number { IfOk result (λ n. n ≡ length edges.old.items) }
    ensures deeds { OnOk result (map deed_seen deeds.new.items ≡ map deed_seen deeds.old.items ++ plain_deed guard way.sets.items ∷ []) }
    ensures count { OnOk result (length deeds.new.items ≡ length deeds.old.items + 1) }
    ensures edges { OnOk result (edges.new.items ≡ edges.old.items ++ plain_edge from way.to (length deeds.old.items) ∷ []) }
    ensures size { OnOk result (length edges.new.items ≡ length edges.old.items + 1) }
{
    let to = way.to;
    let deed = add_deed(deeds, guard, way.sets)?;
    let number = edges.len() as u32;
    edges.push(Edge { from, to, deed })?;
    Ok(number)
}
