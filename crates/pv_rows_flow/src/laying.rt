//! Layouts from the spots and loops of a row.

use crate::parts::{number_at, place_of};
use pv_flow::Parts;
use pv_layer::{Check, Layer, Way};
use pv_place::TrapKind;
use smallvec::SmallVec;
use std::alloc::{AllocError, Global};

/// The number of the loop that stands there, if it is a number.
fn turn_at(said: &str, at: usize) -> Option<u32> {
    for (i, word) in said.split(' ').enumerate() {
        if i == at {
            return word.parse::<u32>().ok();
        }
    }
    None
}

/// A way by two words: where it leads, and the loop of which it starts a turn.
fn way_at(alloc: Global, said: &str, at: usize) -> Way {
    Way {
        to: number_at(said, at),
        sets: SmallVec::new(alloc),
        turn: turn_at(said, at.saturating_add(1)),
    }
}

/// So many checks, each with its number as its place.
fn push_checks(checks: &mut Vec<Check>, count: u32) -> Result<(), AllocError> {
    for i in 0..count {
        checks.push(Check {
            fails: 0,
            kind: TrapKind::DivideByZero,
            place: place_of(i),
        })?;
    }
    Ok(())
}

/// Lays an act, if the layer has what it names.
fn push_act(
    alloc: Global,
    layer: &mut Layer,
    checks: &[Check],
    way: Way,
) -> Result<(), AllocError> {
    if layer.has_spot()
        && layer.has_room(checks.len())
        && layer.has_checks(checks)
        && layer.has_way(&way)
    {
        return layer.act(alloc, checks, way);
    }
    drop(way);
    Ok(())
}

/// Lays a branch whose condition is TRUE, if the layer has what it names.
fn push_branch(
    alloc: Global,
    layer: &mut Layer,
    checks: &[Check],
    one: Way,
    other: Way,
) -> Result<(), AllocError> {
    if layer.has_spot()
        && layer.has_room(checks.len())
        && layer.has_checks(checks)
        && layer.has_term(0)
        && layer.has_way(&one)
        && layer.has_way(&other)
    {
        return layer.branch(alloc, checks, 0, one, other);
    }
    drop(one);
    drop(other);
    Ok(())
}

/// Lays a call of a block, if a spot is still to come.
fn push_enter(layer: &mut Layer, block: u32, to: u32) -> Result<(), AllocError> {
    if layer.has_spot() {
        return layer.enter(block, 0, place_of(block), to);
    }
    Ok(())
}

/// Lays a spot: `a` with how many checks and a way, `b` with two, `e` with a block and a location.
fn push_spot(
    alloc: Global,
    layer: &mut Layer,
    checks: &mut Vec<Check>,
    said: &str,
) -> Result<(), AllocError> {
    if said.starts_with("e") {
        return push_enter(layer, number_at(said, 1), number_at(said, 2));
    }
    push_checks(checks, number_at(said, 1))?;
    let one = way_at(alloc, said, 2);
    if said.starts_with("b") {
        let other = way_at(alloc, said, 4);
        return push_branch(alloc, layer, checks.as_slice(), one, other);
    }
    push_act(alloc, layer, checks.as_slice(), one)
}

fn push_spots(alloc: Global, layer: &mut Layer, spots: &str) -> Result<(), AllocError> {
    for one in spots.split(',') {
        let mut checks = Vec::new(alloc);
        push_spot(alloc, layer, &mut checks, one.trim())?;
    }
    Ok(())
}

/// Opens a loop from its first location to its last one; then 1 where entering it starts a turn.
fn push_loop(alloc: Global, layer: &mut Layer, said: &str) -> Result<(), AllocError> {
    let first = number_at(said, 0);
    layer.open(
        alloc,
        first,
        number_at(said, 1),
        number_at(said, 2) == 1,
        place_of(first),
    )
}

fn push_loops(alloc: Global, layer: &mut Layer, loops: &str) -> Result<(), AllocError> {
    for one in loops.split(',') {
        if !one.is_empty() {
            push_loop(alloc, layer, one.trim())?;
        }
    }
    Ok(())
}

fn fill(alloc: Global, layer: &mut Layer, loops: &str, spots: &str) -> Result<(), AllocError> {
    push_loops(alloc, layer, loops)?;
    push_spots(alloc, layer, spots)
}

/// The layout of a row: where a scan is done, its loops, and its spots.
pub fn layout_of(alloc: Global, done: &str, loops: &str, spots: &str) -> Result<Parts, AllocError> {
    let mut layer = Layer::new(
        alloc,
        Vec::new(alloc),
        0,
        0,
        number_at(done, 0).min(1_000_000),
    )?;
    match fill(alloc, &mut layer, loops, spots) {
        Ok(()) => Ok(layer.finish()),
        Err(fault) => {
            drop(layer);
            Err(fault)
        }
    }
}
