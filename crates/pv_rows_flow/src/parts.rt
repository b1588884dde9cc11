//! Automata from the numbers of a row.

use pv_flow::{Edge, Loop, OverEnd, Parts, TrapEnd};
use pv_place::{Place, TrapKind};
use std::alloc::{AllocError, Global};

/// The number of the word that stands there, or 0.
pub fn number_at(said: &str, at: usize) -> u32 {
    for (i, word) in said.split(' ').enumerate() {
        if i == at {
            return word.parse::<u32>().unwrap_or(0);
        }
    }
    0
}

/// A place that tells what it is of.
pub fn place_of(number: u32) -> Place {
    Place {
        file: 0,
        offset: number,
    }
}

/// An edge from a location to another; its deed has the edge's number.
fn push_edge(edges: &mut Vec<Edge>, said: &str) -> Result<(), AllocError> {
    let deed = u32::try_from(edges.len()).unwrap_or(0);
    edges.push(Edge {
        from: number_at(said, 0),
        to: number_at(said, 1),
        deed,
    })?;
    Ok(())
}

fn push_edges(edges: &mut Vec<Edge>, said: &str) -> Result<(), AllocError> {
    for one in said.split(',') {
        if !one.is_empty() {
            push_edge(edges, one.trim())?;
        }
    }
    Ok(())
}

/// The turn edges of a loop: the numbers behind its first three.
fn push_turns(turns: &mut Vec<u32>, said: &str) -> Result<(), AllocError> {
    for (i, word) in said.split(' ').enumerate() {
        if i > 2 {
            turns.push(word.parse::<u32>().unwrap_or(0))?;
        }
    }
    Ok(())
}

/// A loop from its first location to its last one; then 1 where entering it starts a turn, and its turn edges.
fn push_loop(alloc: Global, loops: &mut Vec<Loop>, said: &str) -> Result<(), AllocError> {
    let mut turns = Vec::new(alloc);
    push_turns(&mut turns, said)?;
    loops.push(Loop {
        first: number_at(said, 0),
        last: number_at(said, 1),
        entry_turn: number_at(said, 2) == 1,
        turns,
        place: place_of(number_at(said, 0)),
    })?;
    Ok(())
}

pub fn push_loops(alloc: Global, loops: &mut Vec<Loop>, said: &str) -> Result<(), AllocError> {
    for one in said.split(',') {
        if !one.is_empty() {
            push_loop(alloc, loops, one.trim())?;
        }
    }
    Ok(())
}

/// Locations where a scan ends: `t` with the location of a trap, `o` with one where a bound was gone over.
fn push_end(parts: &mut Parts, said: &str) -> Result<(), AllocError> {
    if let Some(text) = said.strip_prefix("t") {
        let location = text.trim().parse::<u32>().unwrap_or(0);
        parts.traps.push(TrapEnd {
            location,
            kind: TrapKind::DivideByZero,
            place: place_of(location),
        })?;
    }
    if let Some(text) = said.strip_prefix("o") {
        let location = text.trim().parse::<u32>().unwrap_or(0);
        parts.overs.push(OverEnd {
            location,
            place: place_of(location),
        })?;
    }
    Ok(())
}

pub fn push_ends(parts: &mut Parts, said: &str) -> Result<(), AllocError> {
    for one in said.split(',') {
        push_end(parts, one.trim())?;
    }
    Ok(())
}

/// Locations and their end, and nothing else.
pub fn bare(alloc: Global, locations: u32, done: u32) -> Parts {
    Parts {
        nodes: Vec::new(alloc),
        deeds: Vec::new(alloc),
        vars: Vec::new(alloc),
        bound: 0,
        shared: 0,
        locations,
        edges: Vec::new(alloc),
        calls: Vec::new(alloc),
        loops: Vec::new(alloc),
        done,
        traps: Vec::new(alloc),
        overs: Vec::new(alloc),
    }
}

fn fill(
    alloc: Global,
    parts: &mut Parts,
    loops: &str,
    edges: &str,
    ends: &str,
) -> Result<(), AllocError> {
    push_loops(alloc, &mut parts.loops, loops)?;
    push_edges(&mut parts.edges, edges)?;
    push_ends(parts, ends)
}

/// The automaton of a row, and its bound.
pub fn parts_of(
    alloc: Global,
    numbers: &str,
    loops: &str,
    edges: &str,
    ends: &str,
) -> Result<(Parts, u32), AllocError> {
    let mut parts = bare(alloc, number_at(numbers, 1), number_at(numbers, 2));
    match fill(alloc, &mut parts, loops, edges, ends) {
        Ok(()) => Ok((parts, number_at(numbers, 0))),
        Err(fault) => {
            drop(parts);
            Err(fault)
        }
    }
}
