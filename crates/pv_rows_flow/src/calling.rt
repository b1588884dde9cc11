//! Blocks that call each other, from the texts of a row.

use crate::parts::{bare, number_at, place_of, push_ends, push_loops};
use pv_flow::{CallEdge, Deed, Edge, Node, Parts, Set, Variable};
use pv_place::Role;
use pv_word::Ty;
use smallvec::SmallVec;
use std::alloc::{AllocError, Global};

/// The node TRUE.
const TRUE: u32 = 0;

/// The text of a block that has this number, from 0.
fn piece(said: &str, number: usize) -> &str {
    for (i, text) in said.split(';').enumerate() {
        if i == number {
            return text.trim();
        }
    }
    ""
}

/// Variables by their roles: `k` Kept, `b` Brief.
fn push_vars(vars: &mut Vec<Variable>, said: &str) -> Result<(), AllocError> {
    for word in said.split(' ') {
        if !word.is_empty() {
            let role = if word == "b" { Role::Brief } else { Role::Kept };
            vars.push(Variable {
                ty: Ty::Int,
                role,
                start: 0,
                only: None,
            })?;
        }
    }
    Ok(())
}

/// A set of a variable to the value of a node that is put behind the others.
fn push_set(
    nodes: &mut Vec<Node>,
    sets: &mut SmallVec<Set, 2>,
    variable: &str,
    node: Node,
) -> Result<(), AllocError> {
    let value = u32::try_from(nodes.len()).unwrap_or(0);
    nodes.push(node)?;
    sets.push(Set {
        variable: number_at(variable, 0),
        value,
    })?;
    Ok(())
}

/// The sets of an edge: `4=7` of a variable to a number, `4:2` of one to another.
fn push_sets(
    nodes: &mut Vec<Node>,
    sets: &mut SmallVec<Set, 2>,
    said: &str,
) -> Result<(), AllocError> {
    for word in said.split(' ') {
        if let Some((variable, value)) = word.split_once('=') {
            let node = Node::Constant(Ty::Int, number_at(value, 0) as i128);
            push_set(nodes, sets, variable, node)?;
        }
        if let Some((variable, other)) = word.split_once(':') {
            push_set(nodes, sets, variable, Node::Variable(number_at(other, 0)))?;
        }
    }
    Ok(())
}

/// An edge from a location to another, with its sets.
fn push_edge(alloc: Global, parts: &mut Parts, said: &str) -> Result<(), AllocError> {
    let deed = u32::try_from(parts.deeds.len()).unwrap_or(0);
    let mut sets = SmallVec::new(alloc);
    push_sets(&mut parts.nodes, &mut sets, said)?;
    parts.deeds.push(Deed { guard: TRUE, sets })?;
    parts.edges.push(Edge {
        from: number_at(said, 0),
        to: number_at(said, 1),
        deed,
    })?;
    Ok(())
}

/// So many edges with one set, one after another, which share their deed.
fn push_chain(alloc: Global, parts: &mut Parts, count: u32) -> Result<(), AllocError> {
    let mut sets = SmallVec::new(alloc);
    push_sets(&mut parts.nodes, &mut sets, "0=7")?;
    parts.deeds.push(Deed { guard: TRUE, sets })?;
    for i in 0..count {
        parts.edges.push(Edge {
            from: i,
            to: i + 1,
            deed: 0,
        })?;
    }
    Ok(())
}

/// Edges by their texts, or `chain` and how many of a chain.
fn push_edges(alloc: Global, parts: &mut Parts, said: &str) -> Result<(), AllocError> {
    if let Some(count) = said.strip_prefix("chain ") {
        return push_chain(alloc, parts, number_at(count, 0));
    }
    for one in said.split(',') {
        if !one.is_empty() {
            push_edge(alloc, parts, one.trim())?;
        }
    }
    Ok(())
}

/// Call edges from a location to another, each with a block and the first of the caller's variables that it binds.
fn push_calls(calls: &mut Vec<CallEdge>, said: &str) -> Result<(), AllocError> {
    for one in said.split(',') {
        if !one.is_empty() {
            let one = one.trim();
            calls.push(CallEdge {
                from: number_at(one, 0),
                to: number_at(one, 1),
                block: number_at(one, 2),
                instance: number_at(one, 3),
                place: place_of(number_at(one, 0)),
            })?;
        }
    }
    Ok(())
}

fn fill(alloc: Global, parts: &mut Parts, said: &str) -> Result<(), AllocError> {
    parts.nodes.push(Node::Constant(Ty::Bool, 1))?;
    push_vars(&mut parts.vars, piece(said, 1))?;
    push_edges(alloc, parts, piece(said, 2))?;
    push_calls(&mut parts.calls, piece(said, 3))?;
    push_loops(alloc, &mut parts.loops, piece(said, 4))?;
    push_ends(parts, piece(said, 5))
}

/// So many bound variables and shared ones, so many locations, and where a scan is done.
fn begun(alloc: Global, head: &str) -> Parts {
    let mut parts = bare(alloc, number_at(head, 2), number_at(head, 3));
    parts.bound = number_at(head, 0);
    parts.shared = number_at(head, 1);
    parts
}

fn push_block(
    alloc: Global,
    blocks: &mut Vec<Option<Parts>>,
    said: &str,
) -> Result<(), AllocError> {
    let mut parts = begun(alloc, piece(said, 0));
    match fill(alloc, &mut parts, said) {
        Ok(()) => {
            blocks.push(Some(parts))?;
            Ok(())
        }
        Err(fault) => {
            drop(parts);
            Err(fault)
        }
    }
}

/// The blocks of a row.
pub fn push_blocks(
    alloc: Global,
    blocks: &mut Vec<Option<Parts>>,
    text: &str,
) -> Result<(), AllocError> {
    for said in text.split('|') {
        push_block(alloc, blocks, said.trim())?;
    }
    Ok(())
}
