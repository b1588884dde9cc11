//! What is told of copies.

use pv_flow::{CallEdge, Edge, Loop, Node, OverEnd, Parts, Set, TrapEnd};
use pv_rows_form::Told;
use pv_unroll::TooLarge;

fn tell_edges(edges: &[Edge], told: &mut Told) {
    for edge in edges {
        told.text(" ");
        told.number(edge.from as i128);
        told.text(">");
        told.number(edge.to as i128);
        told.text("/");
        told.number(edge.deed as i128);
    }
}

fn tell_traps(traps: &[TrapEnd], told: &mut Told) {
    for trap in traps {
        told.text(" ");
        told.number(trap.location as i128);
        told.text("@");
        told.number(trap.place.offset as i128);
    }
}

fn tell_overs(overs: &[OverEnd], told: &mut Told) {
    for over in overs {
        told.text(" ");
        told.number(over.location as i128);
        told.text("@");
        told.number(over.place.offset as i128);
    }
}

/// Its ends with the places that they are of, and its edges with their deeds.
fn tell_lists(parts: &Parts, told: &mut Told) {
    told.text("; done ");
    told.number(parts.done as i128);
    told.text("; edges");
    tell_edges(parts.edges.as_slice(), told);
    told.text("; traps");
    tell_traps(parts.traps.as_slice(), told);
    told.text("; overs");
    tell_overs(parts.overs.as_slice(), told);
}

/// How many edges and locations they have, and what they are.
pub fn tell_parts(parts: &Parts, whole: bool, told: &mut Told) {
    told.number(parts.edges.as_slice().len() as i128);
    told.text(" edges, ");
    told.number(parts.locations as i128);
    told.text(" locations");
    if whole {
        tell_lists(parts, told);
    }
}

fn tell_turns(turns: &[u32], told: &mut Told) {
    for turn in turns {
        told.text(" ");
        told.number(*turn as i128);
    }
}

/// The loops with their turn edges.
pub fn tell_loops(loops: &[Loop], told: &mut Told) {
    told.text("; loops");
    for one in loops {
        told.text(" ");
        told.number(one.first as i128);
        told.text("-");
        told.number(one.last as i128);
        told.text(":");
        tell_turns(one.turns.as_slice(), told);
    }
}

/// The call edges with their blocks.
pub fn tell_calls(calls: &[CallEdge], told: &mut Told) {
    told.text("; calls");
    for call in calls {
        told.text(" ");
        told.number(call.from as i128);
        told.text(">");
        told.number(call.to as i128);
        told.text("/");
        told.number(call.block as i128);
    }
}

pub fn tell_fault(fault: TooLarge, told: &mut Told) {
    match fault {
        TooLarge::Edges(size) => {
            told.text("too many edges: ");
            told.number(size as i128);
        }
        TooLarge::Copies => told.text("too many copies"),
        TooLarge::NoMemory => told.lose(),
    }
}

pub fn tell_large(fault: pv_inline::TooLarge, told: &mut Told) {
    match fault {
        pv_inline::TooLarge::Edges => told.text("too many edges"),
        pv_inline::TooLarge::Numbers => told.text("numbers too large"),
        pv_inline::TooLarge::NoMemory => told.lose(),
    }
}

/// A set of a variable to a number, or to another variable.
fn tell_set(nodes: &[Node], set: Set, told: &mut Told) {
    told.text(" ");
    told.number(set.variable as i128);
    match nodes.get(set.value as usize) {
        Some(Node::Constant(_, value)) => {
            told.text("=");
            told.number(*value);
        }
        Some(Node::Variable(other)) => {
            told.text(":");
            told.number(*other as i128);
        }
        _ => told.text("?"),
    }
}

fn tell_sets(parts: &Parts, deed: u32, told: &mut Told) {
    if let Some(deed) = parts.deeds.as_slice().get(deed as usize) {
        for set in deed.sets.as_slice() {
            tell_set(parts.nodes.as_slice(), *set, told);
        }
    }
}

/// The edges, each with its sets.
fn tell_ways(parts: &Parts, told: &mut Told) {
    for edge in parts.edges.as_slice() {
        told.text(", ");
        told.number(edge.from as i128);
        told.text(">");
        told.number(edge.to as i128);
        tell_sets(parts, edge.deed, told);
    }
}

/// How many edges, locations and variables a copy has, and what it is.
pub fn tell_copy(parts: &Parts, whole: bool, told: &mut Told) {
    tell_parts(parts, false, told);
    told.text(", ");
    told.number(parts.vars.as_slice().len() as i128);
    told.text(" variables, done ");
    told.number(parts.done as i128);
    if whole {
        tell_ways(parts, told);
        told.text("; traps");
        tell_traps(parts.traps.as_slice(), told);
        told.text("; overs");
        tell_overs(parts.overs.as_slice(), told);
        tell_loops(parts.loops.as_slice(), told);
    }
}
