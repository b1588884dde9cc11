//! Parts with one fault each, and without any.
ghost use Rattle.std.specs.Prelude.{IfOk};
ghost use Rattle.pv_contracts_flow.specs.Rows.{IsBare, IsEdgePast, IsSetPast, IsCrossing, IsEnteredWithin, IsOneEdge, IsLoopOf, IsDeedOf};

use crate::calls::build;
use pv_flow::{Deed, Edge, FlowFault, Loop, Node, Parts, Set, Variable};
use pv_place::{Place, Role};
use pv_word::Ty;
use smallvec::SmallVec;
use std::alloc::{AllocError, Global};

/// Parts with locations and their end alone.
pub fn bare(alloc: Global, locations: u32, done: u32) -> Parts
    ensures { IsBare locations done result }
{
    Parts {
        nodes: Vec::new(alloc),
        deeds: Vec::new(alloc),
        vars: Vec::new(alloc),
        bound: 0,
        shared: 0,
        locations,
        edges: Vec::new(alloc),
        calls: Vec::new(alloc),
        loops: Vec::new(alloc),
        done,
        traps: Vec::new(alloc),
        overs: Vec::new(alloc),
    }
}

fn loop_of(alloc: Global, first: u32, last: u32) -> Loop
    ensures { IsLoopOf first last result }
{
    Loop {
        first,
        last,
        entry_turn: true,
        turns: Vec::new(alloc),
        place: Place { file: 0, offset: 0 },
    }
}

/// An edge's deed with these sets and the guard of number 0.
pub fn deed_of(alloc: Global, sets: &[Set]) -> Result<Deed, AllocError>
    ensures { IfOk result (IsDeedOf sets.now) }
{
    let sets = SmallVec::from_slice(alloc, sets)?;
    Ok(Deed { guard: 0, sets })
}

/// Two locations, and an edge to location 2.
pub fn edge_past(alloc: Global) -> Result<Parts, AllocError>
    ensures { IfOk result IsEdgePast }
{
    let mut parts = bare(alloc, 2, 1);
    parts.edges.push(Edge {
        from: 0,
        to: 2,
        deed: 0,
    })?;
    Ok(parts)
}

/// Three variables, and an edge that sets variable 3.
pub fn set_past(alloc: Global) -> Result<Parts, AllocError>
    ensures { IfOk result IsSetPast }
{
    let mut parts = bare(alloc, 2, 1);
    let var = Variable {
        ty: Ty::Bool,
        role: Role::Kept,
        start: 0,
        only: None,
    };
    parts.vars.push(var)?;
    parts.vars.push(var)?;
    parts.vars.push(var)?;
    parts.nodes.push(Node::Constant(Ty::Bool, 1))?;
    parts.deeds.push(deed_of(
        alloc,
        &[Set {
            variable: 3,
            value: 0,
        }],
    )?)?;
    parts.edges.push(Edge {
        from: 0,
        to: 1,
        deed: 0,
    })?;
    Ok(parts)
}

/// Loops from 0 to 2 and from 1 to 3.
pub fn loops_cross(alloc: Global) -> Result<Parts, AllocError>
    ensures { IfOk result IsCrossing }
{
    let mut parts = bare(alloc, 6, 5);
    parts.loops.push(loop_of(alloc, 0, 2))?;
    parts.loops.push(loop_of(alloc, 1, 3))?;
    Ok(parts)
}

/// An edge from 3 to 1, in the middle of a loop from 0 to 2.
pub fn entered_within(alloc: Global) -> Result<Parts, AllocError>
    ensures { IfOk result IsEnteredWithin }
{
    let mut parts = bare(alloc, 5, 4);
    parts.edges.push(Edge {
        from: 3,
        to: 1,
        deed: 0,
    })?;
    parts.loops.push(loop_of(alloc, 0, 2))?;
    Ok(parts)
}

/// Two locations, and an edge from the one to the other, whose guard is TRUE.
pub fn one_edge(alloc: Global) -> Result<Parts, AllocError>
    ensures { IfOk result IsOneEdge }
{
    let mut parts = bare(alloc, 2, 1);
    parts.nodes.push(Node::Constant(Ty::Bool, 1))?;
    parts.deeds.push(deed_of(alloc, &[])?)?;
    parts.edges.push(Edge {
        from: 0,
        to: 1,
        deed: 0,
    })?;
    Ok(parts)
}

/// Two locations, and an edge from the one to the other with the last deed that 32 bits number, which isn't there.
pub fn far_edge(alloc: Global) -> Result<Parts, AllocError> {
    let mut parts = bare(alloc, 2, 1);
    parts.edges.push(Edge {
        from: 0,
        to: 1,
        deed: 4_294_967_295,
    })?;
    Ok(parts)
}

/// The fault of parts whose loops cross.
#[tactic(auto, using(crate::proofs::RowLaws::crossing_refused))]
pub fn fault_of_crossing(alloc: Global, parts: Parts) -> Option<FlowFault>
    requires { IsCrossing parts }
{
    match build(alloc, parts) {
        Ok(automaton) => {
            drop(automaton);
            None
        }
        Err(fault) => Some(fault),
    }
}
