//! Edges before ends have numbers, and what they become: each edge to an end leads to a location of its own, in the order of the edges.
ghost use Rattle.std.specs.Prelude.{◌≡◌, ◌≤◌, ◌++◌, IfOk, IfErr};
ghost use Rattle.pv_call_tables.specs.Wanted.{MOST, IsMemory};
ghost use Rattle.pv_call_tables.specs.Drawing.{aim_seen, edges_by, trap_by, traps_by, over_by, overs_by, next_after};
ghost use Rattle.pv_call_copies.specs.Inlined.{location_by, next_by};

use crate::fault::Wanting;
use crate::numbers::add;
use pv_flow::{Edge, OverEnd, TrapEnd};
use pv_place::{Place, TrapKind};
use std::alloc::Global;

/// Where an edge leads: to a location of the text, or to where a scan ends, which has a location of its own.
#[derive(Clone, Copy)]
pub enum Aim {
    Location(u32),
    Trap(TrapKind, Place),
    Over(Place),
}

/// An edge before ends have numbers.
#[derive(Clone, Copy)]
pub struct Drawn {
    pub from: u32,
    pub aim: Aim,
    pub deed: u32,
}

/// The location where an edge leads; an end has the next number.
fn location(aim: Aim, next: u32) -> u32
    ensures { result ≡ location_by (aim_seen aim) next }
{
    match aim {
        Aim::Location(to) => to,
        Aim::Trap(_, _) => next,
        Aim::Over(_) => next,
    }
}

/// The number of the next end.
fn after(aim: Aim, next: u32) -> Result<u32, Wanting>
    ensures next { IfOk result (λ n. n ≡ next_by (aim_seen aim) next) }
    ensures short { next_by (aim_seen aim) next ≤ MOST → IfErr result IsMemory }
{
    match aim {
        Aim::Location(_) => Ok(next),
        Aim::Trap(_, _) => add(next, 1),
        Aim::Over(_) => add(next, 1),
    }
}

/// The edges, with ends numbered from `first` on.
pub fn edges_of(alloc: Global, drawn: &[Drawn], first: u32) -> Result<Vec<Edge>, Wanting>
    ensures made { IfOk result (λ made. made.items ≡ edges_by first drawn.now) }
    ensures short { next_after first drawn.now ≤ MOST → IfErr result IsMemory }
{
    let mut made = Vec::new(alloc);
    let mut next = first;
    for d in drawn {
        made.push(Edge {
            from: d.from,
            to: location(d.aim, next),
            deed: d.deed,
        })?;
        next = after(d.aim, next)?;
    }
    Ok(made)
}

/// If the edge leads to one, an end by a trap.
fn push_trap(all: &mut Vec<TrapEnd>, aim: Aim, next: u32) -> Result<(), Wanting>
    ensures pushed { IfOk result (λ _. all.new.items ≡ all.old.items ++ trap_by aim next) }
    ensures memory { IfErr result IsMemory }
{
    match aim {
        Aim::Trap(kind, place) => all.push(TrapEnd {
            location: next,
            kind,
            place,
        })?,
        Aim::Location(_) => {}
        Aim::Over(_) => {}
    }
    Ok(())
}

/// The ends by a trap.
pub fn traps_of(alloc: Global, drawn: &[Drawn], first: u32) -> Result<Vec<TrapEnd>, Wanting>
    ensures made { IfOk result (λ made. made.items ≡ traps_by first drawn.now) }
    ensures short { next_after first drawn.now ≤ MOST → IfErr result IsMemory }
{
    let mut made = Vec::new(alloc);
    let mut next = first;
    for d in drawn {
        push_trap(&mut made, d.aim, next)?;
        next = after(d.aim, next)?;
    }
    Ok(made)
}

/// If the edge leads to one, an end over a loop's bound.
fn push_over(all: &mut Vec<OverEnd>, aim: Aim, next: u32) -> Result<(), Wanting>
    ensures pushed { IfOk result (λ _. all.new.items ≡ all.old.items ++ over_by aim next) }
    ensures memory { IfErr result IsMemory }
{
    match aim {
        Aim::Over(place) => all.push(OverEnd {
            location: next,
            place,
        })?,
        Aim::Location(_) => {}
        Aim::Trap(_, _) => {}
    }
    Ok(())
}

/// The ends over a loop's bound.
pub fn overs_of(alloc: Global, drawn: &[Drawn], first: u32) -> Result<Vec<OverEnd>, Wanting>
    ensures made { IfOk result (λ made. made.items ≡ overs_by first drawn.now) }
    ensures short { next_after first drawn.now ≤ MOST → IfErr result IsMemory }
{
    let mut made = Vec::new(alloc);
    let mut next = first;
    for d in drawn {
        push_over(&mut made, d.aim, next)?;
        next = after(d.aim, next)?;
    }
    Ok(made)
}

/// The number behind the last end.
pub fn behind(drawn: &[Drawn], first: u32) -> Result<u32, Wanting>
    ensures number { IfOk result (λ n. n ≡ next_after first drawn.now) }
    ensures short { next_after first drawn.now ≤ MOST → IfErr result IsMemory }
{
    let mut next = first;
    for d in drawn {
        next = after(d.aim, next)?;
    }
    Ok(next)
}
