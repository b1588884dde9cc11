//! How many edges there would be, before anything is copied.
ghost use Rattle.std.specs.Prelude.{◌≡◌, ◌≤◌, IfOk, IfErr};
ghost use Rattle.pv_flow.specs.MachineView.{inlined_parts, bound_of};
ghost use Rattle.pv_flow.specs.View.{parts_of};
ghost use Rattle.pv_copies.specs.Unrolled.{unrolled_size};
ghost use Rattle.pv_unroll.specs.Counts.{capped};
ghost use Rattle.pv_unroll.specs.Tables.{edge_sizing};
ghost use Rattle.pv_unroll.specs.Correct.{CanUnroll, IsWithin, IsOver, IsSizeOf, HasTooManyEdges};

use crate::chains::counts;
use crate::fault::{MAX_EDGES, TooLarge};
use crate::sizing::{Taking, sized};
use pv_flow::{Inlined, Parts};
use std::alloc::{AllocError, Global};

/// How many edges there would be.
pub(crate) fn edge_count(alloc: Global, parts: &Parts, bound: u32) -> Result<u64, AllocError>
    ensures { IfOk result (λ count. count ≡ (edge_sizing parts.now bound).here) }
{
    let taken = counts(alloc, parts.edges.as_slice(), parts.locations as usize)?;
    let taking = Taking {
        turns: bound as u64,
        over: 0,
    };
    let sizing = sized(alloc, parts.loops.as_slice(), taken.as_slice(), taking)?;
    Ok(sizing.here)
}

/// A number of locations is of 32 bits.
pub(crate) fn of_bits(locations: u32)
    ensures { locations ≤ 4294967295 }
{}

/// The number of edges, if it is within the limit.
pub(crate) fn within_limit(size: u64) -> Result<u64, TooLarge>
    ensures size { IfOk result (IsWithin size) }
    ensures large { IfErr result (IsOver size) }
{
    if size > MAX_EDGES {
        Err(TooLarge::Edges(size))
    } else {
        Ok(size)
    }
}

/// How many edges there would be, as far as is counted.
#[tactic(auto, using(crate::proofs::Conditions::counted_is))]
fn counted_size(alloc: Global, parts: &Parts, bound: u32) -> Result<u64, AllocError>
    requires { CanUnroll parts.now bound }
    ensures { IfOk result (λ count. count ≡ capped (unrolled_size (parts_of parts.now) bound)) }
{
    of_bits(parts.locations);
    edge_count(alloc, parts, bound)
}

/// The number of edges, if there may be so many.
fn size_of(alloc: Global, parts: &Parts, bound: u32) -> Result<u64, TooLarge>
    requires { CanUnroll parts.now bound }
    ensures size { IfOk result (IsSizeOf (parts_of parts.now) bound) }
    ensures large { IfErr result (HasTooManyEdges (parts_of parts.now) bound) }
{
    let size = counted_size(alloc, parts, bound)?;
    within_limit(size)
}

/// How many edges an automaton has once its loops are unrolled, each turn a copy, for as many turns of each as its bound says.
pub fn unrolled_size(alloc: Global, from: &Inlined) -> Result<u64, TooLarge>
    ensures size { IfOk result (IsSizeOf (inlined_parts from.now) (bound_of from.now)) }
    ensures large { IfErr result (HasTooManyEdges (inlined_parts from.now) (bound_of from.now)) }
{
    size_of(alloc, from.automaton().parts(), from.bound())
}
