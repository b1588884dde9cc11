//! Parts that are built or refused, with enough memory.
ghost use Rattle.pv_flow.specs.Faults.{IsFaultless};
ghost use Rattle.pv_flow.specs.View.{parts_of};

use crate::calls::{attached_to, bound_of, build, unroll};
use crate::copies::{copy_calls, inlined_size, one_call};
use crate::parts::{
    edge_past, entered_within, far_edge, fault_of_crossing, loops_cross, one_edge, set_past,
};
use pv_flow::{Automaton, FlowFault, Inlined, Parts, inlined};
use pv_inline::TooLarge;
use std::alloc::{AllocError, Global};
use std::test::Fail;

/// The fault of parts that have one.
fn fault_of(alloc: Global, parts: Parts) -> Option<FlowFault>
    requires { IsFaultless (parts_of parts) → ⊥ }
{
    match build(alloc, parts) {
        Ok(automaton) => {
            drop(automaton);
            None
        }
        Err(fault) => Some(fault),
    }
}

#[tactic(auto, using(crate::proofs::RowLaws::edge_refused))]
fn of_edge(alloc: Global) -> Result<Option<FlowFault>, AllocError> {
    let parts = edge_past(alloc)?;
    Ok(fault_of(alloc, parts))
}

#[tactic(auto, using(crate::proofs::RowLaws::set_refused))]
fn of_set(alloc: Global) -> Result<Option<FlowFault>, AllocError> {
    let parts = set_past(alloc)?;
    Ok(fault_of(alloc, parts))
}

fn of_crossing(alloc: Global) -> Result<Option<FlowFault>, AllocError> {
    let parts = loops_cross(alloc)?;
    Ok(fault_of_crossing(alloc, parts))
}

#[tactic(auto, using(crate::proofs::RowLaws::entering_refused))]
fn of_entering(alloc: Global) -> Result<Option<FlowFault>, AllocError> {
    let parts = entered_within(alloc)?;
    Ok(fault_of(alloc, parts))
}

/// The bound of an automaton of one edge.
#[tactic(auto, using(crate::proofs::RowLaws::one_is_well_made, crate::proofs::RowLaws::one_is_tabled, crate::proofs::RowLaws::one_is_inlined))]
fn bound_at_once(alloc: Global) -> Result<u32, FlowFault> {
    let automaton = build(alloc, one_edge(alloc)?)?;
    Ok(bound_of(automaton, 16))
}

/// Whether an automaton of one edge has something attached.
#[tactic(auto, using(crate::proofs::RowLaws::one_is_well_made, crate::proofs::RowLaws::one_is_tabled, crate::proofs::RowLaws::one_is_acyclic))]
fn attached_at_once(alloc: Global) -> Result<bool, FlowFault> {
    let automaton = build(alloc, one_edge(alloc)?)?;
    Ok(attached_to(automaton, None).is_some())
}

/// The automaton is the next block's.
fn push(blocks: &mut Vec<Option<Automaton>>, automaton: Automaton) -> Result<(), AllocError> {
    blocks.push(Some(automaton))?;
    Ok(())
}

#[tactic(auto, using(crate::proofs::RowLaws::one_is_well_made, crate::proofs::RowLaws::one_is_tabled))]
fn push_edge(alloc: Global, blocks: &mut Vec<Option<Automaton>>) -> Result<(), FlowFault> {
    let automaton = build(alloc, one_edge(alloc)?)?;
    Ok(push(blocks, automaton)?)
}

#[tactic(auto, using(crate::proofs::CallLaws::call_is_well_made, crate::proofs::CallLaws::call_is_tabled))]
fn push_call(alloc: Global, blocks: &mut Vec<Option<Automaton>>) -> Result<(), FlowFault> {
    let automaton = build(alloc, one_call(alloc)?)?;
    Ok(push(blocks, automaton)?)
}

/// The size of the block of number `entry`: block 0 has one edge, block 1 one call of it.
fn size_at_once(alloc: Global, entry: u32) -> Result<Option<u64>, FlowFault> {
    let mut blocks = Vec::new(alloc);
    push_edge(alloc, &mut blocks)?;
    push_call(alloc, &mut blocks)?;
    Ok(inlined_size(blocks.as_slice(), entry).ok())
}

/// Why the copies of one block aren't made whose edge names a deed that has no number behind others.
fn of_far(alloc: Global) -> Result<Option<TooLarge>, AllocError> {
    let mut blocks = Vec::new(alloc);
    blocks.push(Some(far_edge(alloc)?))?;
    Ok(copy_calls(alloc, blocks.as_slice(), 0).err())
}

/// How many edges an automaton has that is unrolled.
fn edges_unrolled(alloc: Global, from: Inlined) -> usize {
    match unroll(alloc, from) {
        Ok(machine) => {
            let count = machine.automaton().parts().edges.len();
            drop(machine);
            count
        }
        Err(_) => 0,
    }
}

/// How many edges an automaton of one edge has, unrolled.
#[tactic(auto, using(crate::proofs::RowLaws::one_is_well_made, crate::proofs::RowLaws::one_is_tabled, crate::proofs::RowLaws::one_is_inlined))]
fn unrolled_at_once(alloc: Global) -> Result<usize, FlowFault> {
    let automaton = build(alloc, one_edge(alloc)?)?;
    Ok(edges_unrolled(alloc, inlined(automaton, 16)))
}

#[test]
fn parts_are_refused(rt: HostRuntime) -> Result<(), Fail> {
    let alloc = rt.alloc();
    assert_eq!(rt; of_edge(alloc)?, Some(FlowFault::BadLocation));
    assert_eq!(rt; of_set(alloc)?, Some(FlowFault::BadVariable));
    assert_eq!(rt; of_crossing(alloc)?, Some(FlowFault::BadLoop));
    assert_eq!(rt; of_entering(alloc)?, Some(FlowFault::BadLoop));
    Ok(())
}

#[test]
fn one_edge_is_built(rt: HostRuntime) -> Result<(), Fail> {
    let alloc = rt.alloc();
    assert_eq!(rt; bound_at_once(alloc), Ok(16));
    assert_eq!(rt; attached_at_once(alloc), Ok(false));
    assert_eq!(rt; unrolled_at_once(alloc), Ok(1));
    Ok(())
}

#[test]
fn a_call_becomes_two_edges_and_its_block(rt: HostRuntime) -> Result<(), Fail> {
    let alloc = rt.alloc();
    assert_eq!(rt; size_at_once(alloc, 0), Ok(Some(1)));
    assert_eq!(rt; size_at_once(alloc, 1), Ok(Some(3)));
    assert_eq!(rt; size_at_once(alloc, 2), Ok(Some(0)));
    Ok(())
}

#[test]
fn a_number_past_32_bits_is_told(rt: HostRuntime) -> Result<(), Fail> {
    let alloc = rt.alloc();
    assert_eq!(rt; of_far(alloc)?, Some(TooLarge::Numbers));
    Ok(())
}
