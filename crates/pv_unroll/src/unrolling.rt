//! The call: edges are counted first, then tables are made, then the text is laid.
ghost use Rattle.std.specs.Prelude.{◌≡◌, ◌+◌, ◌*◌, ◌≤◌, None, IfOk, OnOk, IfErr};
ghost use Rattle.pv_machine.specs.Same.{IsSame};
ghost use Rattle.pv_flow.specs.Machines.{inlined_machine, acyclic_machine};
ghost use Rattle.pv_flow.specs.MachineView.{inlined_parts, inlined_code, bound_of, acyclic_parts, acyclic_code, attached_in};
ghost use Rattle.pv_flow.specs.View.{parts_of};
ghost use Rattle.pv_copies.specs.Unrolled.{unrolled, unrolled_size};
ghost use Rattle.pv_unroll.specs.declared.fault.TheConstants.{MAX_EDGES, MAX_COPIES};
ghost use Rattle.pv_unroll.specs.declared.fault.TooLarge.TheVariants.{NoMemory};
ghost use Rattle.pv_unroll.specs.Counts.{capped};
ghost use Rattle.pv_unroll.specs.Endings.{endings_of};
ghost use Rattle.pv_unroll.specs.Tables.{edge_sizing, copy_sizing, laid_in, IsReplaced};
ghost use Rattle.pv_unroll.specs.Known.{IsKnown};
ghost use Rattle.pv_unroll.specs.Correct.{CanUnroll, AreOver, AreBeyond, IsFew, IsTooLarge, IsForward, IsMemory, KeepsTables};
ghost use Rattle.pv_unroll.specs.Seen.{sizing_seen, laid_seen};

use crate::chains::{Chains, chains_of};
use crate::counting::{edge_count, of_bits, within_limit};
use crate::endings::{Ending, endings, weights};
use crate::fault::{MAX_COPIES, TooLarge};
use crate::lay::Laid;
use crate::lead::Table;
use crate::numbers::{narrow, plus, times};
use crate::sizing::{Sizing, Taking, sized};
use crate::turning::turns_of;
use crate::walk::walk_text;
use pv_flow::{Acyclic, FlowFault, Inlined, Parts, acyclic, build};
use std::alloc::{AllocError, Global};

/// The tables of locations, loops and edges.
#[derive(Drop)]
pub(crate) struct Known {
    pub(crate) endings: Vec<Ending>,
    pub(crate) sizing: Sizing,
    pub(crate) turned: Vec<u64>,
    pub(crate) chains: Chains,
}

/// What the copies take.
fn copy_sizing(
    alloc: Global,
    parts: &Parts,
    endings: &[Ending],
    bound: u32,
) -> Result<Sizing, AllocError>
    requires { endings.now ≡ endings_of parts.now }
    ensures { IfOk result (λ sizing. sizing_seen sizing ≡ copy_sizing parts.now bound) }
{
    let taken = weights(alloc, endings)?;
    let taking = Taking {
        turns: bound as u64,
        over: 1,
    };
    sized(alloc, parts.loops.as_slice(), taken.as_slice(), taking)
}

/// The tables of these parts.
fn tables_of(alloc: Global, parts: &Parts, bound: u32) -> Result<Known, AllocError>
    ensures { IfOk result (IsKnown parts.now bound) }
{
    let ends = endings(alloc, parts)?;
    let sizing = copy_sizing(alloc, parts, ends.as_slice(), bound)?;
    let turned = turns_of(alloc, parts.loops.as_slice(), parts.edges.as_slice().len())?;
    let chains = chains_of(alloc, parts.edges.as_slice(), parts.locations as usize)?;
    Ok(Known {
        endings: ends,
        sizing,
        turned,
        chains,
    })
}

/// How many steps the walk may take: between two copies no more than there are locations.
fn steps_of(copies: u64, locations: u32) -> u64
    ensures { result ≡ capped (capped (copies * capped (locations + 1)) + locations) }
{
    let locations = locations as u64;
    plus(times(copies, plus(locations, 1)), locations)
}

/// Lays the text by all tables.
fn lay(alloc: Global, parts: &Parts, known: &Known, bound: u32) -> Result<Laid, AllocError>
    requires { IsKnown parts.now bound known.now }
    ensures { IfOk result (λ laid. laid_seen laid ≡ laid_in parts.now bound) }
{
    let table = Table {
        loops: parts.loops.as_slice(),
        edges: parts.edges.as_slice(),
        endings: known.endings.as_slice(),
        firsts: known.sizing.firsts.as_slice(),
        turns: known.sizing.turns.as_slice(),
        overs: known.sizing.overs.as_slice(),
        turned: known.turned.as_slice(),
        heads: known.chains.heads.as_slice(),
        nexts: known.chains.nexts.as_slice(),
        bound: bound as u64,
        locations: parts.locations,
    };
    let mut laid = Laid {
        edges: Vec::new(alloc),
        traps: Vec::new(alloc),
        overs: Vec::new(alloc),
        here: 0,
        done: known.sizing.here,
    };
    walk_text(
        alloc,
        &table,
        &mut laid,
        steps_of(known.sizing.here, parts.locations),
    )?;
    Ok(laid)
}

/// Whether the copies are so few that their numbers fit.
fn fits(copies: u64) -> Result<(), TooLarge>
    ensures few { OnOk result (copies ≤ MAX_COPIES) }
    ensures large { IfErr result (AreOver copies) }
{
    if copies > MAX_COPIES {
        Err(TooLarge::Copies)
    } else {
        Ok(())
    }
}

/// Lays the text.
fn laid_text(alloc: Global, parts: &Parts, bound: u32) -> Result<Laid, TooLarge>
    ensures laid { IfOk result (λ laid. laid_seen laid ≡ laid_in parts.now bound) }
    ensures few { OnOk result ((copy_sizing parts.now bound).here ≤ MAX_COPIES) }
    ensures large { IfErr result (AreOver (copy_sizing parts.now bound).here) }
{
    let known = tables_of(alloc, parts, bound)?;
    fits(known.sizing.here)?;
    let text = lay(alloc, parts, &known, bound)?;
    Ok(text)
}

/// Lays the text, if there are no more edges than may be.
fn laid_within(alloc: Global, parts: &Parts, bound: u32) -> Result<Laid, TooLarge>
    ensures laid { IfOk result (λ laid. laid_seen laid ≡ laid_in parts.now bound) }
    ensures few { OnOk result (IsFew parts.now bound) }
    ensures large { IfErr result (AreBeyond (edge_sizing parts.now bound).here (copy_sizing parts.now bound).here) }
{
    let size = edge_count(alloc, parts, bound)?;
    let _ = within_limit(size)?;
    laid_text(alloc, parts, bound)
}

/// The parts with what is laid in the place of their locations, edges, loops and ends.
fn replaced(alloc: Global, parts: Parts, laid: Laid) -> Parts
    ensures { IsReplaced parts (laid_seen laid) result }
{
    let behind = plus(plus(laid.done, 1), laid.traps.len() as u64);
    let mut made = parts;
    made.locations = narrow(behind);
    made.edges = laid.edges;
    made.calls = Vec::new(alloc);
    made.loops = Vec::new(alloc);
    made.done = narrow(laid.done);
    made.traps = laid.traps;
    made.overs = laid.overs;
    made
}

/// Numbers of locations and of turns are of 32 bits.
fn in_bits(locations: u32, bound: u32)
    ensures locations { locations ≤ 4294967295 }
    ensures bound { bound ≤ 4294967295 }
{}

/// The parts with their text in the place of their locations.
fn with_text(alloc: Global, parts: Parts, bound: u32, laid: Laid) -> Parts
    requires laid { laid_seen laid ≡ laid_in parts bound }
    requires few { IsFew parts bound }
    ensures copies { CanUnroll parts bound → parts_of result ≡ unrolled (parts_of parts) bound }
    ensures forward { CanUnroll parts bound → IsForward result }
    ensures tables { KeepsTables parts result }
{
    in_bits(parts.locations, bound);
    replaced(alloc, parts, laid)
}

/// The parts whose locations are the copies of these ones', for as many turns of each loop as the bound says: what [`unroll`] makes its
/// automaton of. The tables of terms and deeds stay as they are, and copies of an edge share its deed. Of parts that are no automaton
/// nothing else is said.
pub fn copy_loops(alloc: Global, parts: Parts, bound: u32) -> Result<Parts, TooLarge>
    ensures copies { CanUnroll parts bound → IfOk result (λ made. parts_of made ≡ unrolled (parts_of parts) bound) }
    ensures forward { CanUnroll parts bound → IfOk result IsForward }
    ensures tables { IfOk result (KeepsTables parts) }
    ensures fits { CanUnroll parts bound → OnOk result (unrolled_size (parts_of parts) bound ≤ MAX_EDGES) }
    ensures large { CanUnroll parts bound → IfErr result (IsTooLarge (parts_of parts) bound) }
{
    of_bits(parts.locations);
    match laid_within(alloc, &parts, bound) {
        Ok(text) => Ok(with_text(alloc, parts, bound, text)),
        Err(fault) => {
            drop(parts);
            Err(fault)
        }
    }
}

/// What is answered of a fault that is want of memory.
fn wanting(fault: FlowFault) -> TooLarge
    requires { IsMemory fault }
    ensures { result ≡ NoMemory }
{
    match fault {
        FlowFault::NoMemory => TooLarge::NoMemory,
        _ => unreachable!(),
    }
}

/// The automaton of parts that may be one. They have no fault, so that memory alone may be wanting.
fn made(alloc: Global, parts: Parts) -> Result<Acyclic, TooLarge>
    requires { IsForward parts }
    ensures parts { IfOk result (λ m. acyclic_parts m ≡ parts_of parts) }
    ensures code { IfOk result (λ m. acyclic_code m ≡ parts) }
    ensures bare { IfOk result (λ m. attached_in m ≡ None) }
    ensures fault { IfErr result (λ fault. fault ≡ NoMemory) }
{
    match build(alloc, parts) {
        Ok(automaton) => Ok(acyclic(automaton, None)),
        Err(fault) => Err(wanting(fault)),
    }
}

/// The automaton of the copies of parts that keep the conditions.
fn unrolled(alloc: Global, parts: Parts, bound: u32) -> Result<Acyclic, TooLarge>
    requires { CanUnroll parts bound }
    ensures copies { IfOk result (λ m. acyclic_parts m ≡ unrolled (parts_of parts) bound) }
    ensures tables { IfOk result (λ m. KeepsTables parts (acyclic_code m)) }
    ensures bare { IfOk result (λ m. attached_in m ≡ None) }
    ensures fits { OnOk result (unrolled_size (parts_of parts) bound ≤ MAX_EDGES) }
    ensures large { IfErr result (IsTooLarge (parts_of parts) bound) }
{
    match copy_loops(alloc, parts, bound) {
        Ok(copies) => made(alloc, copies),
        Err(fault) => Err(fault),
    }
}

/// The automaton whose locations are the copies of this one's, for as many turns of each loop as its bound says. Its edges lead forward,
/// copies of an edge share its deed, and nothing is attached to it. It takes time by what it has, with a look at each loop around each
/// copy of an edge.
pub fn unroll(alloc: Global, from: Inlined) -> Result<Acyclic, TooLarge>
    ensures copies { IfOk result (λ m. acyclic_parts m ≡ unrolled (inlined_parts from) (bound_of from)) }
    ensures tables { IfOk result (λ m. KeepsTables (inlined_code from) (acyclic_code m)) }
    ensures bare { IfOk result (λ m. attached_in m ≡ None) }
    ensures same { IfOk result (λ m. IsSame (acyclic_machine (acyclic_parts m) (attached_in m)) (inlined_machine (inlined_parts from) (bound_of from))) }
    ensures fits { OnOk result (unrolled_size (inlined_parts from) (bound_of from) ≤ MAX_EDGES) }
    ensures large { IfErr result (IsTooLarge (inlined_parts from) (bound_of from)) }
{
    let bound = from.bound();
    unrolled(alloc, from.into_automaton().into_parts(), bound)
}
