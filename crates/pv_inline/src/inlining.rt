//! The automaton of an entry with copies of the blocks that it calls.
ghost use Rattle.std.specs.Prelude.{◌≡◌, ◌<◌, ◌≤◌, length, map, slice_index_or, IfOk, OnOk, IfErr};
ghost use Rattle.pv_flow.specs.declared.fault.FlowFault.TheVariants as flow;
ghost use Rattle.pv_flow.specs.Fitting.{AreFitting};
ghost use Rattle.pv_flow.specs.Calls.{block_at};
ghost use Rattle.pv_flow.specs.MachineView.{inlined_parts, bound_of};
ghost use Rattle.pv_flow.specs.View.{parts_of, variable_of};
ghost use Rattle.pv_call_copies.specs.Inlined.{inlined_size};
ghost use Rattle.pv_inline.specs.Numbers.{MOST};
ghost use Rattle.pv_inline.specs.declared.fault.TheConstants.{MAX_EDGES};
ghost use Rattle.pv_inline.specs.declared.fault.TooLarge.TheVariants.{NoMemory};
ghost use Rattle.pv_inline.specs.Blocks.{blocks_of, codes_of, blocks_in, codes_in};
ghost use Rattle.pv_inline.specs.Seen.{making_seen, table_seen};
ghost use Rattle.pv_inline.specs.Short.{AreShort, told};
ghost use Rattle.pv_call_tables.specs.Drawing.{next_after};
ghost use Rattle.pv_call_tables.specs.Wanted.{IsMemory};
ghost use Rattle.pv_inline.specs.Tables.{table_in, starts_in};
ghost use Rattle.pv_inline.specs.Variables.{variables_at};
ghost use Rattle.pv_inline.specs.Walking.{all_made};
ghost use Rattle.pv_inline.specs.Inlining.{IsThere, CanCopy, IsCopied, IsWithoutCalls, IsInlinedAs, HasTheMachine, IsTooMany};
ghost use Rattle.pv_inline.specs.Inlining.{IsEntryBody, IsAssembled, IsPutTogether, IsWays, IsInlining};

use crate::blocks::Blocks;
use crate::copying::{Body, Copying};
use crate::fault::TooLarge;
use crate::making::Making;
use crate::size::size_within;
use crate::table::{Table, table_of};
use crate::variables::all_variables;
use crate::walking::add_copy;
use pv_call_tables::{Drawn, Wanting, behind, edges_of, number_at, number_of, overs_of, traps_of};
use pv_call_terms::Places;
use pv_flow::{
    Automaton, Edge, FlowFault, Inlined, OverEnd, Parts, TrapEnd, Variable, build, inlined,
};
use std::alloc::Global;

/// What is made of an entry and its calls, how much text that takes, and where the entry is done.
#[derive(Drop)]
struct Copies {
    making: Making,
    text: u32,
    done: u32,
}

/// Edges, ends and how many locations there are.
#[derive(Drop)]
struct Ways {
    edges: Vec<Edge>,
    traps: Vec<TrapEnd>,
    overs: Vec<OverEnd>,
    locations: u32,
}

/// The copy of the entry.
fn entry_body(parts: &Parts) -> Result<Body, Wanting>
    ensures body { IfOk result (IsEntryBody parts.now) }
    ensures short { length parts.now.vars.items ≤ MOST → IfErr result IsMemory }
{
    Ok(Body {
        start: 0,
        out: None,
        deeds: 0,
        edges: 0,
        free: number_of(parts.vars.len())?,
    })
}

/// What is made of the entry and its calls.
fn making_of(
    alloc: Global,
    blocks: &Blocks<'_>,
    parts: &Parts,
    table: &Table,
) -> Result<Making, Wanting>
    requires { table_seen table.now ≡ table_in (codes_in blocks.now) parts.now 0 }
    ensures made { IfOk result (λ m. making_seen m ≡ all_made (codes_in blocks.now) parts.now) }
    ensures short { AreShort (codes_in blocks.now) parts.now → IfErr result IsMemory }
{
    let places = Places::of_entry(alloc, parts)?;
    let body = entry_body(parts)?;
    let mut making = Making::new(alloc)?;
    let copy = Copying {
        parts,
        table,
        places: &places,
        body,
    };
    add_copy(alloc, &mut making, blocks, blocks.count(), &copy)?;
    Ok(making)
}

/// The same, if its nodes are so few that their numbers fit.
fn numbered(making: Making) -> Result<Making, Wanting>
    ensures same { IfOk result (λ m. making_seen m ≡ making_seen making) }
    ensures few { IfOk result (λ m. length m.nodes.items ≤ MOST) }
    ensures short { length making.nodes.items ≤ MOST → IfErr result IsMemory }
{
    match number_of(making.nodes.len()) {
        Ok(_) => Ok(making),
        Err(fault) => {
            drop(making);
            Err(fault)
        }
    }
}

/// What is made of the entry and its calls, by its table.
fn copies_of(alloc: Global, blocks: &Blocks<'_>, parts: &Parts) -> Result<Copies, Wanting>
    ensures making { IfOk result (λ m. making_seen m.making ≡ all_made (codes_in blocks.now) parts.now) }
    ensures few { IfOk result (λ m. length m.making.nodes.items ≤ MOST) }
    ensures text { IfOk result (λ m. m.text ≡ slice_index_or (starts_in (blocks_in (codes_in blocks.now)) parts.now) parts.now.locations 0) }
    ensures done { IfOk result (λ m. m.done ≡ slice_index_or (starts_in (blocks_in (codes_in blocks.now)) parts.now) parts.now.done 0) }
    ensures short { AreShort (codes_in blocks.now) parts.now → IfErr result IsMemory }
{
    let table = table_of(alloc, blocks, parts, 0)?;
    let making = numbered(making_of(alloc, blocks, parts, &table)?)?;
    let starts = table.widths.starts.as_slice();
    let text = number_at(starts, parts.locations as usize);
    let done = number_at(starts, parts.done as usize);
    Ok(Copies { making, text, done })
}

/// What is drawn over so much text, with numbers for ends.
fn ways_of(alloc: Global, drawn: &[Drawn], text: u32) -> Result<Ways, Wanting>
    ensures ways { IfOk result (IsWays text drawn.now) }
    ensures short { next_after text drawn.now ≤ MOST → IfErr result IsMemory }
{
    let locations = behind(drawn, text)?;
    let traps = traps_of(alloc, drawn, text)?;
    let overs = overs_of(alloc, drawn, text)?;
    let edges = edges_of(alloc, drawn, text)?;
    Ok(Ways {
        edges,
        traps,
        overs,
        locations,
    })
}

/// The parts of what was made.
fn put_together(
    alloc: Global,
    parts: &Parts,
    vars: Vec<Variable>,
    copies: Copies,
    ways: Ways,
) -> Parts
    ensures { IsPutTogether parts.now vars.items copies.making copies.done ways result }
{
    let done = copies.done;
    let making = copies.making;
    Parts {
        nodes: making.nodes,
        deeds: making.deeds,
        vars,
        bound: parts.bound,
        shared: parts.shared,
        locations: ways.locations,
        edges: ways.edges,
        calls: Vec::new(alloc),
        loops: making.loops,
        done,
        traps: ways.traps,
        overs: ways.overs,
    }
}

/// The parts of what was made, with ways by what is drawn.
fn assembled(
    alloc: Global,
    parts: &Parts,
    vars: Vec<Variable>,
    copies: Copies,
) -> Result<Parts, Wanting>
    ensures made { IfOk result (IsAssembled parts.now vars.items copies.making copies.text copies.done) }
    ensures short { next_after copies.text copies.making.drawn.items ≤ MOST → IfErr result IsMemory }
{
    match ways_of(alloc, copies.making.drawn.as_slice(), copies.text) {
        Ok(ways) => Ok(put_together(alloc, parts, vars, copies, ways)),
        Err(fault) => {
            drop(copies);
            drop(vars);
            Err(fault)
        }
    }
}

/// The variables of the copies, if they are so few that their numbers fit.
fn few_variables(alloc: Global, blocks: &Blocks<'_>, entry: u32) -> Result<Vec<Variable>, Wanting>
    ensures vars { IfOk result (λ vars. map variable_of vars.items ≡ variables_at (blocks_in (codes_in blocks.now)) entry) }
    ensures few { IfOk result (λ vars. length vars.items ≤ MOST) }
    ensures short { length (variables_at (blocks_in (codes_in blocks.now)) entry) ≤ MOST → IfErr result IsMemory }
{
    let vars = all_variables(alloc, blocks, entry)?;
    let _ = number_of(vars.len())?;
    Ok(vars)
}

/// The parts of the entry, which has these, with copies of the blocks that it calls.
fn copied(alloc: Global, blocks: &Blocks<'_>, entry: u32, parts: &Parts) -> Result<Parts, Wanting>
    ensures made { IfOk result (IsInlining (codes_in blocks.now) entry parts.now) }
    ensures short { AreShort (codes_in blocks.now) parts.now → length (variables_at (blocks_in (codes_in blocks.now)) entry) ≤ MOST
        → IfErr result IsMemory }
{
    let vars = few_variables(alloc, blocks, entry)?;
    let copies = copies_of(alloc, blocks, parts)?;
    assembled(alloc, parts, vars, copies)
}

/// No locations, and nothing else.
fn nothing(alloc: Global) -> Parts {
    Parts {
        nodes: Vec::new(alloc),
        deeds: Vec::new(alloc),
        vars: Vec::new(alloc),
        bound: 0,
        shared: 0,
        locations: 0,
        edges: Vec::new(alloc),
        calls: Vec::new(alloc),
        loops: Vec::new(alloc),
        done: 0,
        traps: Vec::new(alloc),
        overs: Vec::new(alloc),
    }
}

/// What is told of what is wanting.
fn large(wanting: Wanting) -> TooLarge
    ensures { result ≡ told wanting }
{
    match wanting {
        Wanting::Numbers => TooLarge::Numbers,
        Wanting::NoMemory => TooLarge::NoMemory,
    }
}

/// The parts of block `entry` with copies of the blocks that it calls, if they are not too large.
fn copied_within(alloc: Global, blocks: &Blocks<'_>, entry: u32) -> Result<Parts, TooLarge>
    ensures copies { CanCopy (codes_in blocks.now) entry → IfOk result (IsCopied (blocks_in (codes_in blocks.now)) entry) }
    ensures sound { CanCopy (codes_in blocks.now) entry → IfOk result IsWithoutCalls }
    ensures fits { OnOk result (inlined_size (blocks_in (codes_in blocks.now)) entry ≤ MAX_EDGES) }
    ensures large { IfErr result (IsTooMany (blocks_in (codes_in blocks.now)) (codes_in blocks.now) entry) }
{
    let _ = size_within(blocks, entry)?;
    match blocks.at(entry) {
        Some(parts) => match copied(alloc, blocks, entry, parts) {
            Ok(made) => Ok(made),
            Err(fault) => Err(large(fault)),
        },
        None => Ok(nothing(alloc)),
    }
}

/// The parts of the automaton of block `entry` with a copy of the called block in place of each call: what [`inline`] makes its automaton
/// of. Of blocks that are no automata, or don't fit each other, nothing is said but how many edges there may be: calls are followed down as
/// many levels as there are blocks, and a block without code has no locations. `TooLarge::Edges` where there would be more than
/// [`crate::MAX_EDGES`] edges, which is counted before anything is copied; `TooLarge::Numbers` where a number of a copy runs out.
pub fn copy_calls(alloc: Global, blocks: &[Option<Parts>], entry: u32) -> Result<Parts, TooLarge>
    ensures copies { CanCopy blocks.now entry → IfOk result (IsCopied (blocks_in blocks.now) entry) }
    ensures sound { CanCopy blocks.now entry → IfOk result IsWithoutCalls }
    ensures fits { OnOk result (inlined_size (blocks_in blocks.now) entry ≤ MAX_EDGES) }
    ensures large { IfErr result (IsTooMany (blocks_in blocks.now) blocks.now entry) }
{
    copied_within(alloc, &Blocks::Codes(blocks), entry)
}

/// What is answered of a fault that is want of memory.
fn wanting(fault: FlowFault) -> TooLarge
    requires { fault ≡ flow.NoMemory }
    ensures { result ≡ NoMemory }
{
    match fault {
        FlowFault::NoMemory => TooLarge::NoMemory,
        _ => unreachable!(),
    }
}

/// The automaton of parts that may be one. They have no fault, so that memory alone may be wanting.
fn built(alloc: Global, parts: Parts, bound: u32) -> Result<Inlined, TooLarge>
    requires parts { IsWithoutCalls parts }
    requires bound { 0 < bound }
    ensures parts { IfOk result (λ m. inlined_parts m ≡ parts_of parts) }
    ensures bound { IfOk result (λ m. bound_of m ≡ bound) }
    ensures fault { IfErr result (λ fault. fault ≡ NoMemory) }
{
    match build(alloc, parts) {
        Ok(automaton) => Ok(inlined(automaton, bound)),
        Err(fault) => Err(wanting(fault)),
    }
}

/// The entry's automaton with a copy of the called block in place of each call, as a machine with this loop bound. `TooLarge::Edges` where it
/// would have more than [`crate::MAX_EDGES`] edges, which is counted before anything is copied; `TooLarge::Numbers` where a number of a copy
/// runs out.
pub fn inline(
    alloc: Global,
    blocks: &[Option<Automaton>],
    entry: u32,
    bound: u32,
) -> Result<Inlined, TooLarge>
    requires fitting { AreFitting (blocks_of blocks.now) }
    requires entry { IsThere (block_at (blocks_of blocks.now) entry) }
    requires bound { 0 < bound }
    ensures copies { IfOk result (IsInlinedAs (blocks_of blocks.now) entry bound) }
    ensures machine { IfOk result (HasTheMachine (blocks_of blocks.now) entry bound) }
    ensures fits { OnOk result (inlined_size (blocks_of blocks.now) entry ≤ MAX_EDGES) }
    ensures large { IfErr result (IsTooMany (blocks_of blocks.now) (codes_of blocks.now) entry) }
{
    match copied_within(alloc, &Blocks::Automata(blocks), entry) {
        Ok(parts) => built(alloc, parts, bound),
        Err(fault) => Err(fault),
    }
}
