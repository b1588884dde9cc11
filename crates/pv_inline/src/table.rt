//! What is known of a block that is copied: where its locations, edges and variables stand, counted from the copy's beginning.
ghost use Rattle.std.specs.Prelude.{◌≡◌, ◌+◌, ◌≤◌, length, map, replicate, IfOk, IfErr};
ghost use Rattle.pv_call_tables.specs.Wanted.{IsMemory};
ghost use Rattle.pv_call_tables.specs.Chains.{chains_of, from_of, first_of};
ghost use Rattle.pv_call_tables.specs.Ranks.{counted, ranks_by};
ghost use Rattle.pv_call_tables.specs.Seen.{chains_seen};
ghost use Rattle.pv_call_tables.specs.Standings.{standings_of, calls_of};
ghost use Rattle.pv_call_tables.specs.Widths.{drawn_at, summed, sums_below};
ghost use Rattle.pv_flow.specs.Calls.{needed, needed_by_calls};
ghost use Rattle.pv_flow.specs.View.{call_edge_of};
ghost use Rattle.pv_inline.specs.Numbers.{MOST};
ghost use Rattle.pv_inline.specs.Blocks.{blocks_in, codes_in};
ghost use Rattle.pv_inline.specs.Tables.{copy_size, sizes_of, bases_of, table_in};
ghost use Rattle.pv_inline.specs.Seen.{table_seen, AreWidths};
ghost use Rattle.pv_inline.specs.Short.{AreSmall, HasShortTable};

use crate::blocks::Blocks;
use crate::called::{needed, spans};
use crate::size::copy_size;
use pv_call_tables::{
    Called, Chains, Outline, Standing, Wanting, add, calls_at, counts, drawn_before, edge_chains,
    loop_chains, ranks, standings, starts,
};
use pv_flow::{CallEdge, Parts};
use std::alloc::{AllocError, Global};

/// What locations are, by their numbers in the block.
#[derive(Drop)]
pub(crate) struct Marks {
    /// What each location ends.
    pub ends: Vec<Standing>,
    /// The number of the call edge that begins there.
    pub calls: Vec<Option<usize>>,
}

/// Numbers that are counted from the beginning of a copy.
#[derive(Drop)]
pub(crate) struct Widths {
    /// How much text the copy of each call edge's block takes.
    pub texts: Vec<u32>,
    /// How many variables of the call edges before it each call edge has before its own; and how many there are.
    pub bases: Vec<u32>,
    /// How much of the text stands before each location; and how much there is.
    pub starts: Vec<u32>,
    /// How many edges are drawn before those of each location; and how many there are.
    pub drawn: Vec<u32>,
}

/// What begins at each location.
#[derive(Drop)]
pub(crate) struct Begins {
    /// How many edges of its location stand before each edge.
    pub ranks: Vec<u32>,
    /// The edges that begin at each location.
    pub edges: Chains,
    /// The loops that do.
    pub loops: Chains,
}

#[derive(Drop)]
pub(crate) struct Table {
    pub marks: Marks,
    pub widths: Widths,
    pub begins: Begins,
}

/// How many edges the copy of each call edge's block has, that out included.
fn sizes_of(alloc: Global, blocks: &Blocks<'_>, calls: &[CallEdge]) -> Result<Vec<u32>, Wanting>
    ensures made { IfOk result (λ made. made.items ≡ sizes_of (blocks_in (codes_in blocks.now)) calls.now) }
    ensures short { AreSmall (codes_in blocks.now) calls.now → IfErr result IsMemory }
{
    let mut made = Vec::with_capacity(alloc, calls.len())?;
    for call in calls {
        made.push(copy_size(blocks, call.block)?)?;
    }
    Ok(made)
}

/// From where on each call edge's variables lie, behind the block's own; and how many there are.
fn bases_of(alloc: Global, blocks: &Blocks<'_>, calls: &[CallEdge]) -> Result<Vec<u32>, Wanting>
    ensures made { IfOk result (λ made. made.items ≡ bases_of (blocks_in (codes_in blocks.now)) 0 calls.now) }
    ensures short { needed_by_calls (needed (blocks_in (codes_in blocks.now))) (map call_edge_of calls.now) ≤ MOST → IfErr result IsMemory }
{
    let mut made = Vec::with_capacity(alloc, calls.len().saturating_add(1))?;
    let mut total = 0;
    for call in calls {
        made.push(total)?;
        total = add(total, needed(blocks, blocks.count(), call.block)?)?;
    }
    made.push(total)?;
    Ok(made)
}

/// How many edges are drawn before those of each location of a block from which so many lead out where it is done.
fn drawn_of(
    alloc: Global,
    blocks: &Blocks<'_>,
    parts: &Parts,
    outline: &Outline,
    outs: u32,
) -> Result<Vec<u32>, Wanting>
    ensures made { IfOk result (λ made. made.items ≡ sums_below (drawn_at outline.now.ends.now outline.now.calls.now
        (sizes_of (blocks_in (codes_in blocks.now)) parts.now.calls.items) (counted (replicate parts.now.locations 0) parts.now.edges.items) outs)
        parts.now.locations) }
    ensures short { AreSmall (codes_in blocks.now) parts.now.calls.items → length parts.now.edges.items ≤ MOST
        → summed (drawn_at outline.now.ends.now outline.now.calls.now
        (sizes_of (blocks_in (codes_in blocks.now)) parts.now.calls.items) (counted (replicate parts.now.locations 0) parts.now.edges.items) outs)
        parts.now.locations ≤ MOST → IfErr result IsMemory }
{
    let run = parts.calls.as_slice();
    let all = parts.edges.as_slice();
    let sizes = sizes_of(alloc, blocks, run)?;
    let counts = counts(alloc, all, parts.locations)?;
    let size_list = sizes.as_slice();
    let count_list = counts.as_slice();
    let called = Called {
        sizes: size_list,
        counts: count_list,
        outs,
    };
    drawn_before(alloc, outline, &called, parts.locations)
}

fn marks_of(alloc: Global, parts: &Parts) -> Result<Marks, AllocError>
    ensures ends { IfOk result (λ marks. marks.ends.items ≡ standings_of parts.now) }
    ensures calls { IfOk result (λ marks. marks.calls.items ≡ calls_of parts.now) }
{
    let ends = standings(alloc, parts)?;
    let calls = calls_at(alloc, parts)?;
    Ok(Marks { ends, calls })
}

impl Marks {
    fn outline(&self) -> Outline<'_>
        ensures ends { result.ends.now ≡ self.now.ends.items }
        ensures calls { result.calls.now ≡ self.now.calls.items }
    {
        Outline {
            ends: self.ends.as_slice(),
            calls: self.calls.as_slice(),
        }
    }
}

/// The widths of a block with these marks from which so many edges lead out where it is done.
fn widths_of(
    alloc: Global,
    blocks: &Blocks<'_>,
    parts: &Parts,
    marks: &Marks,
    outs: u32,
) -> Result<Widths, Wanting>
    ensures made { IfOk result (AreWidths (codes_in blocks.now) parts.now marks.now outs) }
    ensures short { HasShortTable (codes_in blocks.now) parts.now outs → marks.now.ends.items ≡ standings_of parts.now
        → marks.now.calls.items ≡ calls_of parts.now → IfErr result IsMemory }
{
    let run = parts.calls.as_slice();
    let outline = marks.outline();
    let texts = spans(alloc, blocks, blocks.count(), run)?;
    let starts = starts(alloc, &outline, texts.as_slice(), parts.locations)?;
    let drawn = drawn_of(alloc, blocks, parts, &outline, outs)?;
    let bases = bases_of(alloc, blocks, run)?;
    Ok(Widths {
        texts,
        bases,
        starts,
        drawn,
    })
}

fn begins_of(alloc: Global, parts: &Parts) -> Result<Begins, Wanting>
    ensures ranks { IfOk result (λ begins. begins.ranks.items ≡ ranks_by (replicate parts.now.locations 0) parts.now.edges.items) }
    ensures edges { IfOk result (λ begins. chains_seen begins.edges ≡ chains_of parts.now.locations (map from_of parts.now.edges.items)) }
    ensures loops { IfOk result (λ begins. chains_seen begins.loops ≡ chains_of parts.now.locations (map first_of parts.now.loops.items)) }
    ensures short { length parts.now.edges.items ≤ MOST → IfErr result IsMemory }
{
    let all = parts.edges.as_slice();
    let ranks = ranks(alloc, all, parts.locations)?;
    let edges = edge_chains(alloc, all, parts.locations)?;
    let loops = loop_chains(alloc, parts.loops.as_slice(), parts.locations)?;
    Ok(Begins {
        ranks,
        edges,
        loops,
    })
}

/// The table of a block from which so many edges lead out where it is done.
pub(crate) fn table_of(
    alloc: Global,
    blocks: &Blocks<'_>,
    parts: &Parts,
    outs: u32,
) -> Result<Table, Wanting>
    ensures made { IfOk result (λ table. table_seen table ≡ table_in (codes_in blocks.now) parts.now outs) }
    ensures short { HasShortTable (codes_in blocks.now) parts.now outs → IfErr result IsMemory }
{
    let marks = marks_of(alloc, parts)?;
    let widths = widths_of(alloc, blocks, parts, &marks, outs)?;
    let begins = begins_of(alloc, parts)?;
    Ok(Table {
        marks,
        widths,
        begins,
    })
}
