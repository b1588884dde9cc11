//! What copies of called blocks take: variables and text.
ghost use Rattle.std.specs.Prelude.{◌≡◌, ℕ, ◌+◌, ◌≤◌, map, IfOk, IfErr};
ghost use Rattle.pv_call_tables.specs.Wanted.{IsMemory};
ghost use Rattle.pv_inline.specs.Numbers.{MOST};
ghost use Rattle.pv_inline.specs.Short.{EachCall, HasShortText, text_of};
ghost use Rattle.pv_flow.specs.Calls.{own_count, needed_by_calls, needed_within};
ghost use Rattle.pv_flow.specs.View.{call_edge_of, parts_of};
ghost use Rattle.pv_call_tables.specs.Standings.{standings_of, calls_of};
ghost use Rattle.pv_call_tables.specs.Widths.{text_at, summed};
ghost use Rattle.pv_inline.specs.Blocks.{blocks_in, codes_in};
ghost use Rattle.pv_inline.specs.Tables.{spans_of, span_below};

use crate::blocks::Blocks;
use crate::variables::own_of;
use pv_call_tables::{Outline, Wanting, add, calls_at, number_of, standings, text_size};
use pv_flow::{CallEdge, Parts};
use std::alloc::Global;

/// How many variables of the block are its own.
pub(crate) fn own_count(parts: &Parts) -> Result<u32, Wanting>
    ensures number { IfOk result (λ n. n ≡ own_count (parts_of parts.now)) }
    ensures short { own_count (parts_of parts.now) ≤ MOST → IfErr result IsMemory }
{
    number_of(own_of(parts).len())
}

/// How many variables a call of the block adds, down so many levels of calls.
#[cycle(needing)]
pub(crate) fn needed(blocks: &Blocks<'_>, levels: usize, block: u32) -> Result<u32, Wanting>
    ensures number { IfOk result (λ n. n ≡ needed_within (blocks_in (codes_in blocks.now)) levels block) }
    ensures short { needed_within (blocks_in (codes_in blocks.now)) levels block ≤ MOST → IfErr result IsMemory }
{
    if levels == 0 {
        return Ok(0);
    }
    match blocks.at(block) {
        Some(parts) => {
            let calls = parts.calls.as_slice();
            let own = own_count(parts)?;
            needed_by_calls(blocks, levels - 1, calls, own)
        }
        None => Ok(0),
    }
}

/// The total with what the call edges add.
#[cycle(needing)]
fn needed_by_calls(
    blocks: &Blocks<'_>,
    levels: usize,
    calls: &[CallEdge],
    total: u32,
) -> Result<u32, Wanting>
    ensures number { IfOk result (λ n. n
        ≡ total + needed_by_calls (needed_within (blocks_in (codes_in blocks.now)) levels) (map call_edge_of calls.now)) }
    ensures short { total + needed_by_calls (needed_within (blocks_in (codes_in blocks.now)) levels) (map call_edge_of calls.now) ≤ MOST → IfErr result IsMemory }
{
    let mut all = total;
    for call in calls {
        all = add(all, needed(blocks, levels, call.block)?)?;
    }
    Ok(all)
}

/// How much text a block takes whose call edges' blocks take so much.
fn span_of(alloc: Global, parts: &Parts, texts: &[u32]) -> Result<u32, Wanting>
    ensures number { IfOk result (λ n. n ≡ summed (text_at (standings_of parts.now) (calls_of parts.now) texts.now) parts.now.locations) }
    ensures short { text_of parts.now texts.now ≤ MOST → IfErr result IsMemory }
{
    let ends = standings(alloc, parts)?;
    let calls = calls_at(alloc, parts)?;
    let outline = Outline {
        ends: ends.as_slice(),
        calls: calls.as_slice(),
    };
    text_size(&outline, texts, parts.locations)
}

/// How much text a copy of the block takes, down so many levels of calls.
#[cycle(spanning)]
fn span(alloc: Global, blocks: &Blocks<'_>, levels: usize, block: u32) -> Result<u32, Wanting>
    ensures number { IfOk result (λ n. n ≡ span_below (blocks_in (codes_in blocks.now)) levels block) }
    ensures short { HasShortText (codes_in blocks.now) levels block → IfErr result IsMemory }
{
    if levels == 0 {
        return Ok(0);
    }
    match blocks.at(block) {
        Some(parts) => {
            let calls = parts.calls.as_slice();
            let texts = spans(alloc, blocks, levels - 1, calls)?;
            let list = texts.as_slice();
            span_of(alloc, parts, list)
        }
        None => Ok(0),
    }
}

/// How much text the copy of each call edge's block takes.
#[cycle(spanning)]
pub(crate) fn spans(
    alloc: Global,
    blocks: &Blocks<'_>,
    levels: usize,
    calls: &[CallEdge],
) -> Result<Vec<u32>, Wanting>
    ensures made { IfOk result (λ made. made.items ≡ spans_of (span_below (blocks_in (codes_in blocks.now)) levels) calls.now) }
    ensures short { EachCall (HasShortText (codes_in blocks.now) levels) calls.now → IfErr result IsMemory }
{
    let mut made = Vec::with_capacity(alloc, calls.len())?;
    for call in calls {
        made.push(span(alloc, blocks, levels, call.block)?)?;
    }
    Ok(made)
}
