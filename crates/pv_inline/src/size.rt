//! How many edges there are once calls are copied, before anything is.
ghost use Rattle.std.specs.Prelude.{◌≡◌, ◌+◌, ◌<◌, ◌≤◌, map, length, IfOk, OnOk, IfErr};
ghost use Rattle.pv_flow.specs.View.{call_edge_of};
ghost use Rattle.pv_inline.specs.Blocks.{blocks_of, blocks_in, codes_in};
ghost use Rattle.pv_inline.specs.Counts.{capped, size_after, calls_after};
ghost use Rattle.pv_inline.specs.Tables.{copy_size};
ghost use Rattle.pv_call_copies.specs.Inlined.{inlined_size};
ghost use Rattle.pv_call_tables.specs.Wanted.{IsMemory};
ghost use Rattle.pv_inline.specs.declared.fault.TheConstants.{BEYOND, MAX_EDGES};
ghost use Rattle.pv_inline.specs.Correct.{IsWithin, IsOver, IsSizeOf, IsTooLarge};

use crate::blocks::Blocks;
use crate::fault::{BEYOND, MAX_EDGES, TooLarge};
use pv_call_tables::{Wanting, add};
use pv_flow::{Automaton, CallEdge};

/// The number, as far as is counted.
fn capped(n: u64) -> u64
    ensures { result ≡ capped n }
{
    n.min(BEYOND)
}

/// The sum of two numbers of edges.
fn sum(a: u64, b: u64) -> u64
    ensures { result ≡ capped (a + b) }
{
    capped(a.saturating_add(b))
}

/// The total with the block's edges, its calls copied down so many levels. Each call adds two edges at least, so where the count stops no
/// more blocks were looked at than there may be edges.
#[cycle(sizing)]
fn size_after(blocks: &Blocks<'_>, levels: usize, block: u32, total: u64) -> u64
    ensures { result ≡ size_after (blocks_in (codes_in blocks.now)) levels block total }
{
    if total >= BEYOND {
        return BEYOND;
    }
    if levels == 0 {
        return total;
    }
    match blocks.at(block) {
        Some(parts) => {
            let own = parts.edges.as_slice();
            let calls = parts.calls.as_slice();
            calls_after(blocks, levels - 1, calls, sum(total, own.len() as u64))
        }
        None => total,
    }
}

/// The total with what the call edges become.
#[cycle(sizing)]
fn calls_after(blocks: &Blocks<'_>, levels: usize, calls: &[CallEdge], total: u64) -> u64
    ensures { result ≡ calls_after (blocks_in (codes_in blocks.now)) levels (map call_edge_of calls.now) total }
{
    let mut all = total;
    for call in calls {
        let both = sum(all, 2);
        all = size_after(blocks, levels, call.block, both);
    }
    capped(all)
}

/// A number of edges that was counted to its end.
fn counted(size: u64) -> Result<u32, Wanting>
    ensures number { IfOk result (λ n. n ≡ size) }
    ensures few { OnOk result (size < BEYOND) }
    ensures large { IfErr result (λ _. BEYOND ≤ size) }
{
    if size >= BEYOND {
        Err(Wanting::Numbers)
    } else {
        Ok(size as u32)
    }
}

/// How many edges the copy of a called block has, that out included; more than there may be have no number.
pub(crate) fn copy_size(blocks: &Blocks<'_>, block: u32) -> Result<u32, Wanting>
    ensures number { IfOk result (λ n. n ≡ copy_size (blocks_in (codes_in blocks.now)) block) }
    ensures short { inlined_size (blocks_in (codes_in blocks.now)) block ≤ MAX_EDGES → IfErr result IsMemory }
{
    let size = counted(size_after(blocks, blocks.count(), block, 0))?;
    add(size, 1)
}

/// The number of edges, if there may be so many.
fn within_limit(size: u64) -> Result<u64, TooLarge>
    ensures size { IfOk result (IsWithin size) }
    ensures large { IfErr result (IsOver size) }
{
    if size > MAX_EDGES {
        Err(TooLarge::Edges)
    } else {
        Ok(size)
    }
}

/// How many edges there are once the calls of block `entry` are copied, if there may be so many.
pub(crate) fn size_within(blocks: &Blocks<'_>, entry: u32) -> Result<u64, TooLarge>
    ensures size { IfOk result (IsSizeOf (blocks_in (codes_in blocks.now)) entry) }
    ensures large { IfErr result (IsTooLarge (blocks_in (codes_in blocks.now)) entry) }
{
    let size = size_after(blocks, blocks.count(), entry, 0);
    within_limit(size)
}

/// How many edges the block of number `entry` has once each of its calls is a copy of the called block: each call edge becomes two edges
/// and those of its block. 0 where there is no such block; `TooLarge::Edges` where there are more than [`MAX_EDGES`].
pub fn inlined_size(blocks: &[Option<Automaton>], entry: u32) -> Result<u64, TooLarge>
    ensures size { IfOk result (IsSizeOf (blocks_of blocks.now) entry) }
    ensures large { IfErr result (IsTooLarge (blocks_of blocks.now) entry) }
{
    size_within(&Blocks::Automata(blocks), entry)
}
