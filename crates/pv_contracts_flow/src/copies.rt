//! The calls that make copies of called blocks, and count them.
ghost use Rattle.std.specs.Prelude.{◌≡◌, ◌<◌, ◌≤◌, IfOk, IfErr, OnOk};
ghost use Rattle.pv_flow.specs.Calls.{block_at};
ghost use Rattle.pv_flow.specs.Fitting.{AreFitting};
ghost use Rattle.pv_call_copies.specs.Inlined.{inlined_size};
ghost use Rattle.pv_inline.specs.Blocks.{blocks_of, codes_of, blocks_in};
ghost use Rattle.pv_inline.specs.Correct.{IsSizeOf, IsTooLarge};
ghost use Rattle.pv_inline.specs.Inlining.{IsThere, CanCopy, IsCopied, IsWithoutCalls, IsInlinedAs, HasTheMachine, IsTooMany};
ghost use Rattle.pv_inline.specs.declared.fault.TheConstants.{MAX_EDGES};
ghost use Rattle.pv_inline.specs.declared.fault.TooLarge.TheVariants.{Numbers};
ghost use Rattle.pv_contracts_flow.specs.Rows.{IsBareBlock, IsOneCall};

use crate::parts::bare;
use pv_flow::{Automaton, CallEdge, Inlined, Parts};
use pv_inline::TooLarge;
use pv_place::Place;
use std::alloc::{AllocError, Global};

/// [`pv_inline::inlined_size`].
pub fn inlined_size(blocks: &[Option<Automaton>], entry: u32) -> Result<u64, TooLarge>
    ensures size { IfOk result (IsSizeOf (blocks_of blocks.now) entry) }
    ensures large { IfErr result (IsTooLarge (blocks_of blocks.now) entry) }
{
    pv_inline::inlined_size(blocks, entry)
}

/// [`pv_inline::inline`].
pub fn inline(
    alloc: Global,
    blocks: &[Option<Automaton>],
    entry: u32,
    bound: u32,
) -> Result<Inlined, TooLarge>
    requires fitting { AreFitting (blocks_of blocks.now) }
    requires entry { IsThere (block_at (blocks_of blocks.now) entry) }
    requires bound { 0 < bound }
    ensures copies { IfOk result (IsInlinedAs (blocks_of blocks.now) entry bound) }
    ensures machine { IfOk result (HasTheMachine (blocks_of blocks.now) entry bound) }
    ensures fits { OnOk result (inlined_size (blocks_of blocks.now) entry ≤ MAX_EDGES) }
    ensures large { IfErr result (IsTooMany (blocks_of blocks.now) (codes_of blocks.now) entry) }
{
    pv_inline::inline(alloc, blocks, entry, bound)
}

/// [`pv_inline::copy_calls`].
pub fn copy_calls(alloc: Global, blocks: &[Option<Parts>], entry: u32) -> Result<Parts, TooLarge>
    ensures copies { CanCopy blocks.now entry → IfOk result (IsCopied (blocks_in blocks.now) entry) }
    ensures sound { CanCopy blocks.now entry → IfOk result IsWithoutCalls }
    ensures fits { OnOk result (inlined_size (blocks_in blocks.now) entry ≤ MAX_EDGES) }
    ensures large { IfErr result (IsTooMany (blocks_in blocks.now) blocks.now entry) }
{
    pv_inline::copy_calls(alloc, blocks, entry)
}

/// Copies of one block that has locations and their end alone: each of their numbers has 32 bits, so that none runs out.
pub fn copy_bare(alloc: Global, blocks: &[Option<Parts>]) -> Result<Parts, TooLarge>
    requires { IsBareBlock blocks.now }
    ensures { IfErr result (λ fault. fault ≡ Numbers → ⊥) }
{
    pv_inline::copy_calls(alloc, blocks, 0)
}

/// Two locations, and a call edge from the one to the other, which runs block 0.
pub fn one_call(alloc: Global) -> Result<Parts, AllocError>
    ensures { IfOk result IsOneCall }
{
    let mut parts = bare(alloc, 2, 1);
    parts.calls.push(CallEdge {
        from: 0,
        to: 1,
        block: 0,
        instance: 0,
        place: Place { file: 0, offset: 0 },
    })?;
    Ok(parts)
}
