//! The walk down the text: each location of a block with what stands behind it.
ghost use Rattle.std.specs.Prelude.{◌≡◌, ◌+◌, ◌≤◌, suc, MatchOption, IfOk, IfErr, None, Some, length, slice_get, slice_index_or};
ghost use Rattle.pv_flow.specs.declared.parts.Parts.{Parts as CodeParts};
ghost use Rattle.pv_flow.specs.Calls.{own_count};
ghost use Rattle.pv_flow.specs.View.{parts_of};
ghost use Rattle.pv_call_tables.specs.declared.marks.Standing.TheVariants as standing;
ghost use Rattle.pv_call_tables.specs.Wanted.{IsMemory};
ghost use Rattle.pv_inline.specs.Numbers.{MOST};
ghost use Rattle.pv_inline.specs.Short.{AreShort, IsShort, HasNoMore, IsAtWork};
ghost use Rattle.pv_inline.specs.Blocks.{codes_in};
ghost use Rattle.pv_inline.specs.Walking.{all_made, below, number, with_deeds, called_made, call_made, location_made, locations_made, copy_made};
ghost use Rattle.pv_inline.specs.Seen.{copy_seen, making_seen, IsCalleeBody};

use crate::blocks::Blocks;
use crate::called::own_count;
use crate::copying::{
    Body, Copying, add_loops, aim, copy_tables, draw_edges, draw_in, draw_out, number,
};
use crate::making::Making;
use crate::table::table_of;
use pv_call_tables::{Standing, Wanting, add, call_at, number_at, standing_at};
use pv_call_terms::Places;
use pv_flow::{CallEdge, Parts};
use std::alloc::Global;

/// The copy of what a call edge from location l runs.
fn callee_body(
    copy: &Copying,
    l: u32,
    call: &CallEdge,
    callee: &Parts,
    own_at: u32,
) -> Result<Body, Wanting>
    ensures body { IfOk result (IsCalleeBody (copy_seen copy.now) l call.now callee.now own_at) }
    ensures short { IsShort (copy_seen copy.now) → number (copy_seen copy.now) l + 1 ≤ MOST
        → ((copy_seen copy.now).edges + slice_index_or (copy_seen copy.now).table.drawn l 0) + 1 ≤ MOST
        → own_at + own_count (parts_of callee.now) ≤ MOST → IfErr result IsMemory }
{
    let here = number(copy, l)?;
    let drawn = number_at(copy.table.widths.drawn.as_slice(), l as usize);
    let before = add(copy.body.edges, drawn)?;
    Ok(Body {
        start: add(here, 1)?,
        out: Some(aim(copy, call.to)?),
        deeds: 0,
        edges: add(before, 1)?,
        free: add(own_at, own_count(callee)?)?,
    })
}

/// The copy whose deeds stand behind so many others.
fn behind_deeds<'a>(copy: &Copying<'a>, deeds: u32) -> Copying<'a>
    ensures { copy_seen result ≡ with_deeds deeds (copy_seen copy.now) }
{
    let body = Body { deeds, ..copy.body };
    Copying { body, ..*copy }
}

/// Adds the copy of a called block, with the edge into it from the location of this number; down so many levels of calls.
#[cycle(copying)]
fn add_called(
    alloc: Global,
    making: &mut Making,
    blocks: &Blocks<'_>,
    levels: usize,
    copy: &Copying,
    from: u32,
) -> Result<(), Wanting>
    ensures made { IfOk result (λ _. making_seen making.new
        ≡ called_made (below (codes_in blocks.now) levels) (copy_seen copy.now) from (making_seen making.old)) }
    ensures short { (p : CodeParts) → AreShort (codes_in blocks.now) p → IsAtWork (codes_in blocks.now) p levels (copy_seen copy.now)
        → HasNoMore (called_made (below (codes_in blocks.now) levels) (copy_seen copy.now) from (making_seen making.old))
        (all_made (codes_in blocks.now) p) → IfErr result IsMemory }
{
    draw_in(alloc, making, copy, from)?;
    if levels == 0 {
        return Ok(());
    }
    add_copy(alloc, making, blocks, levels - 1, copy)
}

/// The call edge of this number, if there is one.
fn call_of<'a>(copy: &Copying<'a>, j: usize) -> Option<&'a CallEdge>
    ensures { MatchOption result (slice_get copy.now.parts.now.calls.items j ≡ None)
        (λ call. slice_get copy.now.parts.now.calls.items j ≡ Some call.now) }
{
    copy.parts.calls.as_slice().get(j)
}

/// Adds the copy of what a call edge from location l runs.
#[cycle(copying)]
fn add_call(
    alloc: Global,
    making: &mut Making,
    blocks: &Blocks<'_>,
    levels: usize,
    copy: &Copying,
    l: u32,
    j: usize,
) -> Result<(), Wanting>
    ensures made { IfOk result (λ _. making_seen making.new
        ≡ call_made (codes_in blocks.now) (below (codes_in blocks.now) levels) (copy_seen copy.now) l j (slice_get copy.now.parts.now.calls.items j) (making_seen making.old)) }
    ensures short { slice_index_or (copy_seen copy.now).table.ends l standing.Nothing ≡ standing.Nothing
        → slice_index_or (copy_seen copy.now).table.calls l None ≡ Some j
        → (p : CodeParts) → AreShort (codes_in blocks.now) p → IsAtWork (codes_in blocks.now) p (suc levels) (copy_seen copy.now)
        → HasNoMore (call_made (codes_in blocks.now) (below (codes_in blocks.now) levels) (copy_seen copy.now) l j
        (slice_get copy.now.parts.now.calls.items j) (making_seen making.old))
        (all_made (codes_in blocks.now) p) → IfErr result IsMemory }
{
    let Some(call) = call_of(copy, j) else {
        return Ok(());
    };
    let Some(callee) = blocks.at(call.block) else {
        return Ok(());
    };
    let own_at = add(
        copy.body.free,
        number_at(copy.table.widths.bases.as_slice(), j),
    )?;
    let places = copy.places.of_callee(alloc, call, callee, own_at)?;
    let table = table_of(alloc, blocks, callee, 1)?;
    let body = callee_body(copy, l, call, callee, own_at)?;
    let inner = Copying {
        parts: callee,
        table: &table,
        places: &places,
        body,
    };
    let from = number(copy, l)?;
    add_called(alloc, making, blocks, levels, &inner, from)
}

/// Adds what stands at location l, and behind it.
#[cycle(copying)]
fn add_location(
    alloc: Global,
    making: &mut Making,
    blocks: &Blocks<'_>,
    levels: usize,
    copy: &Copying,
    l: u32,
) -> Result<(), Wanting>
    ensures made { IfOk result (λ _. making_seen making.new
        ≡ location_made (codes_in blocks.now) (below (codes_in blocks.now) levels) (copy_seen copy.now) l (making_seen making.old)) }
    ensures short { (p : CodeParts) → AreShort (codes_in blocks.now) p → IsAtWork (codes_in blocks.now) p (suc levels) (copy_seen copy.now)
        → HasNoMore (location_made (codes_in blocks.now) (below (codes_in blocks.now) levels) (copy_seen copy.now) l (making_seen making.old))
        (all_made (codes_in blocks.now) p) → IfErr result IsMemory }
{
    add_loops(alloc, making, copy, l)?;
    match standing_at(copy.table.marks.ends.as_slice(), l as usize) {
        Standing::Nothing => match call_at(copy.table.marks.calls.as_slice(), l as usize) {
            Some(j) => add_call(alloc, making, blocks, levels, copy, l, j),
            None => draw_edges(alloc, making, copy, l),
        },
        Standing::Done => draw_out(making, copy, l),
        Standing::Trap(_, _) => Ok(()),
        Standing::Over(_) => Ok(()),
    }
}

/// Adds what stands at each location, and behind it.
#[cycle(copying)]
fn add_locations(
    alloc: Global,
    making: &mut Making,
    blocks: &Blocks<'_>,
    levels: usize,
    copy: &Copying,
) -> Result<(), Wanting>
    ensures made { IfOk result (λ _. making_seen making.new
        ≡ locations_made (codes_in blocks.now) (below (codes_in blocks.now) levels) (copy_seen copy.now) copy.now.parts.now.locations (making_seen making.old)) }
    ensures short { (p : CodeParts) → AreShort (codes_in blocks.now) p → IsAtWork (codes_in blocks.now) p (suc levels) (copy_seen copy.now)
        → HasNoMore (locations_made (codes_in blocks.now) (below (codes_in blocks.now) levels) (copy_seen copy.now)
        copy.now.parts.now.locations (making_seen making.old))
        (all_made (codes_in blocks.now) p) → IfErr result IsMemory }
{
    for l in 0..copy.parts.locations {
        add_location(alloc, making, blocks, levels, copy, l)?;
    }
    Ok(())
}

/// Adds the copy of a block: its terms and deeds, then location by location.
#[cycle(copying)]
pub(crate) fn add_copy(
    alloc: Global,
    making: &mut Making,
    blocks: &Blocks<'_>,
    levels: usize,
    copy: &Copying,
) -> Result<(), Wanting>
    ensures made { IfOk result (λ _. making_seen making.new
        ≡ copy_made (codes_in blocks.now) (below (codes_in blocks.now) levels) (copy_seen copy.now) (making_seen making.old)) }
    ensures short { (p : CodeParts) → AreShort (codes_in blocks.now) p → IsAtWork (codes_in blocks.now) p (suc levels) (copy_seen copy.now)
        → HasNoMore (copy_made (codes_in blocks.now) (below (codes_in blocks.now) levels) (copy_seen copy.now) (making_seen making.old))
        (all_made (codes_in blocks.now) p) → IfErr result IsMemory }
{
    let deeds = making.next_deed()?;
    copy_tables(alloc, making, copy)?;
    let own = behind_deeds(copy, deeds);
    add_locations(alloc, making, blocks, levels, &own)
}
