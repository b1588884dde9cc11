//! What each location ends, and which call edge begins there.
ghost use Rattle.std.specs.Prelude.{◌≡◌, IfOk, Some, slice_index_or, slice_set, None};
ghost use Rattle.pv_call_tables.specs.declared.marks.Standing.TheVariants as standing;
ghost use Rattle.pv_call_tables.specs.Standings.{with_overs, with_traps, standings_of, with_calls, calls_of};

use pv_flow::{CallEdge, OverEnd, Parts, TrapEnd};
use pv_place::{Place, TrapKind};
use std::alloc::{AllocError, Global};

/// What a location ends.
#[derive(Clone, Copy)]
pub enum Standing {
    Nothing,
    Done,
    Trap(TrapKind, Place),
    Over(Place),
}

/// What the location ends; a number that names none ends nothing.
pub fn standing_at(ends: &[Standing], l: usize) -> Standing
    ensures { result ≡ slice_index_or ends.now l standing.Nothing }
{
    if l < ends.len() {
        ends[l]
    } else {
        Standing::Nothing
    }
}

/// Marks the location, if there is one.
fn set_standing(ends: &mut [Standing], l: usize, end: Standing)
    ensures { ends.new ≡ slice_set ends.old l end }
{
    if l < ends.len() {
        ends[l] = end;
    }
}

/// The first of several traps of one location counts.
fn set_traps(ends: &mut [Standing], traps: &[TrapEnd])
    ensures { ends.new ≡ with_traps ends.old traps.now }
{
    let mut number = traps.len();
    while number > 0 {
        number -= 1;
        let trap = &traps[number];
        set_standing(
            ends,
            trap.location as usize,
            Standing::Trap(trap.kind, trap.place),
        );
    }
}

fn set_overs(ends: &mut [Standing], overs: &[OverEnd])
    ensures { ends.new ≡ with_overs ends.old overs.now }
{
    let mut number = overs.len();
    while number > 0 {
        number -= 1;
        let over = &overs[number];
        set_standing(ends, over.location as usize, Standing::Over(over.place));
    }
}

fn set_all(ends: &mut [Standing], parts: &Parts)
    ensures { ends.new ≡ slice_set (with_traps (with_overs ends.old parts.now.overs.items) parts.now.traps.items) parts.now.done standing.Done }
{
    set_overs(ends, parts.overs.as_slice());
    set_traps(ends, parts.traps.as_slice());
    set_standing(ends, parts.done as usize, Standing::Done);
}

/// What each location ends.
pub fn standings(alloc: Global, parts: &Parts) -> Result<Vec<Standing>, AllocError>
    ensures { IfOk result (λ found. found.items ≡ standings_of parts.now) }
{
    let mut found = vec![in alloc; Standing::Nothing; parts.locations as usize]?;
    set_all(&mut found, parts);
    Ok(found)
}

/// The call edge that begins at the location, if one does.
pub fn call_at(calls: &[Option<usize>], l: usize) -> Option<usize>
    ensures { result ≡ slice_index_or calls.now l None }
{
    if l < calls.len() { calls[l] } else { None }
}

fn set_call(calls: &mut [Option<usize>], l: usize, j: usize)
    ensures { calls.new ≡ slice_set calls.old l (Some j) }
{
    if l < calls.len() {
        calls[l] = Some(j);
    }
}

/// The first of several call edges of one location counts.
fn set_calls(at: &mut [Option<usize>], calls: &[CallEdge])
    ensures { at.new ≡ with_calls at.old 0 calls.now }
{
    let mut number = calls.len();
    while number > 0 {
        number -= 1;
        set_call(at, calls[number].from as usize, number);
    }
}

/// The number of the call edge that begins at each location.
pub fn calls_at(alloc: Global, parts: &Parts) -> Result<Vec<Option<usize>>, AllocError>
    ensures { IfOk result (λ found. found.items ≡ calls_of parts.now) }
{
    let mut found = vec![in alloc; None; parts.locations as usize]?;
    set_calls(&mut found, parts.calls.as_slice());
    Ok(found)
}
