//! Sets of what is written: elements with their 'sets', bits and bytes.
ghost use Rattle.std.specs.Prelude.{◌≡◌, ◌+◌, ◌*◌, ◌++◌, ◌∷◌, [], List, IfOk, OnOk};
ghost use Rattle.pv_flow.specs.Terms as terms;
ghost use Rattle.pv_terms.specs.Pushed.{IsTable, IsAt, Puts};
ghost use Rattle.pv_access.specs.Accesses as accesses;
ghost use Rattle.pv_access.specs.Given.{IsMove, AreMoves, IsWriting};
ghost use Rattle.pv_access.specs.Pushed.{AreAt, Sets};

use crate::access::{Move, Storage, Writing};
use crate::areas::{pattern_type, push_bit, push_bytes, push_right, push_with_bit};
use crate::elements::push_is_at;
use crate::numbers::{added, further, steps_of, times};
use crate::setting::{push_set, push_value, set_present, set_value};
use pv_flow::{Node, Set};
use pv_terms::{TermFault, converted};
use pv_word::Ty;
use std::alloc::Global;

/// A write to cells of one type, with their 'sets' if they are brief.
#[derive(Clone, Copy)]
struct Target {
    ty: Ty,
    paired: bool,
    writing: Writing,
}

/// How many variables each cell takes.
fn width_of(paired: bool) -> u32
    ensures { result ≡ accesses.width_of paired }
{
    if paired { 2 } else { 1 }
}

/// Sets one cell, where all conditions hold.
fn set_cell(
    nodes: &mut Vec<Node>,
    sets: &mut Vec<Set>,
    conditions: &[u32],
    target: Target,
    n: u32,
) -> Result<(), TermFault>
    ensures { (w : accesses.Writing) (cs : List terms.Term) → IsTable nodes.old.items
        → IsWriting nodes.old.items target.writing w → AreAt nodes.old.items conditions.now cs
        → OnOk result (Sets nodes.old.items nodes.new.items sets.old.items sets.new.items
        (accesses.cell_sets target.paired target.ty cs n w)) }
{
    set_value(nodes, sets, target.ty, conditions, n, target.writing)?;
    if !target.paired {
        return Ok(());
    }
    let present = added(n, 1)?;
    set_present(nodes, sets, conditions, present, target.writing)
}

/// Sets the elements from this variable on, each where all conditions hold.
#[cycle(sets)]
fn set_elements(
    nodes: &mut Vec<Node>,
    sets: &mut Vec<Set>,
    conditions: &mut Vec<u32>,
    target: Target,
    moves: &[Move],
    n: u32,
) -> Result<(), TermFault>
    ensures same { OnOk result (conditions.new.items ≡ conditions.old.items) }
    ensures sets { (w : accesses.Writing) (cs : List terms.Term) (ms : List accesses.Move) → IsTable nodes.old.items
        → IsWriting nodes.old.items target.writing w → AreAt nodes.old.items conditions.old.items cs
        → AreMoves nodes.old.items moves.now ms
        → OnOk result (Sets nodes.old.items nodes.new.items sets.old.items sets.new.items
        (accesses.element_sets target.paired target.ty w cs ms n)) }
{
    match moves.split_first() {
        None => set_cell(nodes, sets, conditions.as_slice(), target, n),
        Some((m, more)) => set_each(nodes, sets, conditions, target, m, more, n),
    }
}

/// The same where there is an index.
#[cycle(sets)]
fn set_each(
    nodes: &mut Vec<Node>,
    sets: &mut Vec<Set>,
    conditions: &mut Vec<u32>,
    target: Target,
    m: &Move,
    more: &[Move],
    n: u32,
) -> Result<(), TermFault>
    ensures same { OnOk result (conditions.new.items ≡ conditions.old.items) }
    ensures sets { (w : accesses.Writing) (cs : List terms.Term) (first : accesses.Move) (ms : List accesses.Move)
        → IsTable nodes.old.items → IsWriting nodes.old.items target.writing w
        → AreAt nodes.old.items conditions.old.items cs → IsMove nodes.old.items m.now first
        → AreMoves nodes.old.items more.now ms
        → OnOk result (Sets nodes.old.items nodes.new.items sets.old.items sets.new.items
        (accesses.element_sets target.paired target.ty w cs (first ∷ ms) n)) }
{
    let steps = steps_of(m)?;
    let count = added(steps, 1)?;
    for k in 0..count {
        set_element(nodes, sets, conditions, target, m, more, n, k)?;
    }
    Ok(())
}

/// Sets what lies in the k-th element, where the index is that one.
#[cycle(sets)]
fn set_element(
    nodes: &mut Vec<Node>,
    sets: &mut Vec<Set>,
    conditions: &mut Vec<u32>,
    target: Target,
    m: &Move,
    more: &[Move],
    n: u32,
    k: u32,
) -> Result<(), TermFault>
    ensures same { OnOk result (conditions.new.items ≡ conditions.old.items) }
    ensures sets { (w : accesses.Writing) (cs : List terms.Term) (first : accesses.Move) (ms : List accesses.Move)
        → IsTable nodes.old.items → IsWriting nodes.old.items target.writing w
        → AreAt nodes.old.items conditions.old.items cs → IsMove nodes.old.items m.now first
        → AreMoves nodes.old.items more.now ms
        → OnOk result (Sets nodes.old.items nodes.new.items sets.old.items sets.new.items
        (accesses.element_sets target.paired target.ty w (cs ++ accesses.is_at first k ∷ []) ms
        (n + k * (first.stride * accesses.width_of target.paired)))) }
{
    let at = push_is_at(nodes, m, k)?;
    let first = further(n, k, m.stride, width_of(target.paired))?;
    conditions.push(at)?;
    set_elements(nodes, sets, conditions, target, more, first)?;
    conditions.pop();
    Ok(())
}

/// Puts a value into a bit of the byte in a variable.
fn set_bit(
    nodes: &mut Vec<Node>,
    sets: &mut Vec<Set>,
    n: u32,
    b: u32,
    writing: Writing,
) -> Result<(), TermFault>
    ensures { (w : accesses.Writing) → IsTable nodes.old.items → IsWriting nodes.old.items writing w
        → OnOk result (Sets nodes.old.items nodes.new.items sets.old.items sets.new.items
        (accesses.set_of n (accesses.with_bit_term n b (w.value (accesses.bit_term n b))) ∷ [])) }
{
    let old = push_bit(nodes, n, b)?;
    let new = push_value(nodes, writing, old)?;
    let byte = push_with_bit(nodes, n, b, new)?;
    push_set(nodes, sets, n, byte)
}

/// Sets a variable to the byte of a pattern that is so many bytes from the lowest.
fn set_byte(
    nodes: &mut Vec<Node>,
    sets: &mut Vec<Set>,
    ty: Ty,
    n: u32,
    k: u32,
    pattern: u32,
) -> Result<(), TermFault>
    ensures { (t : terms.Term) → IsTable nodes.old.items → IsAt nodes.old.items pattern t
        → OnOk result (Sets nodes.old.items nodes.new.items sets.old.items sets.new.items
        (accesses.byte_set ty n k t ∷ [])) }
{
    let places = times(8, k)?;
    let low = push_right(nodes, ty, places, pattern)?;
    let byte = converted(nodes, ty, Ty::Byte, low)?;
    push_set(nodes, sets, n, byte)
}

/// Puts a pattern into so many bytes, the high one first.
fn set_pattern(
    nodes: &mut Vec<Node>,
    sets: &mut Vec<Set>,
    ty: Ty,
    n: u32,
    count: u32,
    pattern: u32,
) -> Result<(), TermFault>
    ensures { (t : terms.Term) → IsTable nodes.old.items → IsAt nodes.old.items pattern t
        → OnOk result (Sets nodes.old.items nodes.new.items sets.old.items sets.new.items
        (accesses.pattern_sets ty n count t)) }
{
    if count == 0 {
        return Ok(());
    }
    let next = added(n, 1)?;
    set_byte(nodes, sets, ty, n, count - 1, pattern)?;
    set_pattern(nodes, sets, ty, next, count - 1, pattern)
}

/// Puts a value into so many bytes, at most four.
fn set_bytes(
    nodes: &mut Vec<Node>,
    sets: &mut Vec<Set>,
    own: Ty,
    n: u32,
    count: u32,
    writing: Writing,
) -> Result<(), TermFault>
    ensures { (w : accesses.Writing) → IsTable nodes.old.items → IsWriting nodes.old.items writing w
        → OnOk result (Sets nodes.old.items nodes.new.items sets.old.items sets.new.items
        (accesses.byte_sets own n count (w.value (accesses.bytes_term own n count)))) }
{
    let old = push_bytes(nodes, own, n, count)?;
    let new = push_value(nodes, writing, old)?;
    let ty = pattern_type(count);
    let pattern = converted(nodes, own, ty, new)?;
    set_pattern(nodes, sets, ty, n, count, pattern)
}

/// Sets the cells that are written there at the indexes.
fn set_cells(
    alloc: Global,
    nodes: &mut Vec<Node>,
    sets: &mut Vec<Set>,
    target: Target,
    moves: &[Move],
    n: u32,
) -> Result<(), TermFault>
    ensures { (w : accesses.Writing) (ms : List accesses.Move) → IsTable nodes.old.items
        → IsWriting nodes.old.items target.writing w → AreMoves nodes.old.items moves.now ms
        → OnOk result (Sets nodes.old.items nodes.new.items sets.old.items sets.new.items
        (accesses.element_sets target.paired target.ty w [] ms n)) }
{
    let mut conditions = Vec::new(alloc);
    set_elements(nodes, sets, &mut conditions, target, moves, n)
}

/// Adds the sets of what is written there at the indexes.
pub fn push_write(
    alloc: Global,
    nodes: &mut Vec<Node>,
    sets: &mut Vec<Set>,
    storage: Storage,
    moves: &[Move],
    writing: Writing,
) -> Result<(), TermFault>
    ensures { (w : accesses.Writing) (ms : List accesses.Move) → IsTable nodes.old.items
        → IsWriting nodes.old.items writing w → AreMoves nodes.old.items moves.now ms
        → OnOk result (Sets nodes.old.items nodes.new.items sets.old.items sets.new.items
        (accesses.write_sets storage ms w)) }
{
    match storage {
        Storage::Cell(ty, n) => {
            let target = Target {
                ty,
                paired: false,
                writing,
            };
            set_cells(alloc, nodes, sets, target, moves, n)
        }
        Storage::Brief(ty, n) => {
            let target = Target {
                ty,
                paired: true,
                writing,
            };
            set_cells(alloc, nodes, sets, target, moves, n)
        }
        Storage::Bit(n, b) => set_bit(nodes, sets, n, b, writing),
        Storage::Bytes(ty, n, count) => set_bytes(nodes, sets, ty, n, count, writing),
        Storage::Fixed(_) | Storage::Nowhere => Ok(()),
    }
}
