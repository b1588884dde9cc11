//! Nesting from below, found before a tree is built.
//!
//! Of each value on the stack it is known where it begins and, for each depth of at most 64, where the first part in it
//! begins that has so many parts above it. So a text that nests millions deep costs a few places a value, and never becomes
//! a tree.
ghost use Rattle.std.specs.Prelude.{◌≡◌, ◌∷◌, IfOk, OnOk};
ghost use Rattle.pv_parse.specs.Items.{Leaves, Pops};
ghost use Rattle.pv_parse.specs.Shades.{merged, over, group_of, part_of, empty, shade_on, gathered, left_below, sink, shade_in, shades_of};

use crate::stack::Stop;
use pv_place::Place;
use std::alloc::{AllocError, Global};

/// How many places by depth matter: the last of them is that of a part that is too deep.
const MOST_PLACES: usize = 65;

/// What is known of a value on the stack.
#[derive(Drop)]
pub struct Shaded {
    /// The place of its first token.
    pub first: Place,
    /// By depth, at most 65 of them: the place of the first part in it that has so many parts above it.
    pub parts: Vec<Place>,
}

/// What an alternative does with what is known of the values on the stack.
#[derive(Clone, Copy, Debug)]
pub enum Shading {
    /// It takes so many values off.
    Take(u8),
    /// It makes one value of so many, which begins where the lowest of them does. Of those whose bit is set, the lowest that of
    /// the top, the parts don't count.
    Join { count: u8, drops: u16 },
    /// It makes one value of so many, of which it doesn't matter where it begins. Of none it makes an empty one.
    Group { count: u8, drops: u16 },
    /// It makes one value of so many, and that is a part.
    Part { count: u8, drops: u16 },
    /// It makes one value of so many below the top, and puts an empty one on the top.
    Branch { count: u8 },
}

/// By depth the first places of one value and of the one behind it.
#[tactic(auto, using(crate::proofs::Merging::merged_longer, crate::proofs::Merging::merged_shorter))]
fn merged(mut before: Vec<Place>, behind: Vec<Place>) -> Result<Vec<Place>, AllocError>
    ensures { IfOk result (λ both. both.items ≡ merged before.items behind.items) }
{
    if before.is_empty() {
        return Ok(behind);
    }
    let from = before.len();
    if from >= behind.len() {
        return Ok(before);
    }
    before.extend_from_slice(&behind[from..])?;
    Ok(before)
}

/// A value with one behind it.
fn over(counts: bool, value: Shaded, one: Shaded) -> Result<Shaded, AllocError>
    ensures { IfOk result (λ both. shade_in both ≡ over counts (shade_in value) (shade_in one)) }
{
    let first = value.first;
    if counts {
        let parts = merged(value.parts, one.parts)?;
        Ok(Shaded { first, parts })
    } else {
        Ok(Shaded {
            first,
            parts: one.parts,
        })
    }
}

fn pop(stack: &mut Vec<Shaded>) -> Result<Shaded, Stop>
    ensures { Pops shade_in result (shades_of stack.new) (shade_on (shades_of stack.old)) }
{
    match stack.pop() {
        Some(value) => Ok(value),
        None => Err(Stop::Mistyped),
    }
}

/// So many values off the top as one.
fn gather(alloc: Global, count: u8, drops: u16, stack: &mut Vec<Shaded>) -> Result<Shaded, Stop>
    ensures { Pops shade_in result (shades_of stack.new)
        (gathered count drops empty (shades_of stack.old)) }
{
    let mut one = empty(alloc);
    let mut left = count;
    let mut drops = drops;
    'values: while left > 0 {
        let value = pop(stack)?;
        one = over(drops % 2 == 0, value, one)?;
        drops /= 2;
        left -= 1;
    }
    Ok(one)
}

/// So many values off the top.
fn take_off(count: u8, stack: &mut Vec<Shaded>) -> Result<(), Stop>
    ensures { Leaves result (shades_of stack.new) (left_below count (shades_of stack.old)) }
{
    let mut left = count;
    'values: while left > 0 {
        let _value = pop(stack)?;
        left -= 1;
    }
    Ok(())
}

/// A value of which it doesn't matter where it begins.
fn group_of(value: Shaded) -> Shaded
    ensures { shade_in result ≡ group_of (shade_in value) }
{
    Shaded {
        first: Place { file: 0, offset: 0 },
        parts: value.parts,
    }
}

/// A value without tokens.
fn empty(alloc: Global) -> Shaded
    ensures { shade_in result ≡ empty }
{
    Shaded {
        first: Place { file: 0, offset: 0 },
        parts: Vec::new(alloc),
    }
}

/// A value that is a part.
fn part_of(mut value: Shaded) -> Result<Shaded, AllocError>
    ensures { IfOk result (λ part. shade_in part ≡ part_of (shade_in value)) }
{
    let begin = value.first;
    value.parts.insert(0, begin)?;
    value.parts.truncate(MOST_PLACES);
    Ok(value)
}

/// Puts a value on the stack.
pub fn push(stack: &mut Vec<Shaded>, value: Shaded) -> Result<(), AllocError>
    ensures { OnOk result (shades_of stack.new ≡ shade_in value ∷ shades_of stack.old) }
{
    stack.push(value)?;
    Ok(())
}

/// One value of so many below the top, and an empty one on the top.
fn branch(alloc: Global, count: u8, stack: &mut Vec<Shaded>) -> Result<(), Stop>
    ensures { Leaves result (shades_of stack.new) (sink (Shading.Branch count) (shades_of stack.old)) }
{
    let top = pop(stack)?;
    let one = gather(alloc, count, 0, stack)?;
    push(stack, group_of(one))?;
    push(stack, top)?;
    push(stack, empty(alloc))?;
    Ok(())
}

/// What an alternative does with what is known of the values on the stack.
pub fn sink(alloc: Global, shading: Shading, stack: &mut Vec<Shaded>) -> Result<(), Stop>
    ensures { Leaves result (shades_of stack.new) (sink shading (shades_of stack.old)) }
{
    match shading {
        Shading::Take(count) => take_off(count, stack),
        Shading::Join { count, drops } => {
            let one = gather(alloc, count, drops, stack)?;
            push(stack, one)?;
            Ok(())
        }
        Shading::Group { count, drops } => {
            let one = gather(alloc, count, drops, stack)?;
            push(stack, group_of(one))?;
            Ok(())
        }
        Shading::Part { count, drops } => {
            let one = gather(alloc, count, drops, stack)?;
            let part = part_of(one)?;
            push(stack, part)?;
            Ok(())
        }
        Shading::Branch { count } => branch(alloc, count, stack),
    }
}
