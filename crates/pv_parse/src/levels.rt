//! How deep values nest, as numbers alone.
//!
//! Of each value on the stack it is known how many levels it has, a byte a value. That tells at little cost of nearly every text
//! that nothing in it is too deep; where something is, the places by depth tell where.
ghost use Rattle.std.specs.Prelude.{◌≡◌, ◌∷◌, ◌++◌, ℕ, List, length, reverse, Some, OnOk};
ghost use Rattle.pv_parse.specs.Items.{Leaves, Pops};
ghost use Rattle.pv_parse.specs.Levels.{over, part_of, gathered, left_below, level_on, level_at, sink, levels_in};

use crate::shade::Shading;
use crate::stack::Stop;
use std::alloc::AllocError;

/// More levels than are too deep count as so many.
const MOST: u8 = 65;

/// The levels of a value with one behind it.
fn over(counts: bool, value: u8, one: u8) -> u8
    ensures { result ≡ over counts value one }
{
    if counts { value.max(one) } else { one }
}

/// The levels of a part.
fn part_of(levels: u8) -> u8
    ensures { result ≡ part_of levels }
{
    if levels < MOST { levels + 1 } else { MOST }
}

fn pop(stack: &mut Vec<u8>) -> Result<u8, Stop>
    ensures { Pops (λ levels. levels) result (levels_in stack.new) (level_on (levels_in stack.old)) }
{
    match stack.pop() {
        Some(levels) => Ok(levels),
        None => Err(Stop::Mistyped),
    }
}

/// The levels of values as one, the last of them the top's.
fn greatest_of_many(values: &[u8]) -> u8
    ensures { (below : List ℕ) → gathered (length values.now) 0 0 (reverse values.now ++ below) ≡ Some (result, below) }
{
    let mut one = 0;
    let mut left = values.len();
    'values: while left > 0 {
        left -= 1;
        one = over(true, values[left], one);
    }
    one
}

/// The same, with no loop over two or three.
fn greatest(values: &[u8]) -> u8
    ensures { (below : List ℕ) → gathered (length values.now) 0 0 (reverse values.now ++ below) ≡ Some (result, below) }
{
    match values {
        [low, top] => over(true, *low, over(true, *top, 0)),
        [low, middle, top] => over(true, *low, over(true, *middle, over(true, *top, 0))),
        _ => greatest_of_many(values),
    }
}

/// The same, where some of them may not count.
fn joined(drops: u16, values: &[u8]) -> u8
    ensures { (below : List ℕ) → gathered (length values.now) drops 0 (reverse values.now ++ below) ≡ Some (result, below) }
{
    if drops == 0 {
        return greatest(values);
    }
    let mut one = 0;
    let mut drops = drops;
    let mut left = values.len();
    'values: while left > 0 {
        left -= 1;
        one = over(drops % 2 == 0, values[left], one);
        drops /= 2;
    }
    one
}

/// The levels of the top value, if it counts.
fn top_as_one(drops: u16, stack: &mut Vec<u8>) -> Result<u8, Stop>
    ensures { Pops (λ levels. levels) result (levels_in stack.new) (gathered 1 drops 0 (levels_in stack.old)) }
{
    let value = pop(stack)?;
    Ok(over(drops % 2 == 0, value, 0))
}

/// The levels of so many values off the top as one.
fn gather(count: u8, drops: u16, stack: &mut Vec<u8>) -> Result<u8, Stop>
    ensures { Pops (λ levels. levels) result (levels_in stack.new) (gathered count drops 0 (levels_in stack.old)) }
{
    if count == 1 {
        return top_as_one(drops, stack);
    }
    let count = count as usize;
    if stack.len() < count {
        return Err(Stop::Mistyped);
    }
    let kept = stack.len() - count;
    let (_, values) = stack.as_slice().split_at(kept);
    let one = joined(drops, values);
    stack.truncate(kept);
    Ok(one)
}

/// So many values off the top.
fn take_off(count: u8, stack: &mut Vec<u8>) -> Result<(), Stop>
    ensures { Leaves result (levels_in stack.new) (left_below count (levels_in stack.old)) }
{
    let count = count as usize;
    if stack.len() < count {
        return Err(Stop::Mistyped);
    }
    let kept = stack.len() - count;
    stack.truncate(kept);
    Ok(())
}

/// Puts the levels of a value on the stack.
pub fn push(stack: &mut Vec<u8>, levels: u8) -> Result<(), AllocError>
    ensures { OnOk result (levels_in stack.new ≡ levels ∷ levels_in stack.old) }
{
    stack.push(levels)?;
    Ok(())
}

/// The levels of the value on top; 0 where there is none.
pub fn top(stack: &mut Vec<u8>) -> u8
    ensures { result ≡ level_at (levels_in stack.old) }
{
    match stack.pop() {
        Some(levels) => levels,
        None => 0,
    }
}

/// Those of one value of so many below the top, and an empty one's on the top.
fn branch(count: u8, stack: &mut Vec<u8>) -> Result<(), Stop>
    ensures { Leaves result (levels_in stack.new) (sink (Shading.Branch count) (levels_in stack.old)) }
{
    let top = pop(stack)?;
    let one = gather(count, 0, stack)?;
    push(stack, one)?;
    push(stack, top)?;
    push(stack, 0)?;
    Ok(())
}

/// What an alternative does with the levels of the values on the stack.
pub fn sink(shading: &Shading, stack: &mut Vec<u8>) -> Result<(), Stop>
    ensures { Leaves result (levels_in stack.new) (sink shading.now (levels_in stack.old)) }
{
    match *shading {
        Shading::Take(count) => take_off(count, stack),
        Shading::Join { count, drops } | Shading::Group { count, drops } => {
            let one = gather(count, drops, stack)?;
            push(stack, one)?;
            Ok(())
        }
        Shading::Part { count, drops } => {
            let one = gather(count, drops, stack)?;
            push(stack, part_of(one))?;
            Ok(())
        }
        Shading::Branch { count } => branch(count, stack),
    }
}
