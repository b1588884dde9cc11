//! How much of the text stands before each location, and how many edges are drawn before it.
ghost use Rattle.std.specs.Prelude.{◌≡◌, ◌≤◌, IfOk, IfErr};
ghost use Rattle.pv_call_tables.specs.Wanted.{MOST, IsMemory};
ghost use Rattle.pv_call_tables.specs.Widths.{of_call, text_by, text_at, drawn_here, drawn_at, summed, sums_below};

use crate::fault::Wanting;
use crate::marks::{Standing, call_at, standing_at};
use crate::numbers::{add, number_at};
use std::alloc::Global;

/// What each location ends, and the number of the call edge that begins there.
#[derive(Clone, Copy)]
pub struct Outline<'a> {
    pub ends: &'a [Standing],
    pub calls: &'a [Option<usize>],
}

/// Of the call edges' blocks how much text each takes, and how many edges its copy has, that out included; and how many edges begin at
/// each location, and how many lead out from where the block is done.
#[derive(Clone, Copy)]
pub struct Called<'a> {
    pub sizes: &'a [u32],
    pub counts: &'a [u32],
    pub outs: u32,
}

/// Of the call edge, if there is one, the number in the list, and else 0.
pub fn of_call(numbers: &[u32], call: Option<usize>) -> u32
    ensures { result ≡ of_call numbers.now call }
{
    match call {
        Some(j) => number_at(numbers, j),
        None => 0,
    }
}

/// How much of the text a location takes.
fn text_by(end: Standing, called: u32) -> Result<u32, Wanting>
    ensures width { IfOk result (λ n. n ≡ text_by end called) }
    ensures short { text_by end called ≤ MOST → IfErr result IsMemory }
{
    match end {
        Standing::Nothing => add(called, 1),
        Standing::Done => Ok(1),
        Standing::Trap(_, _) => Ok(0),
        Standing::Over(_) => Ok(0),
    }
}

fn text_at(outline: &Outline, texts: &[u32], l: usize) -> Result<u32, Wanting>
    ensures width { IfOk result (λ n. n ≡ text_at outline.now.ends.now outline.now.calls.now texts.now l) }
    ensures short { text_at outline.now.ends.now outline.now.calls.now texts.now l ≤ MOST → IfErr result IsMemory }
{
    text_by(
        standing_at(outline.ends, l),
        of_call(texts, call_at(outline.calls, l)),
    )
}

/// How much text there is; of each call edge's block it is told how much it takes.
pub fn text_size(outline: &Outline, texts: &[u32], locations: u32) -> Result<u32, Wanting>
    ensures size { IfOk result (λ n. n ≡ summed (text_at outline.now.ends.now outline.now.calls.now texts.now) locations) }
    ensures short { summed (text_at outline.now.ends.now outline.now.calls.now texts.now) locations ≤ MOST → IfErr result IsMemory }
{
    let mut total = 0;
    for l in 0..locations {
        total = add(total, text_at(outline, texts, l as usize)?)?;
    }
    Ok(total)
}

/// How much of the text stands before each location, and how much there is; of each call edge's block it is told how much text it takes.
pub fn starts(
    alloc: Global,
    outline: &Outline,
    texts: &[u32],
    locations: u32,
) -> Result<Vec<u32>, Wanting>
    ensures starts { IfOk result (λ made. made.items
        ≡ sums_below (text_at outline.now.ends.now outline.now.calls.now texts.now) locations) }
    ensures short { summed (text_at outline.now.ends.now outline.now.calls.now texts.now) locations ≤ MOST → IfErr result IsMemory }
{
    let mut made = Vec::new(alloc);
    let mut total = 0;
    made.push(total)?;
    for l in 0..locations {
        total = add(total, text_at(outline, texts, l as usize)?)?;
        made.push(total)?;
    }
    Ok(made)
}

/// How many edges are drawn at a location where a call edge begins, or none does.
fn drawn_here(called: &Called, call: Option<usize>, l: usize) -> Result<u32, Wanting>
    ensures width { IfOk result (λ n. n ≡ drawn_here called.now.sizes.now called.now.counts.now call l) }
    ensures short { drawn_here called.now.sizes.now called.now.counts.now call l ≤ MOST → IfErr result IsMemory }
{
    match call {
        Some(j) => add(number_at(called.sizes, j), 1),
        None => Ok(number_at(called.counts, l)),
    }
}

fn drawn_at(outline: &Outline, called: &Called, l: usize) -> Result<u32, Wanting>
    ensures width { IfOk result (λ n. n
        ≡ drawn_at outline.now.ends.now outline.now.calls.now called.now.sizes.now called.now.counts.now called.now.outs l) }
    ensures short { drawn_at outline.now.ends.now outline.now.calls.now called.now.sizes.now called.now.counts.now called.now.outs l ≤ MOST → IfErr result IsMemory }
{
    match standing_at(outline.ends, l) {
        Standing::Nothing => drawn_here(called, call_at(outline.calls, l), l),
        Standing::Done => Ok(called.outs),
        Standing::Trap(_, _) => Ok(0),
        Standing::Over(_) => Ok(0),
    }
}

/// How many edges are drawn before those of each location, and how many there are.
pub fn drawn_before(
    alloc: Global,
    outline: &Outline,
    called: &Called,
    locations: u32,
) -> Result<Vec<u32>, Wanting>
    ensures drawn { IfOk result (λ made. made.items ≡ sums_below
        (drawn_at outline.now.ends.now outline.now.calls.now called.now.sizes.now called.now.counts.now called.now.outs) locations) }
    ensures short { summed (drawn_at outline.now.ends.now outline.now.calls.now called.now.sizes.now called.now.counts.now called.now.outs) locations ≤ MOST → IfErr result IsMemory }
{
    let mut made = Vec::new(alloc);
    let mut total = 0;
    made.push(total)?;
    for l in 0..locations {
        total = add(total, drawn_at(outline, called, l as usize)?)?;
        made.push(total)?;
    }
    Ok(made)
}
