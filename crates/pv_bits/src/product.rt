//! Products.

ghost use Rattle.std.specs.Prelude.{◌≡◌, ◌<◌, ◌≤◌, All, length, IfOk, OnErr};
ghost use Rattle.pv_gate.specs.Node.{Names};
ghost use Rattle.pv_gate.specs.Building.{Gives};
ghost use Rattle.pv_bits.specs.Circuits.{and_each, multiply_bit, multiply};

use crate::choice::shifted;
use crate::sum::adder;
use crate::word::falses;
use pv_gate::{FALSE, GateFault, Gates, Literals};
use std::alloc::Global;

/// The product of two words, as wide as they are.
///
/// From zero, for each bit of the second word the first one is added, shifted left as many places
/// and AND-ed with that bit: first the AND gates of all its bits, then the adder.
pub fn multiply(alloc: Global, g: &mut Gates, a: &[i32], b: &[i32]) -> Result<Literals, GateFault>
    requires same { length a.now ≡ length b.now }
    requires first { All (Names (length g.old.nodes)) a.now }
    requires second { All (Names (length g.old.nodes)) b.now }
    ensures built { Gives g.old g.new (multiply a.now b.now) result }
    ensures names { IfOk result (λ word. All (Names (length g.new.nodes)) word) }
    ensures width { IfOk result (λ word. length word ≡ length a.now) }
    ensures longer { length g.old.nodes ≤ length g.new.nodes }
{
    // The gates are within their limit.
    let _count = g.nodes();
    let mut sum = falses(alloc, g, a.len())?;
    let mut part = Literals::from_slice(alloc, a)?;
    for i in 0..b.len() {
        let (next, shifted) = multiply_bit(alloc, g, sum.as_slice(), part.as_slice(), b[i])?;
        sum = next;
        part = shifted;
    }
    Ok(sum)
}

/// The sum so far with the part where `bit`, and the part shifted by one place.
fn multiply_bit(
    alloc: Global,
    g: &mut Gates,
    sum: &[i32],
    part: &[i32],
    bit: i32,
) -> Result<(Literals, Literals), GateFault>
    requires same { length sum.now ≡ length part.now }
    requires sum { All (Names (length g.old.nodes)) sum.now }
    requires part { All (Names (length g.old.nodes)) part.now }
    requires bit { Names (length g.old.nodes) bit }
    ensures built { Gives g.old g.new (multiply_bit (sum.now, part.now) bit) result }
    ensures sum { IfOk result (λ o. All (Names (length g.new.nodes)) o.0) }
    ensures part { IfOk result (λ o. All (Names (length g.new.nodes)) o.1) }
    ensures sum_width { IfOk result (λ o. length o.0 ≡ length sum.now) }
    ensures part_width { IfOk result (λ o. length o.1 ≡ length part.now) }
    ensures longer { length g.old.nodes ≤ length g.new.nodes }
{
    let _count = g.nodes();
    let masked = and_each(alloc, g, part, bit)?;
    let next = adder(alloc, g, sum, masked.as_slice(), FALSE)?;
    let shifted = shifted(alloc, g, part, true, 1)?;
    Ok((next, shifted))
}

/// Each bit of the word and `bit`.
fn and_each(alloc: Global, g: &mut Gates, word: &[i32], bit: i32) -> Result<Literals, GateFault>
    requires word { All (Names (length g.old.nodes)) word.now }
    requires bit { Names (length g.old.nodes) bit }
    ensures built { Gives g.old g.new (and_each word.now bit) result }
    ensures names { IfOk result (λ made. All (Names (length g.new.nodes)) made) }
    ensures width { IfOk result (λ made. length made ≡ length word.now) }
    ensures longer { length g.old.nodes ≤ length g.new.nodes }
{
    let _count = g.nodes();
    let mut made = Literals::new(alloc);
    for i in 0..word.len() {
        let both = g.and(word[i], bit)?;
        made.push(both)?;
    }
    Ok(made)
}
