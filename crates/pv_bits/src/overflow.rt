//! Whether the exact result of a sum, a difference or a product is past its type.

ghost use Rattle.std.specs.Prelude.{◌≡◌, ◌<◌, ◌≤◌, ◌+◌, ◌-◌, ◌/◌, ◌++◌, All, length, take, replicate, neg_ℤ, IfOk, OnErr, Err};
ghost use Rattle.pv_gate.specs.Node.{Names};
ghost use Rattle.pv_gate.specs.Building.{Gives};
ghost use Rattle.pv_gate.specs.declared.fault.GateFault.TheVariants.{NoMemory};
ghost use Rattle.pv_bits.specs.Circuits.{sign, wider, past, sum_overflow, difference_overflow, from_half, product_overflow};

use crate::choice::joined;
use crate::compare::equal;
use crate::product::multiply;
use crate::sum::{adder, subtract};
use crate::word::{below_top, copies, top};
use pv_gate::{FALSE, GateFault, Gates, Literals};
use std::alloc::Global;

/// True where the sum of two words isn't a number of their width, signed or from 0.
///
/// The sum is made over the words with one bit more: the highest one again, or constant false above
/// numbers from 0. XOR of its two highest bits, or from 0 the highest one.
pub fn sum_overflow(
    alloc: Global,
    g: &mut Gates,
    signed: bool,
    a: &[i32],
    b: &[i32],
) -> Result<i32, GateFault>
    requires same { length a.now ≡ length b.now }
    requires width { 1 ≤ length a.now }
    requires first { All (Names (length g.old.nodes)) a.now }
    requires second { All (Names (length g.old.nodes)) b.now }
    ensures built { Gives g.old g.new (sum_overflow signed a.now b.now) result }
    ensures names { IfOk result (λ literal. Names (length g.new.nodes) literal) }
    ensures longer { length g.old.nodes ≤ length g.new.nodes }
{
    // The gates are within their limit.
    let _count = g.nodes();
    let first = wider(alloc, g, signed, a)?;
    let second = wider(alloc, g, signed, b)?;
    let sum = adder(alloc, g, first.as_slice(), second.as_slice(), FALSE)?;
    past(g, signed, sum.as_slice())
}

/// True where the difference of two words isn't a number of their width, signed or from 0: made as
/// that of a sum.
pub fn difference_overflow(
    alloc: Global,
    g: &mut Gates,
    signed: bool,
    a: &[i32],
    b: &[i32],
) -> Result<i32, GateFault>
    requires same { length a.now ≡ length b.now }
    requires width { 1 ≤ length a.now }
    requires first { All (Names (length g.old.nodes)) a.now }
    requires second { All (Names (length g.old.nodes)) b.now }
    ensures built { Gives g.old g.new (difference_overflow signed a.now b.now) result }
    ensures names { IfOk result (λ literal. Names (length g.new.nodes) literal) }
    ensures longer { length g.old.nodes ≤ length g.new.nodes }
{
    let _count = g.nodes();
    let first = wider(alloc, g, signed, a)?;
    let second = wider(alloc, g, signed, b)?;
    let difference = subtract(alloc, g, first.as_slice(), second.as_slice())?;
    past(g, signed, difference.as_slice())
}

/// True where the product of two words isn't a signed number of half their width: the product, as
/// wide as they are, isn't equal to its lower half with that one's highest bit in each place above.
pub fn product_overflow(
    alloc: Global,
    g: &mut Gates,
    a: &[i32],
    b: &[i32],
) -> Result<i32, GateFault>
    requires same { length a.now ≡ length b.now }
    requires width { 2 ≤ length a.now }
    requires first { All (Names (length g.old.nodes)) a.now }
    requires second { All (Names (length g.old.nodes)) b.now }
    ensures built { Gives g.old g.new (product_overflow a.now b.now) result }
    ensures names { IfOk result (λ literal. Names (length g.new.nodes) literal) }
    ensures longer { length g.old.nodes ≤ length g.new.nodes }
{
    let _count = g.nodes();
    let product = multiply(alloc, g, a, b)?;
    let half = from_half(alloc, g, product.as_slice())?;
    let fits = equal(g, product.as_slice(), half.as_slice())?;
    Ok(g.complement(fits))
}

/// Whether a result with one bit more is past the numbers without it.
fn past(g: &mut Gates, signed: bool, wide: &[i32]) -> Result<i32, GateFault>
    requires width { 2 ≤ length wide.now }
    requires wide { All (Names (length g.old.nodes)) wide.now }
    ensures built { Gives g.old g.new (past signed wide.now) result }
    ensures names { IfOk result (λ literal. Names (length g.new.nodes) literal) }
    ensures longer { length g.old.nodes ≤ length g.new.nodes }
{
    let _count = g.nodes();
    if signed {
        g.xor(top(below_top(wide)), top(wide))
    } else {
        Ok(top(wide))
    }
}

/// What stands above a word.
fn sign(signed: bool, word: &[i32]) -> i32
    requires { 1 ≤ length word.now }
    ensures { result ≡ sign signed word.now }
{
    if signed { top(word) } else { FALSE }
}

/// The word with one bit more.
fn wider(alloc: Global, g: &Gates, signed: bool, word: &[i32]) -> Result<Literals, GateFault>
    requires width { 1 ≤ length word.now }
    requires word { All (Names (length g.now.nodes)) word.now }
    ensures word { IfOk result (λ wide. wide ≡ wider signed word.now) }
    ensures names { IfOk result (λ wide. All (Names (length g.now.nodes)) wide) }
    ensures width { IfOk result (λ wide. length wide ≡ length word.now + 1) }
    ensures err { OnErr result (result ≡ Err NoMemory) }
{
    // Node 1 is there.
    let _count = g.nodes();
    let mut wide = Literals::from_slice(alloc, word)?;
    wide.push(sign(signed, word))?;
    Ok(wide)
}

/// The lower half, with its highest bit in each place above.
fn from_half(alloc: Global, g: &Gates, word: &[i32]) -> Result<Literals, GateFault>
    requires width { 2 ≤ length word.now }
    requires word { All (Names (length g.now.nodes)) word.now }
    ensures word { IfOk result (λ made. made ≡ from_half word.now) }
    ensures names { IfOk result (λ made. All (Names (length g.now.nodes)) made) }
    ensures width { IfOk result (λ made. length made ≡ length word.now) }
    ensures err { OnErr result (result ≡ Err NoMemory) }
{
    let half = &word[..word.len() / 2];
    let above = copies(alloc, top(half), word.len() - half.len())?;
    joined(Literals::from_slice(alloc, half)?, above.as_slice())
}
