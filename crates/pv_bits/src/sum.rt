//! Sums and differences.

ghost use Rattle.std.specs.Prelude.{◌≡◌, ◌<◌, ◌≤◌, ◌∷◌, ◌++◌, [], All, length, IfOk, OnErr};
ghost use Rattle.pv_gate.specs.Node.{Names};
ghost use Rattle.pv_gate.specs.Building.{Gives};
ghost use Rattle.pv_bits.specs.Circuits.{full_adder, adder, subtract, negate};

use crate::word::{complements, falses};
use pv_gate::{GateFault, Gates, Literals, TRUE};
use std::alloc::Global;

/// The sum of two words and a carry, as wide as they are: a full adder for each bit, the carry out
/// of the highest one included.
pub fn adder(
    alloc: Global,
    g: &mut Gates,
    a: &[i32],
    b: &[i32],
    carry: i32,
) -> Result<Literals, GateFault>
    requires same { length a.now ≡ length b.now }
    requires first { All (Names (length g.old.nodes)) a.now }
    requires second { All (Names (length g.old.nodes)) b.now }
    requires carry { Names (length g.old.nodes) carry }
    ensures built { Gives g.old g.new (adder a.now b.now carry) result }
    ensures names { IfOk result (λ sum. All (Names (length g.new.nodes)) sum) }
    ensures width { IfOk result (λ sum. length sum ≡ length a.now) }
    ensures longer { length g.old.nodes ≤ length g.new.nodes }
{
    // The gates are within their limit.
    let _count = g.nodes();
    let mut sum = Literals::new(alloc);
    let mut carry = carry;
    for i in 0..a.len() {
        let (bit, next) = full_adder(g, a[i], b[i], carry)?;
        sum.push(bit)?;
        carry = next;
    }
    Ok(sum)
}

/// The sum bit and the carry of three bits.
fn full_adder(g: &mut Gates, a: i32, b: i32, carry: i32) -> Result<(i32, i32), GateFault>
    requires first { Names (length g.old.nodes) a }
    requires second { Names (length g.old.nodes) b }
    requires carry { Names (length g.old.nodes) carry }
    ensures built { Gives g.old g.new (full_adder a b carry) result }
    ensures sum { IfOk result (λ o. Names (length g.new.nodes) o.0) }
    ensures next { IfOk result (λ o. Names (length g.new.nodes) o.1) }
    ensures longer { length g.old.nodes ≤ length g.new.nodes }
{
    let _count = g.nodes();
    let differ = g.xor(a, b)?;
    let sum = g.xor(differ, carry)?;
    let both = g.and(a, b)?;
    let one = g.and(differ, carry)?;
    let next = g.or(both, one)?;
    Ok((sum, next))
}

/// The difference of two words: the first, the complement of the second, and a carry.
pub fn subtract(alloc: Global, g: &mut Gates, a: &[i32], b: &[i32]) -> Result<Literals, GateFault>
    requires same { length a.now ≡ length b.now }
    requires first { All (Names (length g.old.nodes)) a.now }
    requires second { All (Names (length g.old.nodes)) b.now }
    ensures built { Gives g.old g.new (subtract a.now b.now) result }
    ensures names { IfOk result (λ word. All (Names (length g.new.nodes)) word) }
    ensures width { IfOk result (λ word. length word ≡ length a.now) }
    ensures longer { length g.old.nodes ≤ length g.new.nodes }
{
    let _count = g.nodes();
    let complement = complements(alloc, g, b)?;
    adder(alloc, g, a, complement.as_slice(), TRUE)
}
