//! Which of two words is less, and whether they are equal.

ghost use Rattle.std.specs.Prelude.{◌≡◌, ◌<◌, ◌≤◌, All, length, IfOk};
ghost use Rattle.pv_gate.specs.Node.{Names};
ghost use Rattle.pv_gate.specs.Building.{Gives};
ghost use Rattle.pv_bits.specs.Circuits.{equal, equal_bit, less, less_bit, less_signed, less_unsigned};

use crate::word::{below_top, top};
use pv_gate::{FALSE, GateFault, Gates, TRUE};

/// True where the words are equal: from constant true, AND for each bit with the complement of XOR.
pub fn equal(g: &mut Gates, a: &[i32], b: &[i32]) -> Result<i32, GateFault>
    requires same { length a.now ≡ length b.now }
    requires first { All (Names (length g.old.nodes)) a.now }
    requires second { All (Names (length g.old.nodes)) b.now }
    ensures built { Gives g.old g.new (equal a.now b.now) result }
    ensures names { IfOk result (λ literal. Names (length g.new.nodes) literal) }
    ensures longer { length g.old.nodes ≤ length g.new.nodes }
{
    // Node 1 is there, and the gates are within their limit.
    let _count = g.nodes();
    let mut so_far = TRUE;
    for i in 0..a.len() {
        so_far = equal_bit(g, so_far, a[i], b[i])?;
    }
    Ok(so_far)
}

fn equal_bit(g: &mut Gates, so_far: i32, a: i32, b: i32) -> Result<i32, GateFault>
    requires so_far { Names (length g.old.nodes) so_far }
    requires first { Names (length g.old.nodes) a }
    requires second { Names (length g.old.nodes) b }
    ensures built { Gives g.old g.new (equal_bit so_far (a, b)) result }
    ensures names { IfOk result (λ literal. Names (length g.new.nodes) literal) }
    ensures longer { length g.old.nodes ≤ length g.new.nodes }
{
    let _count = g.nodes();
    let differ = g.xor(a, b)?;
    let same = g.complement(differ);
    g.and(so_far, same)
}

/// True where the first word is less, as numbers from 0 or signed.
///
/// From constant false, for each bit: where the bits differ the second one, else what was so far.
/// For signed words the highest bits are complemented first.
pub fn less(g: &mut Gates, signed: bool, a: &[i32], b: &[i32]) -> Result<i32, GateFault>
    requires same { length a.now ≡ length b.now }
    requires width { 1 ≤ length a.now }
    requires first { All (Names (length g.old.nodes)) a.now }
    requires second { All (Names (length g.old.nodes)) b.now }
    ensures built { Gives g.old g.new (less signed a.now b.now) result }
    ensures names { IfOk result (λ literal. Names (length g.new.nodes) literal) }
    ensures longer { length g.old.nodes ≤ length g.new.nodes }
{
    if signed {
        less_signed(g, a, b)
    } else {
        less_unsigned(g, a, b)
    }
}

fn less_signed(g: &mut Gates, a: &[i32], b: &[i32]) -> Result<i32, GateFault>
    requires same { length a.now ≡ length b.now }
    requires width { 1 ≤ length a.now }
    requires first { All (Names (length g.old.nodes)) a.now }
    requires second { All (Names (length g.old.nodes)) b.now }
    ensures built { Gives g.old g.new (less_signed a.now b.now) result }
    ensures names { IfOk result (λ literal. Names (length g.new.nodes) literal) }
    ensures longer { length g.old.nodes ≤ length g.new.nodes }
{
    let _count = g.nodes();
    let (first, second) = (g.complement(top(a)), g.complement(top(b)));
    let so_far = less_unsigned(g, below_top(a), below_top(b))?;
    less_bit(g, so_far, first, second)
}

pub(crate) fn less_unsigned(g: &mut Gates, a: &[i32], b: &[i32]) -> Result<i32, GateFault>
    requires same { length a.now ≡ length b.now }
    requires first { All (Names (length g.old.nodes)) a.now }
    requires second { All (Names (length g.old.nodes)) b.now }
    ensures built { Gives g.old g.new (less_unsigned a.now b.now) result }
    ensures names { IfOk result (λ literal. Names (length g.new.nodes) literal) }
    ensures longer { length g.old.nodes ≤ length g.new.nodes }
{
    let _count = g.nodes();
    let mut so_far = FALSE;
    for i in 0..a.len() {
        so_far = less_bit(g, so_far, a[i], b[i])?;
    }
    Ok(so_far)
}

fn less_bit(g: &mut Gates, so_far: i32, a: i32, b: i32) -> Result<i32, GateFault>
    requires so_far { Names (length g.old.nodes) so_far }
    requires first { Names (length g.old.nodes) a }
    requires second { Names (length g.old.nodes) b }
    ensures built { Gives g.old g.new (less_bit so_far (a, b)) result }
    ensures names { IfOk result (λ literal. Names (length g.new.nodes) literal) }
    ensures longer { length g.old.nodes ≤ length g.new.nodes }
{
    let _count = g.nodes();
    let differ = g.xor(a, b)?;
    g.mux(differ, b, so_far)
}
