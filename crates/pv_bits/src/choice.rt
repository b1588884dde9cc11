//! Choices between words, and shifts.

ghost use Rattle.std.specs.Prelude.{◌≡◌, ◌<◌, ◌≤◌, ◌-◌, ◌+◌, ◌++◌, All, length, min, IfOk, OnErr, Err};
ghost use Rattle.pv_gate.specs.Node.{Names};
ghost use Rattle.pv_gate.specs.Building.{Gives, done};
ghost use Rattle.pv_gate.specs.declared.fault.GateFault.TheVariants.{NoMemory};
ghost use Rattle.pv_bits.specs.Circuits.{select, shifted};

use crate::word::falses;
use pv_gate::{GateFault, Gates, Literals};
use std::alloc::Global;

/// The first word where `s`, else the second.
pub fn select(
    alloc: Global,
    g: &mut Gates,
    s: i32,
    a: &[i32],
    b: &[i32],
) -> Result<Literals, GateFault>
    requires same { length a.now ≡ length b.now }
    requires selector { Names (length g.old.nodes) s }
    requires first { All (Names (length g.old.nodes)) a.now }
    requires second { All (Names (length g.old.nodes)) b.now }
    ensures built { Gives g.old g.new (select s a.now b.now) result }
    ensures names { IfOk result (λ word. All (Names (length g.new.nodes)) word) }
    ensures width { IfOk result (λ word. length word ≡ length a.now) }
    ensures longer { length g.old.nodes ≤ length g.new.nodes }
{
    // The gates are within their limit.
    let _count = g.nodes();
    let mut word = Literals::new(alloc);
    for i in 0..a.len() {
        let bit = g.mux(s, a[i], b[i])?;
        word.push(bit)?;
    }
    Ok(word)
}

/// The bits `n` places higher or, to the right, lower, with constant false where none comes from.
/// It takes no gate.
pub fn shift(
    alloc: Global,
    g: &mut Gates,
    a: &[i32],
    left: bool,
    n: u32,
) -> Result<Literals, GateFault>
    requires { All (Names (length g.old.nodes)) a.now }
    ensures built { Gives g.old g.new (done (shifted left a.now n)) result }
    ensures names { IfOk result (λ word. All (Names (length g.new.nodes)) word) }
    ensures width { IfOk result (λ word. length word ≡ length a.now) }
    ensures longer { length g.old.nodes ≤ length g.new.nodes }
{
    let _count = g.nodes();
    shifted(alloc, g, a, left, n)
}

/// The shifted word.
pub(crate) fn shifted(
    alloc: Global,
    g: &Gates,
    a: &[i32],
    left: bool,
    n: u32,
) -> Result<Literals, GateFault>
    requires { All (Names (length g.now.nodes)) a.now }
    ensures word { IfOk result (λ word. word ≡ shifted left a.now n) }
    ensures names { IfOk result (λ word. All (Names (length g.now.nodes)) word) }
    ensures width { IfOk result (λ word. length word ≡ length a.now) }
    ensures err { OnErr result (result ≡ Err NoMemory) }
{
    let gone = (n as usize).min(a.len());
    let zeros = falses(alloc, g, gone)?;
    if left {
        joined(zeros, &a[..a.len() - gone])
    } else {
        joined(Literals::from_slice(alloc, &a[gone..])?, zeros.as_slice())
    }
}

/// The two lists of literals as one.
pub(crate) fn joined(mut first: Literals, second: &[i32]) -> Result<Literals, GateFault>
    ensures word { IfOk result (λ word. word ≡ first ++ second.now) }
    ensures err { OnErr result (result ≡ Err NoMemory) }
{
    first.extend(second)?;
    Ok(first)
}
