//! Calls of pv_bits. What the others make is said by the same clauses.
ghost use Rattle.std.specs.Prelude.{◌≡◌, ◌≤◌, All, length, IfOk};
ghost use Rattle.pv_gate.specs.Node.{Names};
ghost use Rattle.pv_gate.specs.Building.{Gives, done};
ghost use Rattle.pv_bits.specs.Circuits.{divide, shifted};

use pv_gate::{GateFault, Gates, Literals};
use std::alloc::Global;

/// [`pv_bits::shift`].
pub fn shift(
    alloc: Global,
    g: &mut Gates,
    a: &[i32],
    left: bool,
    n: u32,
) -> Result<Literals, GateFault>
    requires { All (Names (length g.old.nodes)) a.now }
    ensures built { Gives g.old g.new (done (shifted left a.now n)) result }
    ensures names { IfOk result (λ word. All (Names (length g.new.nodes)) word) }
    ensures width { IfOk result (λ word. length word ≡ length a.now) }
    ensures longer { length g.old.nodes ≤ length g.new.nodes }
{
    pv_bits::shift(alloc, g, a, left, n)
}

/// [`pv_bits::divide`].
pub fn divide(
    alloc: Global,
    g: &mut Gates,
    signed: bool,
    a: &[i32],
    b: &[i32],
) -> Result<(Literals, Literals), GateFault>
    requires same { length a.now ≡ length b.now }
    requires width { 1 ≤ length a.now }
    requires first { All (Names (length g.old.nodes)) a.now }
    requires second { All (Names (length g.old.nodes)) b.now }
    ensures built { Gives g.old g.new (divide signed a.now b.now) result }
    ensures quotient { IfOk result (λ o. All (Names (length g.new.nodes)) o.0) }
    ensures remainder { IfOk result (λ o. All (Names (length g.new.nodes)) o.1) }
    ensures quotient_width { IfOk result (λ o. length o.0 ≡ length a.now) }
    ensures remainder_width { IfOk result (λ o. length o.1 ≡ length a.now) }
    ensures longer { length g.old.nodes ≤ length g.new.nodes }
{
    pv_bits::divide(alloc, g, signed, a, b)
}
