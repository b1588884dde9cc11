//! Calls of pv_gate.
ghost use Rattle.std.specs.Prelude.{◌≡◌, ◌+◌, ◌-◌, ◌<◌, ◌≤◌, ◌↔◌, length, take, slice_get, Some, IfOk, OnOk, OnErr};
ghost use Rattle.pv_gate.specs.Node.{Names, gate_count, input_count};
ghost use Rattle.pv_gate.specs.Netlist.{IsNetlist, MayFollow, Extends, KeepsValues, IsInput, IsAnd, IsMux};
ghost use Rattle.pv_gate.specs.Build.{IsBeyond, and_gate, input_gate, mux_gate};
ghost use Rattle.pv_gate.specs.Building.{Gives, make_and, make_mux};

use pv_gate::{GateFault, Gates, MAX_GATES, MAX_INPUTS, Node};

/// [`Gates::nodes`].
pub fn nodes(gates: &Gates) -> u32
    ensures count { result ≡ length gates.now.nodes }
    ensures netlist { IsNetlist gates.now.nodes }
    ensures one { 1 ≤ length gates.now.nodes }
    ensures few { length gates.now.nodes ≤ 1 + MAX_INPUTS + MAX_GATES }
    ensures within { gate_count gates.now.nodes ≤ gates.now.limit }
{
    gates.nodes()
}

/// [`Gates::node`].
pub fn node(gates: &Gates, n: u32) -> Node
    requires from_one { 1 ≤ n }
    requires to_last { n ≤ length gates.now.nodes }
    ensures node { slice_get gates.now.nodes (n - 1) ≡ Some result }
    ensures operands { MayFollow (take (n - 1) gates.now.nodes) result }
{
    gates.node(n)
}

/// [`Gates::input`].
pub fn input(gates: &mut Gates) -> Result<i32, GateFault>
    requires { input_count gates.old.nodes < MAX_INPUTS }
    ensures literal { IfOk result (λ literal. literal ≡ (input_gate gates.old.nodes).literal) }
    ensures nodes { OnOk result (gates.new ≡ record gates.old { nodes = (input_gate gates.old.nodes).nodes }) }
    ensures err { OnErr result ((result ≡ Err GateFault.NoMemory) × (gates.new ≡ gates.old)) }
    ensures value { IfOk result (IsInput gates.old.nodes gates.new.nodes) }
    ensures names { IfOk result (λ literal. Names (length gates.new.nodes) literal) }
    ensures extends { Extends gates.old.nodes gates.new.nodes }
    ensures longer { length gates.old.nodes ≤ length gates.new.nodes }
    ensures older { KeepsValues gates.old.nodes gates.new.nodes }
{
    gates.input()
}

/// [`Gates::and`]. The clauses of `or` and `xor` are of the same form.
pub fn and(gates: &mut Gates, a: i32, b: i32) -> Result<i32, GateFault>
    requires first { Names (length gates.old.nodes) a }
    requires second { Names (length gates.old.nodes) b }
    ensures literal { IfOk result (λ literal. literal ≡ (and_gate gates.old.nodes a b).literal) }
    ensures nodes { OnOk result (gates.new ≡ record gates.old { nodes = (and_gate gates.old.nodes a b).nodes }) }
    ensures limit { (result ≡ Err GateFault.Limit) ↔ IsBeyond gates.old (and_gate gates.old.nodes a b) }
    ensures err { OnErr result (gates.new ≡ gates.old) }
    ensures built { Gives gates.old gates.new (make_and a b) result }
    ensures value { IfOk result (IsAnd gates.old.nodes a b gates.new.nodes) }
    ensures names { IfOk result (λ literal. Names (length gates.new.nodes) literal) }
    ensures extends { Extends gates.old.nodes gates.new.nodes }
    ensures longer { length gates.old.nodes ≤ length gates.new.nodes }
    ensures older { KeepsValues gates.old.nodes gates.new.nodes }
{
    gates.and(a, b)
}

/// [`Gates::mux`].
pub fn mux(gates: &mut Gates, s: i32, a: i32, b: i32) -> Result<i32, GateFault>
    requires selector { Names (length gates.old.nodes) s }
    requires first { Names (length gates.old.nodes) a }
    requires second { Names (length gates.old.nodes) b }
    ensures literal { IfOk result (λ literal. literal ≡ (mux_gate gates.old.nodes s a b).literal) }
    ensures nodes { OnOk result (gates.new ≡ record gates.old { nodes = (mux_gate gates.old.nodes s a b).nodes }) }
    ensures limit { (result ≡ Err GateFault.Limit) ↔ IsBeyond gates.old (mux_gate gates.old.nodes s a b) }
    ensures err { OnErr result (gates.new ≡ gates.old) }
    ensures built { Gives gates.old gates.new (make_mux s a b) result }
    ensures value { IfOk result (IsMux gates.old.nodes s a b gates.new.nodes) }
    ensures names { IfOk result (λ literal. Names (length gates.new.nodes) literal) }
    ensures extends { Extends gates.old.nodes gates.new.nodes }
    ensures longer { length gates.old.nodes ≤ length gates.new.nodes }
    ensures older { KeepsValues gates.old.nodes gates.new.nodes }
{
    gates.mux(s, a, b)
}
