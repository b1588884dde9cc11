//! The nodes of a circuit, and an index in which each gate is found again.

ghost use Rattle.std.specs.Prelude.{◌≡◌, ℕ, ◌+◌, ◌-◌, ◌*◌, ◌≤◌, ◌<◌, ◌^◌, ◌↔◌, ℤ, pos, suc, unsigned_abs, Bool, [], ◌∷◌, ◌++◌, length, take, slice_get, None, IsTrue, IfOk, OnOk, OnErr};
ghost use Rattle.std.specs.Option.{option_map};
ghost use Rattle.pv_gate.specs.declared.netlist.Node.TheVariants.{True};

use crate::fault::GateFault;
use crate::literal::Literal;
use crate::netlist::{MAX_GATES, MAX_INPUTS, Node};
use std::alloc::{AllocError, Global};
use std::collections::BTreeMap;
use std::marker::Model;

/// A circuit that grows by one node at a time. No gate is made twice, and a look-up of a gate costs
/// about the logarithm of their number.
#[derive(Drop)]
pub struct Gates {
    nodes: Vec<Node>,
    // The literal of each And, Xor and Mux node.
    index: BTreeMap<Node, Literal>,
    gates: u32,
    inputs: u32,
    limit: u32,
}

impl Model for Gates {
    ghost use Rattle.pv_gate.specs.Netlist.{Netlist};

    ghost Value = { Netlist };

    ghost use Rattle.std.specs.BTreeMap as tree;
    ghost use Rattle.std.specs.Option.{option_map};
    ghost use Rattle.pv_gate.specs.Index.{IsKept, node_cmp};

    ghost view = { λ g. record { nodes = g.nodes.items; limit = g.limit } };

    ghost invariant = { λ g. IsKept g.nodes.items (λ node. option_map (λ literal. literal.code) (tree.get node_cmp g.index node)) g.gates g.inputs g.limit };
}

/// A circuit of node 1 alone, constant true. The limit is on And, Xor and Mux nodes together.
pub fn make(alloc: Global, limit: u32) -> Result<Gates, AllocError>
    requires { limit ≤ MAX_GATES }
    ensures made { IfOk result (λ gates. gates ≡ record { nodes = True ∷ []; limit = limit }) }
{
    let mut nodes = Vec::new(alloc);
    nodes.push(Node::True)?;
    Ok(Gates {
        nodes,
        index: BTreeMap::new(alloc),
        gates: 0,
        inputs: 0,
        limit,
    })
}

impl Gates {
    ghost use Rattle.pv_gate.specs.Node.{Names, is_gate, gate_count, input_count};
    ghost use Rattle.pv_gate.specs.Netlist.{IsNetlist, MayFollow, Extends, KeepsValues, IsInput};
    ghost use Rattle.pv_gate.specs.Build.{share, number_of, added, input_gate};
    ghost use Rattle.pv_gate.specs.Given.{Gives};

    /// The number of nodes, node 1 included: at most 2,000,000,001.
    pub fn nodes(&self) -> u32
        ensures count { result ≡ length self.now.nodes }

        // What every circuit keeps.
        ensures netlist { IsNetlist self.now.nodes }
        ensures one { 1 ≤ length self.now.nodes }
        ensures few { length self.now.nodes ≤ 1 + MAX_INPUTS + MAX_GATES }
        ensures within { gate_count self.now.nodes ≤ self.now.limit }
    {
        self.nodes.len() as u32
    }

    /// Node number `n`, from 1.
    pub fn node(&self, n: u32) -> Node
        requires from_one { 1 ≤ n }
        requires to_last { n ≤ length self.now.nodes }
        ensures node { slice_get self.now.nodes (n - 1) ≡ Some result }
        ensures operands { MayFollow (take (n - 1) self.now.nodes) result }
    {
        self.nodes[n as usize - 1]
    }

    /// The next node as an input, which the limit does not count. Inputs are numbered from 0.
    pub fn input(&mut self) -> Result<i32, GateFault>
        requires { input_count self.old.nodes < MAX_INPUTS }
        ensures literal { IfOk result (λ literal. literal ≡ (input_gate self.old.nodes).literal) }
        ensures nodes { OnOk result (self.new ≡ record self.old { nodes = (input_gate self.old.nodes).nodes }) }
        ensures err { OnErr result ((result ≡ Err GateFault.NoMemory) × (self.new ≡ self.old)) }

        // The literal has the input's value, and older ones keep theirs.
        ensures value { IfOk result (IsInput self.old.nodes self.new.nodes) }
        ensures names { IfOk result (λ literal. Names (length self.new.nodes) literal) }
        ensures extends { Extends self.old.nodes self.new.nodes }
        ensures longer { length self.old.nodes ≤ length self.new.nodes }
        ensures older { KeepsValues self.old.nodes self.new.nodes }
    {
        let literal = self.next_literal();
        if self.nodes.push(Node::Input(self.inputs)).is_err() {
            return Err(GateFault::NoMemory);
        }
        self.inputs += 1;
        Ok(literal.code())
    }

    // The literal, whose number has a complement since there are few nodes.
    pub(crate) fn literal(&self, code: i32) -> Literal
        requires { Names (length self.now.nodes) code }
        ensures code { result.code ≡ code }
        ensures netlist { IsNetlist self.now.nodes }
        ensures within { gate_count self.now.nodes ≤ self.now.limit }
    {
        // What the fields keep bounds the number of nodes.
        let _nodes = &self.nodes;
        Literal::new(code)
    }

    fn next_literal(&self) -> Literal
        ensures { result.code ≡ pos (suc (length self.now.nodes)) }
    {
        Literal::new(self.nodes.len() as i32 + 1)
    }

    // The gate where it is there, or else the next node.
    pub(crate) fn share(&mut self, node: Node) -> Result<Literal, GateFault>
        requires gate { IsTrue (is_gate node) }
        requires follows { MayFollow self.old.nodes node }
        ensures { Gives self.old self.new (share self.old.nodes node) result }
    {
        if let Some(literal) = self.find(node) {
            return Ok(literal);
        }
        if self.is_full() {
            return Err(GateFault::Limit);
        }
        self.add(node)
    }

    // The literal of a gate that is there.
    fn find(&self, node: Node) -> Option<Literal>
        requires { IsTrue (is_gate node) }
        ensures found { option_map (λ literal. literal.code) result ≡ option_map pos (number_of node self.now.nodes) }
        ensures within { gate_count self.now.nodes ≤ self.now.limit }
    {
        self.index.get(&node).copied()
    }

    fn is_full(&self) -> bool
        ensures full { IsTrue result ↔ (gate_count self.now.nodes ≡ self.now.limit) }
        ensures within { gate_count self.now.nodes ≤ self.now.limit }
    {
        self.gates == self.limit
    }

    // Another gate, as the next node.
    fn add(&mut self, node: Node) -> Result<Literal, GateFault>
        requires gate { IsTrue (is_gate node) }
        requires follows { MayFollow self.old.nodes node }
        requires new { number_of node self.old.nodes ≡ None }
        requires room { gate_count self.old.nodes < self.old.limit }
        ensures literal { IfOk result (λ literal. literal.code ≡ (added self.old.nodes node).literal) }
        ensures nodes { OnOk result (self.new ≡ record self.old { nodes = (added self.old.nodes node).nodes }) }
        ensures err { OnErr result ((result ≡ Err GateFault.NoMemory) × (self.new ≡ self.old)) }
    {
        let literal = self.next_literal();
        if self.nodes.push(node).is_err() {
            return Err(GateFault::NoMemory);
        }
        if self.index.insert(node, literal).is_err() {
            self.nodes.pop();
            return Err(GateFault::NoMemory);
        }
        self.gates += 1;
        Ok(literal)
    }
}
