//! Which nodes of a graph lead to which.
//!
//! Many questions are asked of one graph, so that each may not take the time of a whole search. Beside the nodes stand numbers that
//! no step raises, so a node of a lower number leads to none of a higher one, which answers most questions at once. Where
//! the numbers come from doesn't matter: they are tested, and where the test fails all are 0.
//! Roots stand beside them, by which all nodes that lead to themselves are found at once (`cycles`).
ghost use Rattle.std.specs.Prelude.{◌≡◌, ℕ, IsTrue, nat_le, nat_lt, slice_index_or};
ghost use Rattle.std.specs.List.{list_all};
ghost use Rattle.pv_graph.specs.Graphs.{lists_of, Falls};

use crate::cycles::Around;
use crate::numbers::{Numbered, numbers};
use crate::search::lead_from;
use crate::targets::{Targets, number_at, targets_of};
use std::alloc::{AllocError, Global};

/// Whether none of the nodes has a number over the limit.
fn none_above(order: &[usize], nodes: &[usize], limit: usize) -> bool
    ensures { result ≡ list_all (λ b. nat_le (slice_index_or order.now b 0) limit) nodes.now }
{
    nodes.iter().all(|node| number_at(order, *node) <= limit)
}

/// Whether each of the nodes has a number under the limit.
fn all_below(order: &[usize], nodes: &[usize], limit: usize) -> bool
    ensures { result ≡ list_all (λ b. nat_lt (slice_index_or order.now b 0) limit) nodes.now }
{
    nodes.iter().all(|node| number_at(order, *node) < limit)
}

/// Tests whether no step raises the numbers.
fn no_step_raises(next: &[Targets], order: &[usize]) -> bool
    ensures { IsTrue result → Falls (lists_of next.now) order.now }
{
    for (node, targets) in next.iter().enumerate() {
        if !none_above(order, targets.list.as_slice(), number_at(order, node)) {
            return false;
        }
    }
    true
}

/// A graph over nodes that are counted from 0.
#[derive(Drop)]
pub struct Graph {
    next: Vec<Targets>,
    order: Vec<usize>,
    roots: Vec<usize>,
    ghost falls: { Falls (lists_of next.items) order.items },
}

impl Graph {
    ghost use Rattle.std.specs.Prelude.{◌↔◌, ◌<◌, IfOk, length};
    ghost use Rattle.pv_graph.specs.Graphs.{next_of, Leads, LeadFrom};
    ghost use Rattle.pv_graph.specs.Steps.{steps_of};
    ghost use Rattle.pv_graph.specs.Cycles.{AreOnCycles};
    ghost use Rattle.pv_graph.specs.Arounds.{AreAround};

    /// The graph with these targets of its nodes, in their order.
    pub fn new(alloc: Global, next: Vec<Targets>) -> Result<Graph, AllocError>
        ensures { IfOk result (λ graph. steps_of graph ≡ lists_of next.items) }
    {
        let Numbered {
            numbers: order,
            roots,
        } = numbers(alloc, next.as_slice())?;
        if no_step_raises(next.as_slice(), order.as_slice()) {
            return Ok(Graph { next, order, roots });
        }
        let order = Vec::new(alloc);
        Ok(Graph { next, order, roots })
    }

    /// How many nodes there are.
    pub fn len(&self) -> usize
        ensures { result ≡ length (steps_of self.now) }
    {
        self.next.len()
    }

    /// Whether steps lead from the one node to the other, which may be the same.
    pub fn leads(&self, alloc: Global, from: usize, to: usize) -> Result<bool, AllocError>
        requires { to < length (steps_of self.now) }
        ensures { IfOk result (λ b. IsTrue b ↔ Leads (steps_of self.now) from to) }
    {
        let order = self.order.as_slice();
        if number_at(order, from) < number_at(order, to) {
            return Ok(false);
        }
        lead_from(alloc, self.next.as_slice(), &[from], to)
    }

    /// Whether one or more steps lead from a node to itself.
    pub fn is_on_cycle(&self, alloc: Global, node: usize) -> Result<bool, AllocError>
        requires { node < length (steps_of self.now) }
        ensures { let g = steps_of self.now in
            IfOk result (λ b. IsTrue b ↔ LeadFrom g (next_of g node) node) }
    {
        let order = self.order.as_slice();
        let targets = targets_of(self.next.as_slice(), node);
        if all_below(order, targets, number_at(order, node)) {
            return Ok(false);
        }
        lead_from(alloc, self.next.as_slice(), targets, node)
    }

    /// Whether the node leads to itself, which is looked for where what lies around roots doesn't show it.
    fn is_around_itself(
        &self,
        alloc: Global,
        around: &Around,
        node: usize,
    ) -> Result<bool, AllocError>
        requires { node < length (steps_of self.now) }
        ensures { let g = steps_of self.now in AreAround g self.now.roots.items around.now
            → IfOk result (λ b. IsTrue b ↔ LeadFrom g (next_of g node) node) }
    {
        if around.shows(self.next.as_slice(), self.roots.as_slice(), node) {
            return Ok(true);
        }
        self.is_on_cycle(alloc, node)
    }

    /// Which nodes lead to themselves by one or more steps.
    pub fn on_cycles(&self, alloc: Global) -> Result<Vec<bool>, AllocError>
        ensures { IfOk result (λ v. AreOnCycles (steps_of self.now) v.items) }
    {
        let around = Around::of(alloc, self.next.as_slice(), self.roots.as_slice())?;
        let mut marks = Vec::new(alloc);
        for node in 0..self.len() {
            marks.push(self.is_around_itself(alloc, &around, node)?)?;
        }
        Ok(marks)
    }
}
