//! A search from nodes: with a list of those still to be left in place of recursion.
ghost use Rattle.std.specs.Prelude.{◌≡◌, ◌↔◌, ◌<◌, IfOk, IsTrue, OnOk, if◌then◌else◌, length, List, ℕ};
ghost use Rattle.pv_graph.specs.Graphs.{lists_of, LeadFrom};
ghost use Rattle.pv_graph.specs.Searches.{marks_of, marked, all_marked, alike_marked};
ghost use Rattle.pv_graph.specs.Arounds.{AreLed, IsSpread};

use crate::targets::{Targets, number_at, targets_of};
use std::alloc::{AllocError, Global};

/// A search: which nodes were seen, and which of them are still to be left.
#[derive(Drop)]
pub(crate) struct Search {
    seen: Vec<bool>,
    work: Vec<usize>,
}

impl Search {
    /// Sees a node, unless it was seen or there is none of this number.
    fn mark(&mut self, node: usize) -> Result<(), AllocError>
        ensures { OnOk result (marks_of self.new ≡ marked (marks_of self.old) node) }
    {
        if node >= self.seen.len() {
            return Ok(());
        }
        if self.seen[node] {
            return Ok(());
        }
        self.seen[node] = true;
        self.work.push(node)?;
        Ok(())
    }

    /// Sees these nodes.
    fn mark_all(&mut self, nodes: &[usize]) -> Result<(), AllocError>
        ensures { OnOk result (marks_of self.new ≡ all_marked (marks_of self.old) nodes.now) }
    {
        for node in nodes {
            self.mark(*node)?;
        }
        Ok(())
    }

    /// Sees a node, where the test passes.
    fn mark_where(&mut self, test: bool, node: usize) -> Result<(), AllocError>
        ensures { OnOk result (marks_of self.new
            ≡ (if test then marked (marks_of self.old) node else marks_of self.old)) }
    {
        if test {
            self.mark(node)?;
        }
        Ok(())
    }

    /// Sees those of these nodes whose root this is.
    fn mark_alike(
        &mut self,
        roots: &[usize],
        root: usize,
        nodes: &[usize],
    ) -> Result<(), AllocError>
        ensures { OnOk result (marks_of self.new ≡ alike_marked roots.now root (marks_of self.old) nodes.now) }
    {
        for node in nodes {
            self.mark_where(number_at(roots, *node) == root, *node)?;
        }
        Ok(())
    }

    /// A search that has seen those of so many nodes that are roots.
    fn of_roots(alloc: Global, roots: &[usize], count: usize) -> Result<Search, AllocError>
        ensures { (g : List (List ℕ)) → IfOk result (λ s. IsSpread g roots.now (marks_of s)) }
    {
        let mut search = Search {
            seen: vec![in alloc; false; count]?,
            work: Vec::new(alloc),
        };
        for node in 0..count {
            search.mark_where(number_at(roots, node) == node, node)?;
        }
        Ok(search)
    }
}

/// Whether one of these nodes leads to the node.
pub(crate) fn lead_from(
    alloc: Global,
    next: &[Targets],
    starts: &[usize],
    to: usize,
) -> Result<bool, AllocError>
    requires { to < length next.now }
    ensures { IfOk result (λ b. IsTrue b ↔ LeadFrom (lists_of next.now) starts.now to) }
{
    let mut search = Search {
        seen: vec![in alloc; false; next.len()]?,
        work: Vec::new(alloc),
    };
    search.mark_all(starts)?;
    while let Some(node) = search.work.pop() {
        search.mark_all(targets_of(next, node))?;
    }
    Ok(search.seen[to])
}

/// The nodes to which their roots lead, by steps between nodes with the same root.
pub(crate) fn led_by_roots(
    alloc: Global,
    next: &[Targets],
    roots: &[usize],
) -> Result<Vec<bool>, AllocError>
    ensures { IfOk result (λ v. AreLed (lists_of next.now) roots.now v.items) }
{
    let mut search = Search::of_roots(alloc, roots, next.len())?;
    while let Some(node) = search.work.pop() {
        search.mark_alike(roots, number_at(roots, node), targets_of(next, node))?;
    }
    Ok(search.seen)
}
