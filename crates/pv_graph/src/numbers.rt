//! Numbers for the nodes of a graph that no step raises, and that are the same only for nodes that lead to one another, with a root
//! for each, the same for nodes with the same number.
//!
//! By the walk of R. Tarjan ("Depth-first search and linear graph algorithms", 1972), with a list in place of recursion. No clause says that
//! they are so: whoever takes them tests it (`graph`), and is only slower where they aren't.

use crate::targets::{Targets, number_at, targets_of};
use std::alloc::{AllocError, Global};

/// A walk through a graph, from each node as far as new nodes lead.
#[derive(Drop)]
struct Walk {
    /// When a node was met, counted from 1; 0 for one that wasn't.
    met: Vec<usize>,
    /// The earliest node without a number that a node is known to lead to, by when it was met.
    low: Vec<usize>,
    /// How many of a node's targets were gone to.
    gone: Vec<usize>,
    /// The numbers, from 1; 0 for a node that has none yet.
    numbers: Vec<usize>,
    /// Of nodes with a number the first that was met of those with the same.
    roots: Vec<usize>,
    /// The nodes without a number, in the order in which they were met.
    open: Vec<usize>,
    /// The nodes whose targets are being gone to, each led to by the one before.
    path: Vec<usize>,
    /// How many nodes were met, and how many numbers were given.
    count: usize,
    given: usize,
}

/// Writes a number, where there is a place for it.
fn put(numbers: &mut [usize], index: usize, number: usize) {
    if index < numbers.len() {
        numbers[index] = number;
    }
}

impl Walk {
    /// Meets a new node.
    fn meet(&mut self, node: usize) -> Result<(), AllocError> {
        self.count = self.count.saturating_add(1);
        put(self.met.as_mut_slice(), node, self.count);
        put(self.low.as_mut_slice(), node, self.count);
        self.open.push(node)?;
        self.path.push(node)?;
        Ok(())
    }

    /// A node leads to one that was met so early.
    fn lower(&mut self, node: usize, to: usize) {
        if to < number_at(self.low.as_slice(), node) {
            put(self.low.as_mut_slice(), node, to);
        }
    }

    /// Goes from a node to one of its targets.
    fn go(&mut self, node: usize, target: usize) -> Result<(), AllocError> {
        let met = number_at(self.met.as_slice(), target);
        if met == 0 {
            return self.meet(target);
        }
        if number_at(self.numbers.as_slice(), target) == 0 {
            self.lower(node, met);
        }
        Ok(())
    }

    /// Gives the node and those that were met behind it and have no number the next one.
    fn give(&mut self, node: usize) {
        self.given = self.given.saturating_add(1);
        while let Some(last) = self.open.pop() {
            put(self.numbers.as_mut_slice(), last, self.given);
            put(self.roots.as_mut_slice(), last, node);
            if last == node {
                break;
            }
        }
    }

    /// Leaves a node all of whose targets were gone to.
    fn leave(&mut self, node: usize) {
        let low = number_at(self.low.as_slice(), node);
        let _ = self.path.pop();
        if let Some(around) = self.path.last() {
            let around = *around;
            self.lower(around, low);
        }
        if low == number_at(self.met.as_slice(), node) {
            self.give(node);
        }
    }

    /// Takes a step, and says whether there was one to take.
    fn step(&mut self, next: &[Targets]) -> Result<bool, AllocError> {
        let Some(node) = self.path.last() else {
            return Ok(false);
        };
        let node = *node;
        let gone = number_at(self.gone.as_slice(), node);
        let targets = targets_of(next, node);
        if gone < targets.len() {
            put(self.gone.as_mut_slice(), node, gone.saturating_add(1));
            self.go(node, targets[gone])?;
        } else {
            self.leave(node);
        }
        Ok(true)
    }

    /// Walks from a node, unless it was met.
    fn walk_from(&mut self, next: &[Targets], node: usize) -> Result<(), AllocError> {
        if number_at(self.met.as_slice(), node) > 0 {
            return Ok(());
        }
        self.meet(node)?;
        for _ in 0..usize::MAX {
            if !self.step(next)? {
                break;
            }
        }
        Ok(())
    }
}

/// The numbers of nodes, and for each the one node that stands for all with the same number.
#[derive(Drop)]
pub(crate) struct Numbered {
    pub(crate) numbers: Vec<usize>,
    pub(crate) roots: Vec<usize>,
}

/// Those of the nodes.
pub(crate) fn numbers(alloc: Global, next: &[Targets]) -> Result<Numbered, AllocError> {
    let count = next.len();
    let mut walk = Walk {
        met: vec![in alloc; 0; count]?,
        low: vec![in alloc; 0; count]?,
        gone: vec![in alloc; 0; count]?,
        numbers: vec![in alloc; 0; count]?,
        roots: vec![in alloc; 0; count]?,
        open: Vec::new(alloc),
        path: Vec::new(alloc),
        count: 0,
        given: 0,
    };
    for node in 0..count {
        walk.walk_from(next, node)?;
    }
    let Walk { numbers, roots, .. } = walk;
    Ok(Numbered { numbers, roots })
}
