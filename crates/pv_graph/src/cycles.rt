//! Which nodes lead to themselves, for all nodes at once.
//!
//! Each node has a root, and nodes that lead to one another have the same. A node leads to itself where its root leads to it, and one
//! of its targets to that root. Two searches find where that is so, each for all roots together, the second along the steps back.
//! Nothing is claimed of the roots: a node of which they don't show it is asked by itself.
ghost use Rattle.std.specs.Prelude.{◌≡◌, ◌&&◌, ℕ, List, IfOk, IsTrue, OnOk, nat_eq, false, slice_index_or};
ghost use Rattle.std.specs.List.{list_any};
ghost use Rattle.pv_graph.specs.Members.{Has};
ghost use Rattle.pv_graph.specs.Graphs.{lists_of, next_of, LeadFrom};
ghost use Rattle.pv_graph.specs.Arounds.{AreBack, AreLeading};

use crate::search::led_by_roots;
use crate::targets::{Targets, number_at, targets_of};
use std::alloc::{AllocError, Global};

/// The flag at an index, and false past the end.
pub fn flag_at(flags: &[bool], index: usize) -> bool
    ensures { result ≡ slice_index_or flags.now index false }
{
    if index < flags.len() {
        flags[index]
    } else {
        false
    }
}

/// So many nodes without targets.
fn lone_nodes(alloc: Global, count: usize) -> Result<Vec<Targets>, AllocError>
    ensures { (g : List (List ℕ)) → IfOk result (λ back. AreBack g (lists_of back.items)) }
{
    let mut back = Vec::new(alloc);
    for _ in 0..count {
        back.push(Targets {
            list: Vec::new(alloc),
        })?;
    }
    Ok(back)
}

/// Adds a step, where both nodes have the same root.
fn add_step(
    back: &mut Vec<Targets>,
    roots: &[usize],
    from: usize,
    to: usize,
) -> Result<(), AllocError>
    ensures { (g : List (List ℕ)) → AreBack g (lists_of back.old.items) → Has (next_of g to) from
        → OnOk result (AreBack g (lists_of back.new.items)) }
{
    if number_at(roots, from) != number_at(roots, to) {
        return Ok(());
    }
    if from < back.len() {
        back[from].list.push(to)?;
    }
    Ok(())
}

/// Adds the steps back to a node from its targets.
fn add_steps(
    back: &mut Vec<Targets>,
    roots: &[usize],
    node: usize,
    targets: &[usize],
) -> Result<(), AllocError>
    ensures { (g : List (List ℕ)) → AreBack g (lists_of back.old.items) → ((b : ℕ) → Has targets.now b → Has (next_of g node) b)
        → OnOk result (AreBack g (lists_of back.new.items)) }
{
    for target in targets {
        add_step(back, roots, *target, node)?;
    }
    Ok(())
}

/// The steps between nodes with the same root, back.
fn steps_back(alloc: Global, next: &[Targets], roots: &[usize]) -> Result<Vec<Targets>, AllocError>
    ensures { IfOk result (λ back. AreBack (lists_of next.now) (lists_of back.items)) }
{
    let mut back = lone_nodes(alloc, next.len())?;
    for (node, targets) in next.iter().enumerate() {
        add_steps(&mut back, roots, node, targets.list.as_slice())?;
    }
    Ok(back)
}

/// The nodes that lead to their roots, by steps between nodes with the same root.
fn leading_to_roots(
    alloc: Global,
    next: &[Targets],
    roots: &[usize],
) -> Result<Vec<bool>, AllocError>
    ensures { IfOk result (λ v. AreLeading (lists_of next.now) roots.now v.items) }
{
    let back = steps_back(alloc, next, roots)?;
    led_by_roots(alloc, back.as_slice(), roots)
}

/// Whether one of these nodes has this root and is marked.
fn is_any_marked(marks: &[bool], roots: &[usize], root: usize, nodes: &[usize]) -> bool
    ensures { result
        ≡ list_any (λ b. nat_eq (slice_index_or roots.now b 0) root && slice_index_or marks.now b false) nodes.now }
{
    nodes.iter().any(|node| number_at(roots, *node) == root && flag_at(marks, *node))
}

/// The nodes to which their roots lead, and those that lead to them.
#[derive(Drop)]
pub(crate) struct Around {
    led: Vec<bool>,
    leading: Vec<bool>,
}

impl Around {
    ghost use Rattle.pv_graph.specs.Arounds.{AreAround};

    /// Those of a graph.
    pub(crate) fn of(alloc: Global, next: &[Targets], roots: &[usize]) -> Result<Around, AllocError>
        ensures { IfOk result (λ around. AreAround (lists_of next.now) roots.now around) }
    {
        let led = led_by_roots(alloc, next, roots)?;
        let leading = leading_to_roots(alloc, next, roots)?;
        Ok(Around { led, leading })
    }

    /// Whether they show that a node leads to itself.
    pub(crate) fn shows(&self, next: &[Targets], roots: &[usize], node: usize) -> bool
        ensures { AreAround (lists_of next.now) roots.now self.now → IsTrue result
            → LeadFrom (lists_of next.now) (next_of (lists_of next.now) node) node }
    {
        flag_at(self.led.as_slice(), node)
            && is_any_marked(
                self.leading.as_slice(),
                roots,
                number_at(roots, node),
                targets_of(next, node),
            )
    }
}
