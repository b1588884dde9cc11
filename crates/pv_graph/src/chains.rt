//! At which nodes of a graph a chain of so many steps ends.
//!
//! Each round marks what the nodes marked before lead to, so a chain is never followed and the time is that of the graph's size for
//! each round.
ghost use Rattle.std.specs.Prelude.{◌≡◌, ◌<◌, IfOk, false, if◌then◌else◌, length, replicate, slice_index_or};
ghost use Rattle.pv_graph.specs.Graphs.{lists_of};
ghost use Rattle.pv_graph.specs.Rounds.{mark_one, mark_each, step_marks, AreEnds};

use crate::targets::Targets;
use std::alloc::{AllocError, Global};

/// Marks a node, if there is one of this number.
fn mark_one(marks: &mut Vec<bool>, node: usize)
    ensures { marks.new.items ≡ mark_one marks.old.items node }
{
    if node < marks.len() {
        marks[node] = true;
    }
}

/// Marks nodes.
fn mark_each(marks: &mut Vec<bool>, nodes: &[usize])
    ensures { marks.new.items ≡ mark_each marks.old.items nodes.now }
{
    for node in nodes {
        mark_one(marks, *node);
    }
}

/// Marks nodes, where the test passes.
fn mark_where(test: bool, marks: &mut Vec<bool>, nodes: &[usize])
    ensures { marks.new.items
        ≡ (if test then mark_each marks.old.items nodes.now else marks.old.items) }
{
    if test {
        mark_each(marks, nodes);
    }
}

/// Whether the node is marked.
fn is_marked(marks: &[bool], node: usize) -> bool
    requires { node < length marks.now }
    ensures { result ≡ slice_index_or marks.now node false }
{
    marks[node]
}

/// The nodes to which marked nodes lead at once.
fn step_from(alloc: Global, next: &[Targets], from: &[bool]) -> Result<Vec<bool>, AllocError>
    requires { length from.now ≡ length next.now }
    ensures { IfOk result (λ v. v.items ≡ step_marks (lists_of next.now) from.now
        (replicate (length next.now) false)) }
{
    let mut marks = vec![in alloc; false; next.len()]?;
    for (node, targets) in next.iter().enumerate() {
        let test = is_marked(from, node);
        mark_where(test, &mut marks, targets.list.as_slice());
    }
    Ok(marks)
}

/// For each node whether a chain of so many steps ends there. A chain may meet a node again. The time is that of the graph's size
/// for each step.
pub fn chain_ends(alloc: Global, next: &[Targets], steps: usize) -> Result<Vec<bool>, AllocError>
    ensures { IfOk result (λ v. AreEnds (lists_of next.now) v.items steps) }
{
    let mut ends = vec![in alloc; true; next.len()]?;
    for _ in 0..steps {
        ends = step_from(alloc, next, ends.as_slice())?;
    }
    Ok(ends)
}
