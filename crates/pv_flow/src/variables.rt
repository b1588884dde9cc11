//! Whether the variables are there that parts name.
ghost use Rattle.std.specs.Prelude.{◌≡◌, [], IfOk, map, nat_le};
ghost use Rattle.std.specs.List.{list_all};
ghost use Rattle.pv_flow.specs.Faults.{has_variables};
ghost use Rattle.pv_flow.specs.Checks.{mark_at, node_mark, marks_after, set_mark, deed_mark, deed_marks, edge_mark, edges_marked, variables_lie};
ghost use Rattle.pv_flow.specs.View.{parts_of};

use crate::parts::{CallEdge, Deed, Edge, Parts, Set};
use crate::term::Node;
use std::alloc::{AllocError, Global};

/// What is marked of this number; a number that names nothing stands for what names no variable.
fn mark(marks: &[bool], n: u32) -> bool
    ensures { result ≡ mark_at marks.now n }
{
    marks.get(n as usize).copied().unwrap_or(true)
}

/// Whether the node's term names variables below `k` alone, by the marks of the nodes before it.
fn node_lies(node: Node, marks: &[bool], k: usize) -> bool
    ensures { result ≡ node_mark k marks.now node }
{
    match node {
        Node::Constant(_, _) => true,
        Node::Variable(n) => (n as usize) < k,
        Node::Unary(_, _, a) => mark(marks, a),
        Node::Binary(_, _, a, b) => mark(marks, a) && mark(marks, b),
        Node::Select(_, c, a, b) => mark(marks, c) && mark(marks, a) && mark(marks, b),
    }
}

/// For each node whether its term names variables below `k` alone.
fn node_marks(alloc: Global, nodes: &[Node], k: usize) -> Result<Vec<bool>, AllocError>
    ensures { IfOk result (λ marks. marks.items ≡ marks_after k [] nodes.now) }
{
    let mut marks = Vec::new(alloc);
    for node in nodes {
        let lies = node_lies(*node, marks.as_slice(), k);
        marks.push(lies)?;
    }
    Ok(marks)
}

fn set_lies(set: &Set, marks: &[bool], k: usize) -> bool
    ensures { result ≡ set_mark k marks.now set.now }
{
    (set.variable as usize) < k && mark(marks, set.value)
}

fn sets_lie(sets: &[Set], marks: &[bool], k: usize) -> bool
    ensures { result ≡ list_all (set_mark k marks.now) sets.now }
{
    sets.iter().all(|set| set_lies(set, marks, k))
}

fn deed_lies(deed: &Deed, marks: &[bool], k: usize) -> bool
    ensures { result ≡ deed_mark k marks.now deed.now }
{
    mark(marks, deed.guard) && sets_lie(deed.sets.as_slice(), marks, k)
}

/// For each deed whether its guard and its sets name variables below `k` alone.
fn deed_marks(
    alloc: Global,
    deeds: &[Deed],
    marks: &[bool],
    k: usize,
) -> Result<Vec<bool>, AllocError>
    ensures { IfOk result (λ found. found.items ≡ map (deed_mark k marks.now) deeds.now) }
{
    let mut found = Vec::new(alloc);
    for deed in deeds {
        let lies = deed_lies(deed, marks, k);
        found.push(lies)?;
    }
    Ok(found)
}

fn edges_lie(edges: &[Edge], deeds: &[bool]) -> bool
    ensures { result ≡ list_all (edge_mark deeds.now) edges.now }
{
    edges.iter().all(|edge| mark(deeds, edge.deed))
}

fn calls_lie(calls: &[CallEdge], k: usize) -> bool
    ensures { result ≡ list_all (λ call. nat_le call.instance k) calls.now }
{
    calls.iter().all(|call| (call.instance as usize) <= k)
}

fn edges_marked(parts: &Parts, deeds: &[bool], k: usize) -> bool
    ensures { result ≡ edges_marked k deeds.now parts.now }
{
    edges_lie(parts.edges.as_slice(), deeds) && calls_lie(parts.calls.as_slice(), k)
}

/// The marks of the deeds, by those of the nodes.
fn marked(alloc: Global, parts: &Parts, k: usize) -> Result<Vec<bool>, AllocError>
    ensures { IfOk result (λ found. found.items ≡ deed_marks k parts.now.nodes.items parts.now.deeds.items) }
{
    let nodes = node_marks(alloc, parts.nodes.as_slice(), k)?;
    deed_marks(alloc, parts.deeds.as_slice(), nodes.as_slice(), k)
}

fn variables_lie(alloc: Global, parts: &Parts) -> Result<bool, AllocError>
    ensures { IfOk result (λ found. found ≡ variables_lie parts.now) }
{
    let count = parts.vars.len();
    let deeds = marked(alloc, parts, count)?;
    Ok(edges_marked(parts, deeds.as_slice(), count))
}

/// Whether each variable that the parts name is one of theirs.
pub(crate) fn has_variables(alloc: Global, parts: &Parts) -> Result<bool, AllocError>
    ensures { IfOk result (λ found. found ≡ has_variables (parts_of parts.now)) }
{
    variables_lie(alloc, parts)
}
