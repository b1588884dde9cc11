//! Calls between blocks that are known by their numbers: the least place of one from which calls lead back, and of one at which a long
//! chain ends.
ghost use Rattle.std.specs.Prelude.{◌≡◌, ◌<◌, IfOk, IsTrue, false, map, length, slice_index_or};
ghost use Rattle.pv_rules_expr.specs.Members.{HasSome};
ghost use Rattle.pv_rules_expr.specs.Nearest.{Nears, IsNearest};
ghost use Rattle.pv_graph.specs.Graphs.{lists_of};
ghost use Rattle.pv_graph.specs.Steps.{steps_of};
ghost use Rattle.pv_rules_call.specs.ByNumber.{links_graph, IsBackLink, HasBackLink, HasDeepLink};

use crate::links::{Link, Links};
use pv_graph::{Graph, Targets, chain_ends};
use pv_place::Place;
use pv_rules_expr::{is_nearer, nearer};
use std::alloc::{AllocError, Global};

/// How many calls a chain of eight blocks has.
const MOST_CALLS: usize = 7;

/// The numbers of the blocks that the calls run.
fn targets_of_links(alloc: Global, links: &[Link]) -> Result<Vec<usize>, AllocError>
    ensures { IfOk result (λ v. v.items ≡ map (λ k. k.to) links.now) }
{
    links.iter().map(|link| link.to).collect(alloc)
}

/// Which block runs which.
fn targets_of_all(alloc: Global, all: &[Links]) -> Result<Vec<Targets>, AllocError>
    ensures { IfOk result (λ v. lists_of v.items ≡ links_graph all.now) }
{
    let mut next = Vec::new(alloc);
    for links in all {
        let list = targets_of_links(alloc, links.list.as_slice())?;
        next.push(Targets { list })?;
    }
    Ok(next)
}

/// The graph of which block runs which.
fn graph_of(alloc: Global, all: &[Links]) -> Result<Graph, AllocError>
    ensures { IfOk result (λ g. steps_of g ≡ links_graph all.now) }
{
    Graph::new(alloc, targets_of_all(alloc, all)?)
}

/// Looks at a call of a block.
fn back_link(
    alloc: Global,
    graph: &Graph,
    from: usize,
    link: &Link,
    nearest: Option<Place>,
) -> Result<Option<Place>, AllocError>
    requires { from < length (steps_of graph.now) }
    ensures { IfOk result (λ r. Nears (λ at. IsBackLink (steps_of graph.now) from at link.now)
        nearest r) }
{
    if !is_nearer(nearest, &link.place) {
        return Ok(nearest);
    }
    if graph.leads(alloc, link.to, from)? {
        Ok(Some(link.place))
    } else {
        Ok(nearest)
    }
}

/// Looks at the calls of a block.
fn back_links(
    alloc: Global,
    graph: &Graph,
    from: usize,
    links: &[Link],
    nearest: Option<Place>,
) -> Result<Option<Place>, AllocError>
    requires { from < length (steps_of graph.now) }
    ensures { IfOk result (λ r. Nears (λ at. HasSome (IsBackLink (steps_of graph.now) from at)
        (map (λ k. k) links.now)) nearest r) }
{
    let mut nearest = nearest;
    for link in links {
        nearest = back_link(alloc, graph, from, link, nearest)?;
    }
    Ok(nearest)
}

/// The least place of a call from which calls lead back to its block.
pub(crate) fn cycle(alloc: Global, all: &[Links]) -> Result<Option<Place>, AllocError>
    ensures { IfOk result (IsNearest (HasBackLink (links_graph all.now) all.now (length all.now))) }
{
    let graph = graph_of(alloc, all)?;
    let mut nearest = None;
    for (i, links) in all.iter().enumerate() {
        nearest = back_links(alloc, &graph, i, links.list.as_slice(), nearest)?;
    }
    Ok(nearest)
}

/// Whether the block of this number is marked.
fn is_marked(marks: &[bool], number: usize) -> bool
    ensures { result ≡ slice_index_or marks.now number false }
{
    match marks.get(number) {
        Some(mark) => *mark,
        None => false,
    }
}

/// Looks at the calls of a block.
fn all_calls(links: &[Link], nearest: Option<Place>) -> Option<Place>
    ensures { Nears (λ at. HasSome (λ k. k.place ≡ at) (map (λ k. k) links.now)) nearest result }
{
    let mut nearest = nearest;
    for link in links {
        nearest = nearer(nearest, &link.place);
    }
    nearest
}

/// Looks at the calls of a block, where the test passes.
fn calls_where(test: bool, links: &[Link], nearest: Option<Place>) -> Option<Place>
    ensures { Nears (λ at. IsTrue test × HasSome (λ k. k.place ≡ at) links.now) nearest result }
{
    if test {
        all_calls(links, nearest)
    } else {
        nearest
    }
}

/// The least place of a call at which a chain of seven calls ends.
pub(crate) fn deep_call(alloc: Global, all: &[Links]) -> Result<Option<Place>, AllocError>
    ensures { IfOk result (IsNearest (HasDeepLink (links_graph all.now) all.now 7
        (length all.now))) }
{
    let next = targets_of_all(alloc, all)?;
    let ends = chain_ends(alloc, next.as_slice(), MOST_CALLS)?;
    let mut nearest = None;
    for (i, links) in all.iter().enumerate() {
        let test = is_marked(ends.as_slice(), i);
        nearest = calls_where(test, links.list.as_slice(), nearest);
    }
    Ok(nearest)
}
