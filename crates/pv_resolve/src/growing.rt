//! Arrays of nodes that grow.
ghost use Rattle.std.specs.Prelude.{◌≡◌, ◌+◌, ◌<◌, ◌≤◌, ◌^◌, ℕ, length, Some, IfOk, IfErr, IfSome, IfNone};
ghost use Rattle.pv_eval.specs.Operands.{span};
ghost use Rattle.pv_eval.specs.declared.node.Node.TheVariants.{Constant, Element};
ghost use Rattle.pv_eval.specs.Order.{most_of, most_at, IsMost, MayFollow, AreNodes};
ghost use Rattle.pv_resolve.specs.declared.fault.ResolveFault.TheVariants.{NoMemory};
ghost use Rattle.pv_resolve.specs.Growing.{Adds};

use crate::fault::ResolveFault;
use pv_eval::Node;
use pv_place::Place;

/// Puts a node behind the others, and gives its number.
pub(crate) fn push(nodes: &mut Vec<Node>, node: Node) -> Result<usize, ResolveFault>
    requires ordered { AreNodes nodes.old.items }
    requires follows { MayFollow nodes.old.items node }
    ensures adds { IfOk result (Adds nodes.old.items nodes.new.items node) }
    ensures memory { IfErr result (λ e. e ≡ NoMemory) }
{
    let n = nodes.len();
    nodes.push(node)?;
    Ok(n)
}

/// How the elements of an array lie: its bounds, and how many cells each takes.
#[derive(Clone, Copy)]
pub(crate) struct Elements {
    pub(crate) low: i64,
    pub(crate) high: i64,
    pub(crate) stride: u32,
}

/// The number, where it is one from 0 on.
fn natural(v: i64) -> Option<u64>
    ensures { result ≡ most_of (Constant v) }
{
    if v < 0 { None } else { Some(v.unsigned_abs()) }
}

/// The most that the number of a cell is, where the node has one.
fn most_of(node: &Node) -> Option<u64>
    ensures { result ≡ most_of node.now }
{
    match node {
        Node::Constant(v) => natural(*v),
        Node::Element { most, .. } => Some(u64::from(*most)),
        Node::Read(..) | Node::One { .. } | Node::Two { .. } | Node::Three { .. } => None,
    }
}

/// The same of the node of this number.
fn most_at(nodes: &[Node], n: usize) -> Option<u64>
    ensures { result ≡ most_at nodes.now n }
{
    match nodes.get(n) {
        Some(node) => most_of(node),
        None => None,
    }
}

/// The most that the number of a cell is behind an index.
fn most_behind(before: u64, elements: &Elements) -> Option<u32>
    ensures is { IfSome result (λ most.
        before + span elements.now.low elements.now.high elements.now.stride ≡ most) }
    ensures none { IfNone result
        (2 ^ 32 ≤ before + span elements.now.low elements.now.high elements.now.stride) }
{
    let between = elements.high.abs_diff(elements.low);
    let span = between.checked_mul(u64::from(elements.stride))?;
    let most = before.checked_add(span)?;
    match u32::try_from(most) {
        Ok(most) => Some(most),
        Err(_) => None,
    }
}

/// The same behind the node of this number.
fn most_behind_node(nodes: &[Node], from: usize, elements: &Elements) -> Option<u32>
    ensures most { IfSome result (IsMost (most_at nodes.now from)
        (span elements.now.low elements.now.high elements.now.stride)) }
    ensures is { (before : ℕ) → most_at nodes.now from ≡ Some before
        → before + span elements.now.low elements.now.high elements.now.stride < 2 ^ 32
        → result ≡ Some (before + span elements.now.low elements.now.high elements.now.stride) }
{
    match most_at(nodes, from) {
        Some(before) => most_behind(before, elements),
        None => None,
    }
}

/// Puts the number of an element's cell behind the others, from that of the first element.
pub(crate) fn push_element(
    nodes: &mut Vec<Node>,
    from: usize,
    index: usize,
    elements: &Elements,
    place: Place,
) -> Result<usize, ResolveFault>
    requires ordered { AreNodes nodes.old.items }
    requires from { from < length nodes.old.items }
    requires index { index < length nodes.old.items }
    ensures adds { IfOk result (λ n. (most : ℕ) × Adds nodes.old.items nodes.new.items (Element from index
        elements.now.low elements.now.high elements.now.stride most place) n) }
    ensures most { (before : ℕ) → most_at nodes.old.items from ≡ Some before
        → before + span elements.now.low elements.now.high elements.now.stride < 2 ^ 32
        → IfOk result (λ n. Adds nodes.old.items nodes.new.items (Element from index elements.now.low
        elements.now.high elements.now.stride (before
        + span elements.now.low elements.now.high elements.now.stride) place) n) }
    ensures memory { (before : ℕ) → most_at nodes.old.items from ≡ Some before
        → before + span elements.now.low elements.now.high elements.now.stride < 2 ^ 32
        → IfErr result (λ e. e ≡ NoMemory) }
{
    match most_behind_node(nodes.as_slice(), from, elements) {
        Some(most) => push(
            nodes,
            Node::Element {
                from,
                index,
                low: elements.low,
                high: elements.high,
                stride: elements.stride,
                most,
                place,
            },
        ),
        None => Err(ResolveFault::TooLarge),
    }
}
