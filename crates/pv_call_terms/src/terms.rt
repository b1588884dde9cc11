//! Copies of terms.
ghost use Rattle.std.specs.Prelude.{◌≡◌, ◌++◌, IfOk, map};
ghost use Rattle.pv_call_terms.specs.Places.{place_of};
ghost use Rattle.pv_call_terms.specs.Terms.{node_at};

use crate::numbers::sum;
use crate::places::Places;
use pv_flow::Node;
use std::alloc::AllocError;

/// The node of a copy whose nodes stand behind so many others.
fn node_at(places: &Places, after: u32, node: Node) -> Node
    ensures { result ≡ node_at (place_of places.now) after node }
{
    match node {
        Node::Constant(ty, v) => Node::Constant(ty, v),
        Node::Variable(n) => Node::Variable(places.place(n as u64)),
        Node::Unary(op, ty, a) => Node::Unary(op, ty, sum(after, a)),
        Node::Binary(op, ty, a, b) => Node::Binary(op, ty, sum(after, a), sum(after, b)),
        Node::Select(ty, c, a, b) => {
            Node::Select(ty, sum(after, c), sum(after, a), sum(after, b))
        }
    }
}

/// Puts copies of a block's nodes behind those that are there, of which there are `after`; variables lie as the places say. Numbers of
/// operands are the block's, counted from there on; those beyond 32 bits are as the greatest.
pub fn add_terms(
    all: &mut Vec<Node>,
    places: &Places,
    after: u32,
    nodes: &[Node],
) -> Result<(), AllocError>
    ensures { IfOk result (λ _. all.new.items ≡ all.old.items ++ map (node_at (place_of places.now) after) nodes.now) }
{
    for node in nodes {
        all.push(node_at(places, after, *node))?;
    }
    Ok(())
}
