//! Nodes lowered to operations.
ghost use Rattle.std.specs.Prelude.{◌≡◌, IfOk};
ghost use Rattle.pv_eval.specs.declared.op.Deed.TheVariants.{Two, Three};
ghost use Rattle.pv_eval.specs.Lowered.{copied_spot, copied_operand, copied, arg_of, access_of, read_of, deed_of, ops_of};

use crate::node::{Node, Operand, Spot, ThreeOp, TwoOp};
use crate::op::{Access, Arg, Deed, Op};
use pv_place::Place;
use pv_word::Ty;
use std::alloc::{AllocError, Global};

fn copied_spot(spot: Spot) -> Option<Arg>
    ensures { result ≡ copied_spot spot }
{
    match spot {
        Spot::Visible(n) => Some(Arg::Visible(n)),
        Spot::Fixed(v) => Some(Arg::Constant(v)),
        Spot::Nowhere => Some(Arg::Constant(0)),
        Spot::Brief(..) | Spot::Bit(..) | Spot::Bytes(..) => None,
    }
}

fn copied_operand(operand: Operand) -> Option<Arg>
    ensures { result ≡ copied_operand operand }
{
    match operand {
        Operand::At(spot) => copied_spot(spot),
        Operand::Own(n) => Some(Arg::Own(n)),
        Operand::Element(..) => None,
    }
}

/// Where a node copies from, if it only copies.
fn copied(node: &Node) -> Option<Arg>
    ensures { result ≡ copied node.now }
{
    match node {
        Node::Constant(v) => Some(Arg::Constant(*v)),
        Node::Read(operand, _) => copied_operand(*operand),
        Node::One { .. } | Node::Two { .. } | Node::Three { .. } | Node::Element { .. } => None,
    }
}

/// Where the value of the node of this number is fetched.
pub(crate) fn arg_of(nodes: &[Node], n: usize) -> Arg
    ensures { result ≡ arg_of nodes.now n }
{
    match nodes.get(n) {
        Some(node) => copied(node).unwrap_or(Arg::Value(n)),
        None => Arg::Value(n),
    }
}

pub(crate) fn access_of(nodes: &[Node], operand: Operand) -> Access
    ensures { result ≡ access_of nodes.now operand }
{
    match operand {
        Operand::At(spot) => Access::At(spot),
        Operand::Own(n) => Access::Own(n),
        Operand::Element(part, offset, address) => {
            Access::Element(part, offset, arg_of(nodes, address))
        }
    }
}

fn read_of(nodes: &[Node], operand: Operand, place: Place) -> Option<Deed>
    ensures { result ≡ read_of nodes.now operand place (copied_operand operand) }
{
    match copied_operand(operand) {
        Some(_) => None,
        None => Some(Deed::Read(access_of(nodes, operand), place)),
    }
}

/// An operation of two arguments, by the numbers of their nodes.
fn two_of(nodes: &[Node], op: TwoOp, ty: Ty, place: Place, left: usize, right: usize) -> Deed
    ensures { result ≡ Two op ty place (arg_of nodes.now left) (arg_of nodes.now right) }
{
    Deed::Two {
        op,
        ty,
        place,
        left: arg_of(nodes, left),
        right: arg_of(nodes, right),
    }
}

/// An operation of three arguments, by the numbers of their nodes.
fn three_of(nodes: &[Node], op: ThreeOp, first: usize, second: usize, third: usize) -> Deed
    ensures { result
        ≡ Three op (arg_of nodes.now first) (arg_of nodes.now second) (arg_of nodes.now third) }
{
    Deed::Three {
        op,
        first: arg_of(nodes, first),
        second: arg_of(nodes, second),
        third: arg_of(nodes, third),
    }
}

/// What a node does, if it doesn't only copy.
fn deed_of(nodes: &[Node], node: &Node) -> Option<Deed>
    ensures { result ≡ deed_of nodes.now node.now }
{
    match node {
        Node::Constant(_) => None,
        Node::Read(operand, place) => read_of(nodes, *operand, *place),
        Node::One { op, ty, arg } => Some(Deed::One {
            op: *op,
            ty: *ty,
            arg: arg_of(nodes, *arg),
        }),
        Node::Two {
            op,
            ty,
            place,
            left,
            right,
        } => Some(two_of(nodes, *op, *ty, *place, *left, *right)),
        Node::Three {
            op,
            first,
            second,
            third,
        } => Some(three_of(nodes, *op, *first, *second, *third)),
        Node::Element {
            from,
            index,
            low,
            high,
            stride,
            most: _,
            place,
        } => Some(Deed::Element {
            from: arg_of(nodes, *from),
            index: arg_of(nodes, *index),
            low: *low,
            high: *high,
            stride: i64::from(*stride),
            place: *place,
        }),
    }
}

/// The operations of nodes, in their order.
pub(crate) fn ops_of(alloc: Global, nodes: &[Node]) -> Result<Vec<Op>, AllocError>
    ensures { IfOk result (λ ops. ops.items ≡ ops_of nodes.now 0 nodes.now) }
{
    let mut ops = Vec::new(alloc);
    for (k, node) in nodes.iter().enumerate() {
        if let Some(deed) = deed_of(nodes, node) {
            ops.push(Op { to: k, deed })?;
        }
    }
    Ok(ops)
}
