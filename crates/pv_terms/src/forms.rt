//! Terms of conversions, operators and bounds.
ghost use Rattle.std.specs.Prelude.{◌≡◌, List, IfOk};
ghost use Rattle.pv_word.specs.declared.types.Ty.TheVariants.{Dint};
ghost use Rattle.pv_flow.specs.Terms as terms;
ghost use Rattle.pv_flow.specs.View.{term_of};
ghost use Rattle.pv_terms.specs.Forms as forms;
ghost use Rattle.pv_terms.specs.Pushed.{IsTable, IsAt, Puts, IsLike};

use crate::fault::TermFault;
use crate::table::{push_binary, push_constant, push_not, push_unary};
use pv_flow::{BinaryOp as Two, Node, UnaryOp as One};
use pv_names::widens;
use pv_tree::{BinaryOp, UnaryOp};
use pv_word::{Ty, wrap};

/// Whether two types are one.
fn is_same(a: Ty, b: Ty) -> bool
    ensures { result ≡ forms.is_same a b }
{
    widens(a, b) && widens(b, a)
}

/// What is no constant, as one of another type.
fn push_converted(nodes: &mut Vec<Node>, from: Ty, to: Ty, a: u32) -> Result<u32, TermFault>
    ensures { (t : terms.Term) → IsTable nodes.old.items → IsAt nodes.old.items a t
        → IfOk result (λ n. Puts nodes.old.items nodes.new.items n (forms.made_of from to t)) }
{
    if is_same(from, to) {
        return Ok(a);
    }
    push_unary(nodes, One::Convert, to, a)
}

/// The number of a node that is a constant.
fn constant_in(node: &Node) -> Option<i128>
    ensures { (ts : List terms.Term) → IsLike result (term_of ts node.now) }
{
    match node {
        Node::Constant(_, v) => Some(*v),
        Node::Variable(_) | Node::Unary(..) | Node::Binary(..) | Node::Select(..) => None,
    }
}

/// The number of a term that is a constant.
fn constant_at(nodes: &[Node], n: u32) -> Option<i128>
    ensures { (t : terms.Term) → IsAt nodes.now n t → IsLike result t }
{
    match nodes.get(n as usize) {
        Some(node) => constant_in(node),
        None => None,
    }
}

/// A term as one of another type: a constant becomes another constant.
pub fn converted(nodes: &mut Vec<Node>, from: Ty, to: Ty, a: u32) -> Result<u32, TermFault>
    ensures { (t : terms.Term) → IsTable nodes.old.items → IsAt nodes.old.items a t
        → IfOk result (λ n. Puts nodes.old.items nodes.new.items n (forms.converted from to t)) }
{
    match constant_at(nodes.as_slice(), a) {
        Some(v) => push_constant(nodes, to, wrap(to, v)),
        None => push_converted(nodes, from, to, a),
    }
}

/// The term of an operator before its operand, by the operand's type.
pub fn push_operator(nodes: &mut Vec<Node>, op: UnaryOp, ty: Ty, a: u32) -> Result<u32, TermFault>
    ensures { (t : terms.Term) → IsTable nodes.old.items → IsAt nodes.old.items a t
        → IfOk result (λ n. Puts nodes.old.items nodes.new.items n (forms.unary_term op ty t)) }
{
    match op {
        UnaryOp::Plus => Ok(a),
        UnaryOp::Minus => push_unary(nodes, One::Negate, ty, a),
        UnaryOp::Not => push_unary(nodes, One::Not, ty, a),
    }
}

/// Whether the first is less than the second.
pub fn push_less(nodes: &mut Vec<Node>, a: u32, b: u32) -> Result<u32, TermFault>
    ensures { (s t : terms.Term) → IsTable nodes.old.items → IsAt nodes.old.items a s → IsAt nodes.old.items b t
        → IfOk result (λ n. Puts nodes.old.items nodes.new.items n (forms.less_term s t)) }
{
    push_binary(nodes, Two::Less, Ty::Bool, a, b)
}

/// That the first isn't less than the second.
fn push_not_less(nodes: &mut Vec<Node>, a: u32, b: u32) -> Result<u32, TermFault>
    ensures { (s t : terms.Term) → IsTable nodes.old.items → IsAt nodes.old.items a s → IsAt nodes.old.items b t
        → IfOk result (λ n. Puts nodes.old.items nodes.new.items n (forms.not_term (forms.less_term s t))) }
{
    let less = push_less(nodes, a, b)?;
    push_not(nodes, less)
}

/// That they aren't equal.
fn push_not_equal(nodes: &mut Vec<Node>, a: u32, b: u32) -> Result<u32, TermFault>
    ensures { (s t : terms.Term) → IsTable nodes.old.items → IsAt nodes.old.items a s → IsAt nodes.old.items b t
        → IfOk result (λ n. Puts nodes.old.items nodes.new.items n (forms.not_term (forms.equal_term s t))) }
{
    let equal = push_binary(nodes, Two::Equal, Ty::Bool, a, b)?;
    push_not(nodes, equal)
}

/// The term of an operator between two terms, by the type at which they meet.
pub fn push_between(
    nodes: &mut Vec<Node>,
    op: BinaryOp,
    ty: Ty,
    a: u32,
    b: u32,
) -> Result<u32, TermFault>
    ensures { (s t : terms.Term) → IsTable nodes.old.items → IsAt nodes.old.items a s → IsAt nodes.old.items b t
        → IfOk result (λ n. Puts nodes.old.items nodes.new.items n (forms.binary_term op ty s t)) }
{
    match op {
        BinaryOp::Mul => push_binary(nodes, Two::Multiply, ty, a, b),
        BinaryOp::Div => push_binary(nodes, Two::Divide, ty, a, b),
        BinaryOp::Mod => push_binary(nodes, Two::Remainder, ty, a, b),
        BinaryOp::Add => push_binary(nodes, Two::Add, ty, a, b),
        BinaryOp::Sub => push_binary(nodes, Two::Subtract, ty, a, b),
        BinaryOp::Less => push_less(nodes, a, b),
        BinaryOp::Greater => push_less(nodes, b, a),
        BinaryOp::LessEqual => push_not_less(nodes, b, a),
        BinaryOp::GreaterEqual => push_not_less(nodes, a, b),
        BinaryOp::Equal => push_binary(nodes, Two::Equal, Ty::Bool, a, b),
        BinaryOp::NotEqual => push_not_equal(nodes, a, b),
        BinaryOp::And => push_binary(nodes, Two::And, ty, a, b),
        BinaryOp::Xor => push_binary(nodes, Two::Xor, ty, a, b),
        BinaryOp::Or => push_binary(nodes, Two::Or, ty, a, b),
    }
}

/// Whether an index, a DINT, is this one.
pub fn push_is_index(nodes: &mut Vec<Node>, a: u32, v: i128) -> Result<u32, TermFault>
    ensures { (t : terms.Term) → IsTable nodes.old.items → IsAt nodes.old.items a t
        → IfOk result (λ n. Puts nodes.old.items nodes.new.items n (forms.is_index_term t v)) }
{
    let at = push_constant(nodes, Ty::Dint, v)?;
    push_binary(nodes, Two::Equal, Ty::Bool, a, at)
}

/// Whether an index, a DINT, lies below a bound.
fn push_below(nodes: &mut Vec<Node>, a: u32, low: i128) -> Result<u32, TermFault>
    ensures { (t : terms.Term) → IsTable nodes.old.items → IsAt nodes.old.items a t
        → IfOk result (λ n. Puts nodes.old.items nodes.new.items n (forms.less_term t (terms.constant Dint low))) }
{
    let least = push_constant(nodes, Ty::Dint, low)?;
    push_less(nodes, a, least)
}

/// Whether an index, a DINT, lies above a bound.
fn push_above(nodes: &mut Vec<Node>, a: u32, high: i128) -> Result<u32, TermFault>
    ensures { (t : terms.Term) → IsTable nodes.old.items → IsAt nodes.old.items a t
        → IfOk result (λ n. Puts nodes.old.items nodes.new.items n (forms.less_term (terms.constant Dint high) t)) }
{
    let greatest = push_constant(nodes, Ty::Dint, high)?;
    push_less(nodes, greatest, a)
}

/// Whether an index, a DINT, is outside the bounds.
pub fn push_outside(nodes: &mut Vec<Node>, a: u32, low: i128, high: i128) -> Result<u32, TermFault>
    ensures { (t : terms.Term) → IsTable nodes.old.items → IsAt nodes.old.items a t
        → IfOk result (λ n. Puts nodes.old.items nodes.new.items n (forms.outside_term t low high)) }
{
    let below = push_below(nodes, a, low)?;
    let above = push_above(nodes, a, high)?;
    push_binary(nodes, Two::Or, Ty::Bool, below, above)
}
