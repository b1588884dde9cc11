//! A table of terms that grows.
ghost use Rattle.std.specs.Prelude.{◌≡◌, length, true, IfOk};
ghost use Rattle.pv_flow.specs.Tables.{has_operands};
ghost use Rattle.pv_flow.specs.Terms as terms;
ghost use Rattle.pv_flow.specs.View.{term_of, terms_of};
ghost use Rattle.pv_terms.specs.Pushed.{IsTable, IsAt, Puts};
ghost use Rattle.pv_terms.specs.Forms as forms;

use crate::fault::TermFault;
use pv_flow::{BinaryOp, Node, UnaryOp};
use pv_word::Ty;

/// Puts a node behind the others, and gives its number.
pub(crate) fn push(nodes: &mut Vec<Node>, node: Node) -> Result<u32, TermFault>
    ensures { IsTable nodes.old.items → has_operands (length nodes.old.items) node ≡ true
        → IfOk result (λ n. Puts nodes.old.items nodes.new.items n (term_of (terms_of nodes.old.items) node)) }
{
    let Ok(n) = u32::try_from(nodes.len()) else {
        return Err(TermFault::TooLarge);
    };
    nodes.push(node)?;
    Ok(n)
}

/// A constant.
pub fn push_constant(nodes: &mut Vec<Node>, ty: Ty, v: i128) -> Result<u32, TermFault>
    ensures { IsTable nodes.old.items → IfOk result (λ n. Puts nodes.old.items nodes.new.items n (terms.constant ty v)) }
{
    push(nodes, Node::Constant(ty, v))
}

/// A variable.
pub fn push_variable(nodes: &mut Vec<Node>, variable: u32) -> Result<u32, TermFault>
    ensures { IsTable nodes.old.items → IfOk result (λ n. Puts nodes.old.items nodes.new.items n (terms.variable variable)) }
{
    push(nodes, Node::Variable(variable))
}

/// An operator on one term.
pub fn push_unary(nodes: &mut Vec<Node>, op: UnaryOp, ty: Ty, a: u32) -> Result<u32, TermFault>
    ensures { (t : terms.Term) → IsTable nodes.old.items → IsAt nodes.old.items a t
        → IfOk result (λ n. Puts nodes.old.items nodes.new.items n (terms.unary op ty t)) }
{
    push(nodes, Node::Unary(op, ty, a))
}

/// An operator on two terms.
pub fn push_binary(
    nodes: &mut Vec<Node>,
    op: BinaryOp,
    ty: Ty,
    a: u32,
    b: u32,
) -> Result<u32, TermFault>
    ensures { (s t : terms.Term) → IsTable nodes.old.items → IsAt nodes.old.items a s → IsAt nodes.old.items b t
        → IfOk result (λ n. Puts nodes.old.items nodes.new.items n (terms.binary op ty s t)) }
{
    push(nodes, Node::Binary(op, ty, a, b))
}

/// A choice.
pub fn push_select(nodes: &mut Vec<Node>, ty: Ty, c: u32, a: u32, b: u32) -> Result<u32, TermFault>
    ensures { (r s t : terms.Term) → IsTable nodes.old.items → IsAt nodes.old.items c r → IsAt nodes.old.items a s
        → IsAt nodes.old.items b t → IfOk result (λ n. Puts nodes.old.items nodes.new.items n (terms.select ty r s t)) }
{
    push(nodes, Node::Select(ty, c, a, b))
}

/// The other truth.
pub fn push_not(nodes: &mut Vec<Node>, a: u32) -> Result<u32, TermFault>
    ensures { (t : terms.Term) → IsTable nodes.old.items → IsAt nodes.old.items a t
        → IfOk result (λ n. Puts nodes.old.items nodes.new.items n (forms.not_term t)) }
{
    push_unary(nodes, UnaryOp::Not, Ty::Bool, a)
}
