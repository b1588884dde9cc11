//! Contract tests of nodes behind others in a table.
ghost use Rattle.std.specs.Prelude.{IfOk};
ghost use Rattle.pv_flow.specs.Terms as terms;
ghost use Rattle.pv_terms.specs.Forms as forms;
ghost use Rattle.pv_terms.specs.Pushed.{IsTable, IsAt, Puts};

use pv_flow::{BinaryOp, Node, UnaryOp};
use pv_terms::TermFault;
use pv_word::Ty;

/// [`pv_terms::push_constant`].
pub fn push_constant(nodes: &mut Vec<Node>, ty: Ty, v: i128) -> Result<u32, TermFault>
    ensures { IsTable nodes.old.items → IfOk result (λ n. Puts nodes.old.items nodes.new.items n (terms.constant ty v)) }
{
    pv_terms::push_constant(nodes, ty, v)
}

/// [`pv_terms::push_variable`].
pub fn push_variable(nodes: &mut Vec<Node>, variable: u32) -> Result<u32, TermFault>
    ensures { IsTable nodes.old.items → IfOk result (λ n. Puts nodes.old.items nodes.new.items n (terms.variable variable)) }
{
    pv_terms::push_variable(nodes, variable)
}

/// [`pv_terms::push_unary`].
pub fn push_unary(nodes: &mut Vec<Node>, op: UnaryOp, ty: Ty, a: u32) -> Result<u32, TermFault>
    ensures { (t : terms.Term) → IsTable nodes.old.items → IsAt nodes.old.items a t
        → IfOk result (λ n. Puts nodes.old.items nodes.new.items n (terms.unary op ty t)) }
{
    pv_terms::push_unary(nodes, op, ty, a)
}

/// [`pv_terms::push_binary`].
pub fn push_binary(
    nodes: &mut Vec<Node>,
    op: BinaryOp,
    ty: Ty,
    a: u32,
    b: u32,
) -> Result<u32, TermFault>
    ensures { (s t : terms.Term) → IsTable nodes.old.items → IsAt nodes.old.items a s → IsAt nodes.old.items b t
        → IfOk result (λ n. Puts nodes.old.items nodes.new.items n (terms.binary op ty s t)) }
{
    pv_terms::push_binary(nodes, op, ty, a, b)
}

/// [`pv_terms::push_select`].
pub fn push_select(nodes: &mut Vec<Node>, ty: Ty, c: u32, a: u32, b: u32) -> Result<u32, TermFault>
    ensures { (r s t : terms.Term) → IsTable nodes.old.items → IsAt nodes.old.items c r → IsAt nodes.old.items a s
        → IsAt nodes.old.items b t → IfOk result (λ n. Puts nodes.old.items nodes.new.items n (terms.select ty r s t)) }
{
    pv_terms::push_select(nodes, ty, c, a, b)
}

/// [`pv_terms::push_not`].
pub fn push_not(nodes: &mut Vec<Node>, a: u32) -> Result<u32, TermFault>
    ensures { (t : terms.Term) → IsTable nodes.old.items → IsAt nodes.old.items a t
        → IfOk result (λ n. Puts nodes.old.items nodes.new.items n (forms.not_term t)) }
{
    pv_terms::push_not(nodes, a)
}
