//! Contract tests of terms of conversions, operators, bounds and functions.
ghost use Rattle.std.specs.Prelude.{List, IfOk};
ghost use Rattle.pv_flow.specs.Terms as terms;
ghost use Rattle.pv_terms.specs.Forms as forms;
ghost use Rattle.pv_terms.specs.Given.{AreGiven};
ghost use Rattle.pv_terms.specs.Pushed.{IsTable, IsAt, Puts};

use pv_flow::Node;
use pv_terms::{Given, TermFault};
use pv_tree::{BinaryOp, StdFunction, UnaryOp};
use pv_word::Ty;

/// [`pv_terms::converted`].
pub fn converted(nodes: &mut Vec<Node>, from: Ty, to: Ty, a: u32) -> Result<u32, TermFault>
    ensures { (t : terms.Term) → IsTable nodes.old.items → IsAt nodes.old.items a t
        → IfOk result (λ n. Puts nodes.old.items nodes.new.items n (forms.converted from to t)) }
{
    pv_terms::converted(nodes, from, to, a)
}

/// [`pv_terms::push_operator`].
pub fn push_operator(nodes: &mut Vec<Node>, op: UnaryOp, ty: Ty, a: u32) -> Result<u32, TermFault>
    ensures { (t : terms.Term) → IsTable nodes.old.items → IsAt nodes.old.items a t
        → IfOk result (λ n. Puts nodes.old.items nodes.new.items n (forms.unary_term op ty t)) }
{
    pv_terms::push_operator(nodes, op, ty, a)
}

/// [`pv_terms::push_less`].
pub fn push_less(nodes: &mut Vec<Node>, a: u32, b: u32) -> Result<u32, TermFault>
    ensures { (s t : terms.Term) → IsTable nodes.old.items → IsAt nodes.old.items a s → IsAt nodes.old.items b t
        → IfOk result (λ n. Puts nodes.old.items nodes.new.items n (forms.less_term s t)) }
{
    pv_terms::push_less(nodes, a, b)
}

/// [`pv_terms::push_between`].
pub fn push_between(
    nodes: &mut Vec<Node>,
    op: BinaryOp,
    ty: Ty,
    a: u32,
    b: u32,
) -> Result<u32, TermFault>
    ensures { (s t : terms.Term) → IsTable nodes.old.items → IsAt nodes.old.items a s → IsAt nodes.old.items b t
        → IfOk result (λ n. Puts nodes.old.items nodes.new.items n (forms.binary_term op ty s t)) }
{
    pv_terms::push_between(nodes, op, ty, a, b)
}

/// [`pv_terms::push_is_index`].
pub fn push_is_index(nodes: &mut Vec<Node>, a: u32, v: i128) -> Result<u32, TermFault>
    ensures { (t : terms.Term) → IsTable nodes.old.items → IsAt nodes.old.items a t
        → IfOk result (λ n. Puts nodes.old.items nodes.new.items n (forms.is_index_term t v)) }
{
    pv_terms::push_is_index(nodes, a, v)
}

/// [`pv_terms::push_outside`].
pub fn push_outside(nodes: &mut Vec<Node>, a: u32, low: i128, high: i128) -> Result<u32, TermFault>
    ensures { (t : terms.Term) → IsTable nodes.old.items → IsAt nodes.old.items a t
        → IfOk result (λ n. Puts nodes.old.items nodes.new.items n (forms.outside_term t low high)) }
{
    pv_terms::push_outside(nodes, a, low, high)
}

/// [`pv_terms::push_function`].
pub fn push_function(
    nodes: &mut Vec<Node>,
    function: StdFunction,
    ty: Ty,
    count: u32,
    args: &[Given],
) -> Result<u32, TermFault>
    ensures { (ts : List forms.Typed) → IsTable nodes.old.items → AreGiven nodes.old.items args.now ts
        → IfOk result (λ n. Puts nodes.old.items nodes.new.items n (forms.function_term function ty count ts)) }
{
    pv_terms::push_function(nodes, function, ty, count, args)
}
