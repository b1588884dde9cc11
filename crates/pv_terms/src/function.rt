//! Terms of standard functions.
ghost use Rattle.std.specs.Prelude.{◌≡◌, List, IfOk, pos};
ghost use Rattle.pv_word.specs.declared.types.Ty.TheVariants.{Bool};
ghost use Rattle.pv_flow.specs.Terms as terms;
ghost use Rattle.pv_terms.specs.Forms as forms;
ghost use Rattle.pv_terms.specs.Given.{AreGiven};
ghost use Rattle.pv_terms.specs.Pushed.{IsTable, IsAt, Puts};

use crate::fault::TermFault;
use crate::forms::{converted, push_less};
use crate::table::{push_constant, push_select, push_unary};
use pv_flow::{Node, UnaryOp as One};
use pv_tree::StdFunction;
use pv_word::Ty;

/// An argument: its type, and the number of its term.
#[derive(Clone, Copy)]
pub struct Given {
    pub ty: Ty,
    pub term: u32,
}

/// The argument of this number as one of a type; a missing one is 0.
fn argument_at(nodes: &mut Vec<Node>, args: &[Given], k: usize, ty: Ty) -> Result<u32, TermFault>
    ensures { (ts : List forms.Typed) → IsTable nodes.old.items → AreGiven nodes.old.items args.now ts
        → IfOk result (λ n. Puts nodes.old.items nodes.new.items n (forms.argument_term k ty ts)) }
{
    match args.get(k) {
        Some(given) => converted(nodes, given.ty, ty, given.term),
        None => push_constant(nodes, ty, 0),
    }
}

/// The lesser of two terms.
fn push_lesser(nodes: &mut Vec<Node>, ty: Ty, a: u32, b: u32) -> Result<u32, TermFault>
    ensures { (s t : terms.Term) → IsTable nodes.old.items → IsAt nodes.old.items a s → IsAt nodes.old.items b t
        → IfOk result (λ n. Puts nodes.old.items nodes.new.items n (forms.lesser_term ty s t)) }
{
    let less = push_less(nodes, a, b)?;
    push_select(nodes, ty, less, a, b)
}

/// The greater of two terms.
fn push_greater(nodes: &mut Vec<Node>, ty: Ty, a: u32, b: u32) -> Result<u32, TermFault>
    ensures { (s t : terms.Term) → IsTable nodes.old.items → IsAt nodes.old.items a s → IsAt nodes.old.items b t
        → IfOk result (λ n. Puts nodes.old.items nodes.new.items n (forms.greater_term ty s t)) }
{
    let less = push_less(nodes, a, b)?;
    push_select(nodes, ty, less, b, a)
}

/// Whether a term is negative.
fn push_negative(nodes: &mut Vec<Node>, ty: Ty, a: u32) -> Result<u32, TermFault>
    ensures { (t : terms.Term) → IsTable nodes.old.items → IsAt nodes.old.items a t
        → IfOk result (λ n. Puts nodes.old.items nodes.new.items n (forms.less_term t (terms.constant ty (pos 0)))) }
{
    let zero = push_constant(nodes, ty, 0)?;
    push_less(nodes, a, zero)
}

/// The term without its sign.
fn push_magnitude(nodes: &mut Vec<Node>, ty: Ty, a: u32) -> Result<u32, TermFault>
    ensures { (t : terms.Term) → IsTable nodes.old.items → IsAt nodes.old.items a t
        → IfOk result (λ n. Puts nodes.old.items nodes.new.items n (forms.magnitude_term ty t)) }
{
    let less = push_negative(nodes, ty, a)?;
    let turned = push_unary(nodes, One::Negate, ty, a)?;
    push_select(nodes, ty, less, turned, a)
}

/// A conversion: the argument is first made one of the type that it is from.
fn push_conversion(
    nodes: &mut Vec<Node>,
    args: &[Given],
    from: Ty,
    to: Ty,
) -> Result<u32, TermFault>
    ensures { (ts : List forms.Typed) → IsTable nodes.old.items → AreGiven nodes.old.items args.now ts
        → IfOk result (λ n. Puts nodes.old.items nodes.new.items n (forms.converted from to (forms.argument_term 0 from ts))) }
{
    let a = argument_at(nodes, args, 0, from)?;
    converted(nodes, from, to, a)
}

/// ABS.
fn push_abs(nodes: &mut Vec<Node>, args: &[Given], ty: Ty) -> Result<u32, TermFault>
    ensures { (ts : List forms.Typed) → IsTable nodes.old.items → AreGiven nodes.old.items args.now ts
        → IfOk result (λ n. Puts nodes.old.items nodes.new.items n (forms.magnitude_term ty (forms.argument_term 0 ty ts))) }
{
    let a = argument_at(nodes, args, 0, ty)?;
    push_magnitude(nodes, ty, a)
}

/// MIN.
fn push_min(nodes: &mut Vec<Node>, args: &[Given], ty: Ty) -> Result<u32, TermFault>
    ensures { (ts : List forms.Typed) → IsTable nodes.old.items → AreGiven nodes.old.items args.now ts
        → IfOk result (λ n. Puts nodes.old.items nodes.new.items n (forms.lesser_term ty (forms.argument_term 0 ty ts) (forms.argument_term 1 ty ts))) }
{
    let a = argument_at(nodes, args, 0, ty)?;
    let b = argument_at(nodes, args, 1, ty)?;
    push_lesser(nodes, ty, a, b)
}

/// MAX.
fn push_max(nodes: &mut Vec<Node>, args: &[Given], ty: Ty) -> Result<u32, TermFault>
    ensures { (ts : List forms.Typed) → IsTable nodes.old.items → AreGiven nodes.old.items args.now ts
        → IfOk result (λ n. Puts nodes.old.items nodes.new.items n (forms.greater_term ty (forms.argument_term 0 ty ts) (forms.argument_term 1 ty ts))) }
{
    let a = argument_at(nodes, args, 0, ty)?;
    let b = argument_at(nodes, args, 1, ty)?;
    push_greater(nodes, ty, a, b)
}

/// LIMIT: the lesser of its third argument and of the greater of the others.
fn push_limit(nodes: &mut Vec<Node>, args: &[Given], ty: Ty) -> Result<u32, TermFault>
    ensures { (ts : List forms.Typed) → IsTable nodes.old.items → AreGiven nodes.old.items args.now ts
        → IfOk result (λ n. Puts nodes.old.items nodes.new.items n (forms.lesser_term ty (forms.argument_term 2 ty ts)
        (forms.greater_term ty (forms.argument_term 0 ty ts) (forms.argument_term 1 ty ts)))) }
{
    let greater = push_max(nodes, args, ty)?;
    let most = argument_at(nodes, args, 2, ty)?;
    push_lesser(nodes, ty, most, greater)
}

/// SEL: the third argument where the first is true, else the second.
fn push_sel(nodes: &mut Vec<Node>, args: &[Given], ty: Ty) -> Result<u32, TermFault>
    ensures { (ts : List forms.Typed) → IsTable nodes.old.items → AreGiven nodes.old.items args.now ts
        → IfOk result (λ n. Puts nodes.old.items nodes.new.items n (terms.select ty (forms.argument_term 0 Bool ts) (forms.argument_term 2 ty ts) (forms.argument_term 1 ty ts))) }
{
    let choice = argument_at(nodes, args, 0, Ty::Bool)?;
    let no = argument_at(nodes, args, 1, ty)?;
    let yes = argument_at(nodes, args, 2, ty)?;
    push_select(nodes, ty, choice, yes, no)
}

/// A shift.
fn push_shift(nodes: &mut Vec<Node>, args: &[Given], op: One, ty: Ty) -> Result<u32, TermFault>
    ensures { (ts : List forms.Typed) → IsTable nodes.old.items → AreGiven nodes.old.items args.now ts
        → IfOk result (λ n. Puts nodes.old.items nodes.new.items n (terms.unary op ty (forms.argument_term 0 ty ts))) }
{
    let a = argument_at(nodes, args, 0, ty)?;
    push_unary(nodes, op, ty, a)
}

/// The term of a function, by its result's type, the count that it shifts by, and its arguments.
pub fn push_function(
    nodes: &mut Vec<Node>,
    function: StdFunction,
    ty: Ty,
    count: u32,
    args: &[Given],
) -> Result<u32, TermFault>
    ensures { (ts : List forms.Typed) → IsTable nodes.old.items → AreGiven nodes.old.items args.now ts
        → IfOk result (λ n. Puts nodes.old.items nodes.new.items n (forms.function_term function ty count ts)) }
{
    match function {
        StdFunction::Convert(from, to) => push_conversion(nodes, args, from, to),
        StdFunction::Abs => push_abs(nodes, args, ty),
        StdFunction::Min => push_min(nodes, args, ty),
        StdFunction::Max => push_max(nodes, args, ty),
        StdFunction::Limit => push_limit(nodes, args, ty),
        StdFunction::Sel => push_sel(nodes, args, ty),
        StdFunction::Shl => push_shift(nodes, args, One::Left(count), ty),
        StdFunction::Shr => push_shift(nodes, args, One::Right(count), ty),
    }
}
