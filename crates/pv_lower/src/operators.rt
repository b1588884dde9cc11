//! Literals, operators and functions of terms, and the checks that they make.
ghost use Rattle.std.specs.Prelude.{◌≡◌, ◌∷◌, [], List, map, IfOk, OnOk};
ghost use Rattle.pv_place.specs.declared.trap.TrapKind.TheVariants.{Index};
ghost use Rattle.pv_tree.specs.LiteralTypes as types;
ghost use Rattle.pv_tree.specs.View.{expr_tree, exprs_of};
ghost use Rattle.pv_names.specs.Sorts.{number_value, want_tree};
ghost use Rattle.pv_sizes.specs.Checks as sizes;
ghost use Rattle.pv_flow.specs.Terms as terms;
ghost use Rattle.pv_terms.specs.Forms as forms;
ghost use Rattle.pv_terms.specs.Given.{AreGiven};
ghost use Rattle.pv_terms.specs.Pushed.{IsTable, IsAt, Puts};
ghost use Rattle.pv_access.specs.Pushed.{Checks};
ghost use Rattle.pv_lower.specs.Lowered as lowered;
ghost use Rattle.pv_lower.specs.Lowering.{Lowers};

use crate::fault::LowerFault;
use crate::types::{Meeting, count_of, signed_value};
use pv_access::{Check, Move};
use pv_flow::{BinaryOp as Two, Node};
use pv_names::{Want, Written, type_of_literal};
use pv_place::{Place, TrapKind};
use pv_terms::{
    Given, converted, push_between, push_binary, push_constant, push_function, push_outside,
};
use pv_tree::{BinaryOp, Expr, StdFunction};
use pv_word::Ty;

/// The node of a literal, of the type that it takes by what is wanted of it.
pub(crate) fn push_literal(
    nodes: &mut Vec<Node>,
    want: Want,
    literal: Written,
) -> Result<u32, LowerFault>
    ensures { IsTable nodes.old.items → IfOk result (λ n. Puts nodes.old.items nodes.new.items n (terms.constant
        (types.type_of_literal (want_tree want) literal.ty (number_value literal.number)) (number_value literal.number))) }
{
    let ty = type_of_literal(want, literal);
    match signed_value(literal.number) {
        Some(value) => Ok(push_constant(nodes, ty, value)?),
        None => Err(LowerFault::TooLarge),
    }
}

/// Adds the check of a divisor.
fn check_zero(
    nodes: &mut Vec<Node>,
    checks: &mut Vec<Check>,
    place: Place,
    ty: Ty,
    divisor: u32,
) -> Result<(), LowerFault>
    ensures { (t : terms.Term) → IsTable nodes.old.items → IsAt nodes.old.items divisor t
        → OnOk result (Checks nodes.old.items nodes.new.items checks.old.items checks.new.items
        (lowered.zero_check place ty t ∷ [])) }
{
    let zero = push_constant(nodes, ty, 0)?;
    let term = push_binary(nodes, Two::Equal, Ty::Bool, divisor, zero)?;
    checks.push(Check {
        term,
        kind: TrapKind::DivideByZero,
        place,
    })?;
    Ok(())
}

/// Whether the operator divides.
fn divides(op: BinaryOp) -> bool
    ensures { result ≡ sizes.divides op }
{
    match op {
        BinaryOp::Div | BinaryOp::Mod => true,
        BinaryOp::Mul | BinaryOp::Add | BinaryOp::Sub => false,
        BinaryOp::Less | BinaryOp::Greater => false,
        BinaryOp::LessEqual | BinaryOp::GreaterEqual => false,
        BinaryOp::Equal | BinaryOp::NotEqual => false,
        BinaryOp::And | BinaryOp::Xor | BinaryOp::Or => false,
    }
}

/// A divisor may be 0, also where it is a literal.
fn check_divisor(
    nodes: &mut Vec<Node>,
    checks: &mut Vec<Check>,
    op: BinaryOp,
    place: Place,
    ty: Ty,
    divisor: u32,
) -> Result<(), LowerFault>
    ensures { (t : terms.Term) → IsTable nodes.old.items → IsAt nodes.old.items divisor t
        → OnOk result (Checks nodes.old.items nodes.new.items checks.old.items checks.new.items
        (lowered.divisor_checks op place ty t)) }
{
    if divides(op) {
        check_zero(nodes, checks, place, ty, divisor)
    } else {
        Ok(())
    }
}

/// An operator between two terms of the type at which they meet, behind the check that it makes.
fn push_checked(
    nodes: &mut Vec<Node>,
    checks: &mut Vec<Check>,
    op: BinaryOp,
    place: Place,
    ty: Ty,
    a: u32,
    b: u32,
) -> Result<u32, LowerFault>
    ensures { (s t : terms.Term) → IsTable nodes.old.items → IsAt nodes.old.items a s → IsAt nodes.old.items b t
        → IfOk result (λ n. Lowers nodes.old.items nodes.new.items checks.old.items checks.new.items n
        (lowered.joined op place ty [] s t)) }
{
    check_divisor(nodes, checks, op, place, ty, b)?;
    Ok(push_between(nodes, op, ty, a, b)?)
}

/// An operator between two terms of their own types, at the one at which they meet.
pub(crate) fn push_joined(
    nodes: &mut Vec<Node>,
    checks: &mut Vec<Check>,
    op: BinaryOp,
    place: Place,
    met: Meeting,
    a: u32,
    b: u32,
) -> Result<u32, LowerFault>
    ensures { (s t : terms.Term) → IsTable nodes.old.items → IsAt nodes.old.items a s → IsAt nodes.old.items b t
        → IfOk result (λ n. Lowers nodes.old.items nodes.new.items checks.old.items checks.new.items n
        (lowered.joined op place met.ty [] (forms.converted met.left met.ty s) (forms.converted met.right met.ty t))) }
{
    let left = converted(nodes, met.left, met.ty, a)?;
    let right = converted(nodes, met.right, met.ty, b)?;
    push_checked(nodes, checks, op, place, met.ty, left, right)
}

/// A function of arguments with their types, whose value is of this type.
pub(crate) fn push_applied(
    nodes: &mut Vec<Node>,
    function: StdFunction,
    ty: Ty,
    args: &[Expr],
    given: Vec<Given>,
) -> Result<u32, LowerFault>
    ensures { (ts : List forms.Typed) → IsTable nodes.old.items → AreGiven nodes.old.items given.items ts
        → IfOk result (λ n. Puts nodes.old.items nodes.new.items n
        (forms.function_term function ty (lowered.count_in (exprs_of (map expr_tree args.now))) ts)) }
{
    let count = count_of(args)?;
    Ok(push_function(nodes, function, ty, count, given.as_slice())?)
}

/// An index, a DINT, may lie outside the bounds.
pub(crate) fn check_index(
    nodes: &mut Vec<Node>,
    checks: &mut Vec<Check>,
    m: &Move,
    place: Place,
) -> Result<(), LowerFault>
    ensures { (t : terms.Term) → IsTable nodes.old.items → IsAt nodes.old.items m.now.index t
        → OnOk result (Checks nodes.old.items nodes.new.items checks.old.items checks.new.items
        (record { term = forms.outside_term t m.now.low m.now.high; kind = Index; place = place } ∷ [])) }
{
    let term = push_outside(nodes, m.index, m.low, m.high)?;
    checks.push(Check {
        term,
        kind: TrapKind::Index,
        place,
    })?;
    Ok(())
}
