//! Types and wants of parts, as lowering asks for them.
ghost use Rattle.std.specs.Prelude.{◌≡◌, ◌∷◌, [], map, unsigned_abs, unwrap_or, IfOk, IfSome, option_map};
ghost use Rattle.pv_word.specs.declared.types.Ty.TheVariants.{Dint};
ghost use Rattle.pv_tree.specs.declared.expr.StdFunction.TheVariants.{Sel};
ghost use Rattle.pv_tree.specs.View.{expr_tree, exprs_of};
ghost use Rattle.pv_tree.specs.Sorts as sorts;
ghost use Rattle.pv_names.specs.InScope as in_scope;
ghost use Rattle.pv_names.specs.Sorts.{number_value, sort_tree, want_tree};
ghost use Rattle.pv_names.specs.Written.{written_tree};
ghost use Rattle.pv_lower.specs.Lowered as lowered;
ghost use Rattle.pv_lower.specs.Lowering.{first_then, IsMeeting, IsWanted};

use crate::fault::LowerFault;
use pv_names::{
    Number, Scope, Sort, Want, Written, common_type, literal_of, own_type, taken, wanted_beside,
};
use pv_tree::{Expr, StdFunction};
use pv_word::Ty;
use std::alloc::{AllocError, Global};

/// A number with its sign, where 128 bits hold it.
pub(crate) fn signed_value(n: Number) -> Option<i128>
    ensures { IfSome result (λ v. v ≡ number_value n) }
{
    if n.negated {
        n.value.checked_neg()
    } else {
        Some(n.value)
    }
}

/// A type, or DINT where what breaks a rule has none.
fn type_or(ty: Option<Ty>) -> Ty
    ensures { result ≡ unwrap_or ty Dint }
{
    match ty {
        Some(ty) => ty,
        None => Ty::Dint,
    }
}

/// The type that a part takes by what is wanted of it.
fn taken_type(want: Want, sort: Sort) -> Ty
    ensures { result ≡ unwrap_or (sorts.own_type (sorts.taken (want_tree want) (sort_tree sort))) Dint }
{
    type_or(own_type(taken(want, sort)))
}

/// The type of a part by what is wanted of it.
pub(crate) fn part_type(
    scope: &Scope,
    alloc: Global,
    want: Want,
    e: &Expr,
) -> Result<Ty, AllocError>
    ensures { IfOk result (λ ty. ty
        ≡ lowered.part_type (in_scope.scope_of scope.now) (want_tree want) (expr_tree e.now)) }
{
    let sort = scope.sort_of(alloc, e)?;
    Ok(taken_type(want, sort))
}

/// How two operands of one operator meet: what is wanted of a literal among them, the type at which they meet, and the types that they have
/// before that.
#[derive(Clone, Copy)]
pub(crate) struct Meeting {
    pub(crate) want: Want,
    pub(crate) ty: Ty,
    pub(crate) left: Ty,
    pub(crate) right: Ty,
}

/// The type at which parts meet, of which this is wanted.
fn met_type(want: Want, parts: &[Sort]) -> Ty
    ensures { result
        ≡ unwrap_or (sorts.common_type (map (sorts.taken (want_tree want)) (map sort_tree parts.now))) Dint }
{
    type_or(common_type(want, parts))
}

/// How operands of these sorts meet.
fn met(left: Sort, right: Sort) -> Meeting
    ensures want { want_tree result.want ≡ sorts.wanted_beside (sort_tree left ∷ sort_tree right ∷ []) }
    ensures ty { result.ty ≡ unwrap_or (sorts.common_type (sorts.beside (sort_tree left ∷ sort_tree right ∷ []))) Dint }
    ensures left { result.left ≡ unwrap_or (sorts.own_type (sorts.taken
        (sorts.wanted_beside (sort_tree left ∷ sort_tree right ∷ [])) (sort_tree left))) Dint }
    ensures right { result.right ≡ unwrap_or (sorts.own_type (sorts.taken
        (sorts.wanted_beside (sort_tree left ∷ sort_tree right ∷ [])) (sort_tree right))) Dint }
{
    let pair = [left, right];
    let want = wanted_beside(pair.as_slice());
    Meeting {
        want,
        ty: met_type(want, pair.as_slice()),
        left: taken_type(want, left),
        right: taken_type(want, right),
    }
}

/// How two operands of one operator meet.
pub(crate) fn meeting_of(
    scope: &Scope,
    alloc: Global,
    left: &Expr,
    right: &Expr,
) -> Result<Meeting, AllocError>
    ensures { IfOk result (λ m.
        IsMeeting m (in_scope.scope_of scope.now) (expr_tree left.now) (expr_tree right.now)) }
{
    let left = scope.sort_of(alloc, left)?;
    let right = scope.sort_of(alloc, right)?;
    Ok(met(left, right))
}

/// What a function wants of its first argument and of the others.
#[derive(Clone, Copy)]
pub(crate) struct Wants {
    pub(crate) first: Want,
    pub(crate) others: Want,
}

/// The same of each.
fn same_wants(want: Want) -> Wants
    ensures first { result.first ≡ want }
    ensures others { result.others ≡ want }
{
    Wants {
        first: want,
        others: want,
    }
}

/// What SEL wants.
fn choice_wants(parts: &[Sort]) -> Wants
    ensures { sorts.wants_of Sel (map sort_tree parts.now) ≡ first_then result (map sort_tree parts.now) }
{
    match parts.split_first() {
        Some((_, more)) => Wants {
            first: Want::Nothing,
            others: wanted_beside(more),
        },
        None => same_wants(Want::Nothing),
    }
}

/// What a function wants of arguments of these sorts.
fn wants_by(function: StdFunction, parts: &[Sort]) -> Wants
    ensures { sorts.wants_of function (map sort_tree parts.now) ≡ first_then result (map sort_tree parts.now) }
{
    match function {
        StdFunction::Convert(from, _) => same_wants(Want::This(from)),
        StdFunction::Abs | StdFunction::Shl | StdFunction::Shr => same_wants(Want::Nothing),
        StdFunction::Min | StdFunction::Max | StdFunction::Limit => {
            same_wants(wanted_beside(parts))
        }
        StdFunction::Sel => choice_wants(parts),
    }
}

/// What a function wants of its arguments.
pub(crate) fn wants_of(
    scope: &Scope,
    alloc: Global,
    function: StdFunction,
    args: &[Expr],
) -> Result<Wants, AllocError>
    ensures { IfOk result (λ w.
        IsWanted w function (in_scope.scope_of scope.now) (exprs_of (map expr_tree args.now))) }
{
    let parts = scope.sorts_of(alloc, args)?;
    Ok(wants_by(function, parts.as_slice()))
}

/// A number without its sign, where 32 bits hold it.
fn magnitude_of(n: Number) -> Result<u32, LowerFault>
    ensures { IfOk result (λ m. m ≡ unsigned_abs (number_value n)) }
{
    match u32::try_from(n.value.unsigned_abs()) {
        Ok(count) => Ok(count),
        Err(_) => Err(LowerFault::TooLarge),
    }
}

/// What a shift is by, by its second argument.
fn count_by(second: Option<Written>) -> Result<u32, LowerFault>
    ensures { IfOk result (λ n. n ≡ lowered.count_of (option_map written_tree second)) }
{
    match second {
        Some(literal) => magnitude_of(literal.number),
        None => Ok(0),
    }
}

/// What a shift is by: its second argument, a literal. By the rules it lies from 0 to 32.
pub(crate) fn count_of(args: &[Expr]) -> Result<u32, LowerFault>
    ensures { IfOk result (λ n. n ≡ lowered.count_in (exprs_of (map expr_tree args.now))) }
{
    match args.get(1) {
        Some(second) => count_by(literal_of(second)),
        None => Ok(0),
    }
}
