//! Operators and functions whose operands don't fit.
ghost use Rattle.std.specs.Prelude.{◌≡◌, ◌∷◌, [], map, option_and_then};
ghost use Rattle.std.specs.List.{list_any};
ghost use Rattle.pv_tree.specs.LiteralTypes.{nothing};
ghost use Rattle.pv_tree.specs.Sorts as sorts;
ghost use Rattle.pv_names.specs.Sorts.{sort_tree};
ghost use Rattle.pv_rules_expr.specs.Places.{place_where};

use pv_names::{Sort, common_type, result_of_binary, value_of_unary, wanted_beside};
use pv_place::Place;
use pv_tree::{BinaryOp, UnaryOp};
use pv_word::Ty;

/// Whether the part is a whole array, structure, instance or block.
pub fn is_whole(sort: Sort) -> bool
    ensures { result ≡ sorts.is_whole (sort_tree sort) }
{
    match sort {
        Sort::Whole => true,
        Sort::Untyped(_) | Sort::Typed(..) | Sort::One(_) | Sort::Broken => false,
    }
}

/// Whether the part breaks a rule, or has no type since something else breaks one.
fn is_broken(sort: Sort) -> bool
    ensures { result ≡ sorts.is_broken (sort_tree sort) }
{
    match sort {
        Sort::Broken => true,
        Sort::Untyped(_) | Sort::Typed(..) | Sort::One(_) | Sort::Whole => false,
    }
}

/// Whether one of the parts is whole.
fn has_whole(parts: &[Sort]) -> bool
    ensures { result ≡ list_any sorts.is_whole (map sort_tree parts.now) }
{
    for part in parts {
        if is_whole(*part) {
            return true;
        }
    }
    false
}

/// Whether one of the parts is broken.
fn has_broken(parts: &[Sort]) -> bool
    ensures { result ≡ list_any sorts.is_broken (map sort_tree parts.now) }
{
    for part in parts {
        if is_broken(*part) {
            return true;
        }
    }
    false
}

/// Whether the operands don't fit, though each has a type.
pub(crate) fn misfits(ty: Option<Ty>, parts: &[Sort]) -> bool
    ensures { result ≡ sorts.misfits ty (map sort_tree parts.now) }
{
    match ty {
        Some(_) => false,
        None => has_whole(parts) || !has_broken(parts),
    }
}

/// Whether the operand doesn't fit the operator before it.
pub(crate) fn misfits_unary(op: UnaryOp, arg: Sort) -> bool
    ensures { result ≡ sorts.misfits (option_and_then (sorts.result_of_unary op)
        (sorts.common_type (sorts.taken nothing (sort_tree arg) ∷ [])))
        (sorts.taken nothing (sort_tree arg) ∷ []) }
{
    let one = [arg];
    misfits(value_of_unary(op, arg), one.as_slice())
}

/// The type of the value of an operator between its operands.
pub(crate) fn value_of_binary(op: BinaryOp, parts: &[Sort]) -> Option<Ty>
    ensures { result ≡ option_and_then (sorts.result_of_binary op)
        (sorts.common_type (sorts.beside (map sort_tree parts.now))) }
{
    match common_type(wanted_beside(parts), parts) {
        Some(ty) => result_of_binary(op, ty),
        None => None,
    }
}

/// The place, where the test passes.
pub fn where_is(test: bool, place: Place) -> Option<Place>
    ensures { result ≡ place_where test place }
{
    if test { Some(place) } else { None }
}
