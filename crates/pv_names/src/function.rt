//! The type of a standard function's value, by the sorts of its arguments.
ghost use Rattle.std.specs.Prelude.{◌≡◌, map, option_and_then};
ghost use Rattle.pv_tree.specs.LiteralTypes as literals;
ghost use Rattle.pv_tree.specs.Sorts as sorts;
ghost use Rattle.pv_tree.specs.declared.expr.StdFunction.TheVariants.{Convert, Min, Sel, Shl};
ghost use Rattle.pv_names.specs.Sorts.{sort_tree};

use crate::operator::{common_type, is_bool, is_count, is_shifted, type_where, wanted_beside};
use crate::sort::{Sort, Want, is_whole_number, own_type, taken, widens};
use pv_tree::StdFunction;
use pv_word::Ty;

/// The type, where it is INT or DINT.
fn whole_type(ty: Option<Ty>) -> Option<Ty>
    ensures { result ≡ option_and_then (sorts.type_where literals.is_whole_number) ty }
{
    match ty {
        Some(ty) => type_where(is_whole_number(ty), ty),
        None => None,
    }
}

/// The type of the value of MIN, MAX or LIMIT.
fn whole_of_beside(parts: &[Sort]) -> Option<Ty>
    ensures { result ≡ sorts.result_of_function Min (sorts.arguments_of Min (map sort_tree parts.now)) }
{
    whole_type(common_type(wanted_beside(parts), parts))
}

/// The type of a conversion's value.
fn convert_result(from: Ty, to: Ty, parts: &[Sort]) -> Option<Ty>
    ensures { result ≡ sorts.convert_result from to
        (sorts.arguments_of (Convert from to) (map sort_tree parts.now)) }
{
    let Some((first, more)) = parts.split_first() else {
        return None;
    };
    if let Some(_) = more.split_first() {
        return None;
    }
    let Some(ty) = own_type(taken(Want::This(from), *first)) else {
        return None;
    };
    if widens(ty, from) { Some(to) } else { None }
}

/// The type of SEL's value.
fn choice_result(parts: &[Sort]) -> Option<Ty>
    ensures { result ≡ sorts.choice_result (sorts.arguments_of Sel (map sort_tree parts.now)) }
{
    let Some((first, more)) = parts.split_first() else {
        return None;
    };
    let Some(ty) = own_type(taken(Want::Nothing, *first)) else {
        return None;
    };
    if is_bool(ty) {
        common_type(wanted_beside(more), more)
    } else {
        None
    }
}

/// The type of the value of SHL or SHR.
fn shift_result(parts: &[Sort]) -> Option<Ty>
    ensures { result ≡ sorts.shift_result (sorts.arguments_of Shl (map sort_tree parts.now)) }
{
    let Some((first, more)) = parts.split_first() else {
        return None;
    };
    let Some((second, others)) = more.split_first() else {
        return None;
    };
    if let Some(_) = others.split_first() {
        return None;
    }
    if !is_count(taken(Want::Nothing, *second)) {
        return None;
    }
    let Some(ty) = own_type(taken(Want::Nothing, *first)) else {
        return None;
    };
    type_where(is_shifted(ty), ty)
}

/// The type of a function's value by its arguments, where the function takes them.
pub fn result_of_function(function: StdFunction, parts: &[Sort]) -> Option<Ty>
    ensures { result ≡ sorts.result_of_function function
        (sorts.arguments_of function (map sort_tree parts.now)) }
{
    match function {
        StdFunction::Convert(from, to) => convert_result(from, to, parts),
        StdFunction::Abs => whole_type(common_type(Want::Nothing, parts)),
        StdFunction::Min => whole_of_beside(parts),
        StdFunction::Max => whole_of_beside(parts),
        StdFunction::Limit => whole_of_beside(parts),
        StdFunction::Sel => choice_result(parts),
        StdFunction::Shl | StdFunction::Shr => shift_result(parts),
    }
}
