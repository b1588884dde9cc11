//! Whether a value fits what takes it.
ghost use Rattle.std.specs.Prelude.{◌≡◌, ◌||◌, option_map};
ghost use Rattle.pv_types.specs.declared.declaration.Section.TheVariants.{InOut};
ghost use Rattle.pv_tree.specs.Callees as callees;
ghost use Rattle.pv_tree.specs.Fits as fits;
ghost use Rattle.pv_tree.specs.Parts as parts;
ghost use Rattle.pv_tree.specs.Types as types;
ghost use Rattle.pv_tree.specs.Rules.Misfits as misfits;
ghost use Rattle.pv_tree.specs.View.{expr_tree, operand_tree};
ghost use Rattle.pv_names.specs.InScope.{scope_of};
ghost use Rattle.pv_names.specs.Views.{held_tree};
ghost use Rattle.pv_names.specs.Sorts.{sort_tree, want_tree};
ghost use Rattle.pv_names.specs.Callees.{param_tree};
ghost use Rattle.pv_rules_code.specs.AtCalls.{misfits_param};

use pv_names::{
    Held, Param, Scope, Sort, Thing, Want, own_type, section_of_param, taken, type_of_param, widens,
};
use pv_rules_expr::{is_whole, operand_of};
use pv_tree::{Expr, Operand};
use pv_types::Section;
use pv_word::Ty;

/// Whether a value of the first type stands where one of the second is taken; what has no type is no fault here.
fn widens_from(from: Option<Ty>, to: Option<Ty>) -> bool
    ensures { result ≡ fits.widens_from from to }
{
    match from {
        None => true,
        Some(from) => match to {
            None => true,
            Some(to) => widens(from, to),
        },
    }
}

/// Whether a value doesn't fit its target.
pub(crate) fn doesnt_fit(target: Sort, value: Sort) -> bool
    ensures { result ≡ fits.doesnt_fit (sort_tree target) (sort_tree value) }
{
    is_whole(target) || is_whole(value) || !widens_from(own_type(value), own_type(target))
}

/// What is wanted of an argument's value: the parameter's type.
pub(crate) fn want_of_type(ty: Held) -> Want
    ensures { want_tree result ≡ callees.want_of_type (held_tree ty.entry) }
{
    match ty {
        Held::Plain(ty) => Want::This(ty),
        Held::Array { .. } => Want::Unsure,
        Held::Struct(_) => Want::Unsure,
        Held::Named(..) => Want::Unsure,
        Held::Unread => Want::Unsure,
    }
}

/// What an assignable operand of this sort takes.
pub(crate) fn sort_of_target(scope: &Scope, operand: &Operand, sort: Sort) -> Sort
    requires { sort_tree sort ≡ types.sort_of_operand (scope_of scope.now) (operand_tree operand.now) }
    ensures { sort_tree result
        ≡ fits.sort_of_target (scope_of scope.now) (operand_tree operand.now) }
{
    match scope.thing_of(operand) {
        Thing::Part(_) => sort,
        Thing::Constant(_) => Sort::Broken,
        Thing::Block(_) => Sort::Broken,
        Thing::NoName(_) => Sort::Broken,
        Thing::NoArray(_) => Sort::Broken,
        Thing::ADate(_) => Sort::Broken,
        Thing::Untold => Sort::Broken,
    }
}

/// What an argument of this sort that the called block writes takes.
fn sort_of_argument(scope: &Scope, e: &Expr, sort: Sort) -> Sort
    requires { sort_tree sort ≡ types.sort_of (scope_of scope.now) (expr_tree e.now) }
    ensures { sort_tree result ≡ misfits.sort_of_argument (scope_of scope.now)
        (expr_tree e.now) (parts.operand_of (expr_tree e.now)) }
{
    match operand_of(e) {
        Some(operand) => sort_of_target(scope, operand, sort),
        None => {
            if is_whole(sort) {
                Sort::Whole
            } else {
                Sort::Broken
            }
        }
    }
}

/// Whether an argument of this sort isn't of the type of this VAR_IN_OUT.
fn doesnt_pass_both(scope: &Scope, ty: Held, e: &Expr, sort: Sort) -> bool
    requires { sort_tree sort ≡ types.sort_of (scope_of scope.now) (expr_tree e.now) }
    ensures { result ≡ misfits.doesnt_pass (scope_of scope.now) InOut (held_tree ty.entry)
        (expr_tree e.now) }
{
    let takes = sort_of_argument(scope, e, sort);
    let param = scope.sort_of_type(ty);
    doesnt_fit(takes, param) || doesnt_fit(param, takes)
}

/// Whether an argument of this sort doesn't fit a parameter of this section and type.
fn doesnt_pass(scope: &Scope, section: Section, ty: Held, e: &Expr, sort: Sort) -> bool
    requires { sort_tree sort ≡ types.sort_of (scope_of scope.now) (expr_tree e.now) }
    ensures { result ≡ misfits.doesnt_pass (scope_of scope.now) section (held_tree ty.entry)
        (expr_tree e.now) }
{
    match section {
        Section::Input => doesnt_fit(scope.sort_of_type(ty), taken(want_of_type(ty), sort)),
        Section::Output => doesnt_fit(sort_of_argument(scope, e, sort), scope.sort_of_type(ty)),
        Section::InOut => doesnt_pass_both(scope, ty, e, sort),
        Section::Static => is_whole(sort),
        Section::Temp => is_whole(sort),
        Section::Const => is_whole(sort),
    }
}

/// Whether an argument of this sort doesn't fit its parameter.
pub(crate) fn misfits_param(scope: &Scope, param: Option<Param>, e: &Expr, sort: Sort) -> bool
    requires { sort_tree sort ≡ types.sort_of (scope_of scope.now) (expr_tree e.now) }
    ensures { result ≡ misfits_param (scope_of scope.now) (expr_tree e.now)
        (option_map param_tree param.entry) }
{
    match param {
        None => is_whole(sort),
        Some(param) => {
            doesnt_pass(
                scope,
                section_of_param(param),
                type_of_param(param),
                e,
                sort,
            )
        }
    }
}
