//! Assignments, each by itself: where one breaks a rule.
ghost use Rattle.std.specs.Prelude.{◌≡◌, OnOk, map};
ghost use Rattle.pv_tree.specs.Tree.{assign, assign_call};
ghost use Rattle.pv_tree.specs.Parts as parts;
ghost use Rattle.pv_tree.specs.Types.{sort_of, sort_of_operand};
ghost use Rattle.pv_tree.specs.Rules.Misfits as misfits;
ghost use Rattle.pv_tree.specs.View.{call_tree, expr_tree, operand_tree};
ghost use Rattle.pv_names.specs.InScope.{scope_of};
ghost use Rattle.pv_names.specs.Callees.{callee_tree};
ghost use Rattle.pv_names.specs.Sorts.{sort_tree, want_tree};
ghost use Rattle.pv_rules_code.specs.AtAssignments.{assigned_misfits, called_misfits};
ghost use Rattle.pv_rules_code.specs.Nears.{HasSites};
ghost use Rattle.pv_rules_code.specs.Sites.{site_place};
ghost use Rattle.pv_rules_code.specs.Spots.{loop_tree, spot};

use crate::around::Loop;
use crate::called::add_call;
use crate::fit::{doesnt_fit, sort_of_target};
use crate::near::SiteNear;
use crate::target::{add_aims, counted_place};
use pv_names::{Callee, How, Scope, Sort, Want, one_of, taken};
use pv_place::Place;
use pv_rules_expr::{look_for_all, look_in_operand_for_all, nearer_of, where_is};
use pv_tree::{CallTree, Expr, Operand};
use std::alloc::{AllocError, Global};

/// What an assignment wants of its value, by what its target is.
fn want_of_sort(sort: Sort) -> Want
    ensures { want_tree result ≡ parts.want_of_sort (sort_tree sort) }
{
    match sort {
        Sort::Typed(ty, _) => Want::This(ty),
        Sort::One(ty) => Want::This(ty),
        Sort::Untyped(_) => Want::Unsure,
        Sort::Whole => Want::Unsure,
        Sort::Broken => Want::Unsure,
    }
}

/// What the value of a called block is.
fn sort_of_callee(callee: Callee) -> Sort
    ensures { sort_tree result ≡ misfits.sort_of_callee (callee_tree callee.entry) }
{
    match callee {
        Callee::Runs(entry) => one_of(entry.block.interface.value),
        Callee::NotDeclared(_) => Sort::Broken,
        Callee::NotCallable(_) => Sort::Broken,
        Callee::Unknown => Sort::Broken,
    }
}

/// Whether a value of this sort doesn't fit its target.
fn assigned_misfits(scope: &Scope, target: &Operand, takes: Sort, value: &Expr, sort: Sort) -> bool
    requires target { sort_tree takes
        ≡ sort_of_operand (scope_of scope.now) (operand_tree target.now) }
    requires value { sort_tree sort ≡ sort_of (scope_of scope.now) (expr_tree value.now) }
    ensures { result ≡ assigned_misfits (scope_of scope.now) (operand_tree target.now)
        (expr_tree value.now) }
{
    let of_value = taken(want_of_sort(takes), sort);
    doesnt_fit(sort_of_target(scope, target, takes), of_value)
}

/// Whether the value of a called block doesn't fit its target.
fn called_misfits(scope: &Scope, target: &Operand, takes: Sort, call: &CallTree) -> bool
    requires { sort_tree takes ≡ sort_of_operand (scope_of scope.now) (operand_tree target.now) }
    ensures { result ≡ called_misfits (scope_of scope.now) (operand_tree target.now)
        (call_tree call.now) }
{
    let of_value = sort_of_callee(scope.callee_of(How::Value, call));
    doesnt_fit(sort_of_target(scope, target, takes), of_value)
}

/// The nearest places, with those of an assignment.
pub(crate) fn add_assignment(
    scope: &Scope,
    alloc: Global,
    loops: &[Loop],
    target: &Operand,
    place: Place,
    value: &Expr,
    near: &mut SiteNear,
) -> Result<(), AllocError>
    ensures { OnOk result (HasSites (λ what. site_place what (scope_of scope.now)
        (spot (map loop_tree loops.now) (assign (operand_tree target.now) place
        (expr_tree value.now)))) near.old near.new) }
{
    add_aims(scope, alloc, true, target, &mut near.aims)?;
    let takes = look_in_operand_for_all(scope, alloc, target, &mut near.parts)?;
    let sort = look_for_all(scope, alloc, want_of_sort(takes), value, &mut near.parts)?;
    let misfits = assigned_misfits(scope, target, takes, value, sort);
    near.counted = nearer_of(near.counted, counted_place(loops, target));
    near.misfit = nearer_of(near.misfit, where_is(misfits, place));
    Ok(())
}

/// The nearest places, with those of an assignment of a called block's value.
pub(crate) fn add_assigned(
    scope: &Scope,
    alloc: Global,
    loops: &[Loop],
    target: &Operand,
    place: Place,
    call: &CallTree,
    near: &mut SiteNear,
) -> Result<(), AllocError>
    ensures { OnOk result (HasSites (λ what. site_place what (scope_of scope.now)
        (spot (map loop_tree loops.now) (assign_call (operand_tree target.now) place
        (call_tree call.now)))) near.old near.new) }
{
    add_aims(scope, alloc, true, target, &mut near.aims)?;
    let takes = look_in_operand_for_all(scope, alloc, target, &mut near.parts)?;
    let misfits = called_misfits(scope, target, takes, call);
    near.counted = nearer_of(near.counted, counted_place(loops, target));
    near.misfit = nearer_of(near.misfit, where_is(misfits, place));
    let how = How::Value;
    add_call(
        scope,
        alloc,
        loops,
        how,
        call,
        &mut near.parts,
        &mut near.asks,
    )
}
