//! Statements, each by itself: where one breaks a rule.
ghost use Rattle.std.specs.Prelude.{◌≡◌, OnOk, flat_map, map};
ghost use Rattle.pv_place.specs.declared.place.Place.{Place};
ghost use Rattle.pv_tree.specs.LiteralTypes.{nothing};
ghost use Rattle.pv_tree.specs.Sorts as sorts;
ghost use Rattle.pv_tree.specs.Fits as fits;
ghost use Rattle.pv_tree.specs.Parts.{parts_of};
ghost use Rattle.pv_tree.specs.View.{expr_tree, stmt_tree};
ghost use Rattle.pv_names.specs.InScope.{scope_of};
ghost use Rattle.pv_names.specs.Sorts.{sort_tree};
ghost use Rattle.pv_rules_expr.specs.Nearest.{nearer_of};
ghost use Rattle.pv_rules_expr.specs.NearestIn.{nearest_in};
ghost use Rattle.pv_rules_code.specs.AtStatements.{condition_at, left_place};
ghost use Rattle.pv_rules_code.specs.Nears.{HasParts, HasSites};
ghost use Rattle.pv_rules_code.specs.Sites.{site_place};
ghost use Rattle.pv_rules_code.specs.Spots.{loop_tree, spot};

use crate::around::Loop;
use crate::assignment::{add_assigned, add_assignment};
use crate::called::add_call;
use crate::case::add_case;
use crate::counter::add_head;
use crate::near::SiteNear;
use pv_names::{How, Scope, Sort, Want, first_place, is_bool, own_type, taken};
use pv_place::Place;
use pv_rules_expr::{Near, is_whole, look_for_all, nearer_of, where_is};
use pv_tree::{Expr, Stmt};
use std::alloc::{AllocError, Global};

/// Whether a part is whole or of another type than BOOL.
fn isnt_bool(sort: Sort) -> bool
    ensures { result ≡ fits.is_of_other_type sorts.is_bool (sort_tree sort) }
{
    if is_whole(sort) {
        return true;
    }
    match own_type(sort) {
        Some(ty) => !is_bool(ty),
        None => false,
    }
}

/// The place of EXIT or CONTINUE outside a loop.
fn left_place(loops: &[Loop], place: Place) -> Option<Place>
    ensures { result ≡ left_place (map loop_tree loops.now) place }
{
    match loops.split_first() {
        Some(_) => None,
        None => Some(place),
    }
}

/// The nearest places, with those of a condition.
fn add_condition(
    scope: &Scope,
    alloc: Global,
    e: &Expr,
    near: &mut Near,
    condition: &mut Option<Place>,
) -> Result<(), AllocError>
    ensures parts { OnOk result (HasParts (scope_of scope.now)
        (parts_of (scope_of scope.now) nothing (expr_tree e.now)) near.old near.new) }
    ensures condition { OnOk result (condition.new ≡ nearer_of condition.old
        (condition_at (scope_of scope.now) (expr_tree e.now))) }
{
    let sort = look_for_all(scope, alloc, Want::Nothing, e, near)?;
    let found = where_is(isnt_bool(taken(Want::Nothing, sort)), first_place(e));
    *condition = nearer_of(*condition, found);
    Ok(())
}

/// The nearest places, with those of the conditions of an IF.
fn add_arms(
    scope: &Scope,
    alloc: Global,
    arms: &Vec<(Expr, Vec<Stmt>)>,
    near: &mut Near,
    condition: &mut Option<Place>,
) -> Result<(), AllocError>
    ensures parts { OnOk result (HasParts (scope_of scope.now)
        (flat_map (parts_of (scope_of scope.now) nothing)
        (map (λ a. expr_tree a.0) arms.now.items)) near.old near.new) }
    ensures condition { OnOk result (condition.new ≡ nearest_in (condition_at (scope_of scope.now))
        (map (λ a. expr_tree a.0) arms.now.items) condition.old) }
{
    for arm in arms {
        add_condition(scope, alloc, &arm.0, near, condition)?;
    }
    Ok(())
}

/// The nearest places, with those of a statement by itself.
pub(crate) fn add_sites(
    scope: &Scope,
    alloc: Global,
    loops: &[Loop],
    stmt: &Stmt,
    near: &mut SiteNear,
) -> Result<(), AllocError>
    ensures { OnOk result (HasSites (λ what. site_place what (scope_of scope.now)
        (spot (map loop_tree loops.now) (stmt_tree stmt.now))) near.old near.new) }
{
    match stmt {
        Stmt::Assign {
            target,
            place,
            value,
        } => add_assignment(scope, alloc, loops, target, *place, value, near),
        Stmt::AssignCall {
            target,
            place,
            call,
        } => add_assigned(scope, alloc, loops, target, *place, call, near),
        Stmt::If { arms, .. } => {
            add_arms(scope, alloc, arms, &mut near.parts, &mut near.condition)
        }
        Stmt::Case {
            selector,
            branches,
            ..
        } => add_case(scope, alloc, selector, branches, near),
        Stmt::For { head, .. } => add_head(scope, alloc, loops, head, near),
        Stmt::While { cond, .. } | Stmt::Repeat { cond, .. } => {
            add_condition(scope, alloc, cond, &mut near.parts, &mut near.condition)
        }
        Stmt::Exit(place) | Stmt::Continue(place) => {
            near.leave = nearer_of(near.leave, left_place(loops, *place));
            Ok(())
        }
        Stmt::Call(call) => {
            add_call(
                scope,
                alloc,
                loops,
                How::Statement,
                call,
                &mut near.parts,
                &mut near.asks,
            )
        }
        Stmt::Return(_) | Stmt::Empty(_) => Ok(()),
    }
}
