//! The one walk over an expression with all in it, to the nearest place of each thing that is looked for.
//!
//! Each part is looked at once, from the leaves up, and hands up what it is to the operators around it. Whether a literal is
//! outside its type is told where it is known what is wanted of it: by the operator, the function or the index around it.
ghost use Rattle.std.specs.Prelude.{◌≡◌, ◌&&◌, if◌then◌else◌, IfOk, OnOk};
ghost use Rattle.pv_tree.specs.Sorts.{broken};
ghost use Rattle.pv_tree.specs.Types.{sort_of, sort_of_operand, sort_of_thing, is_indexed};
ghost use Rattle.pv_tree.specs.Parts.{parts_of, parts_of_operand};
ghost use Rattle.pv_tree.specs.View.{expr_tree, operand_tree, step_tree};
ghost use Rattle.pv_names.specs.InScope.{scope_of};
ghost use Rattle.pv_names.specs.Sorts.{sort_tree, want_tree};
ghost use Rattle.pv_names.specs.Views.{thing_tree};
ghost use Rattle.pv_rules_expr.specs.Looks.{near_parts};
ghost use Rattle.pv_rules_expr.specs.Near.{near_at};
ghost use Rattle.pv_rules_expr.specs.Walks.{IsAdded, within_place, step_place, operand_place};
ghost use Rattle.pv_rules_expr.specs.declared.search.Look.{Look};

use crate::added::{
    add_arguments, add_binary, add_end, add_function, add_index, add_outside, add_unary,
};
use crate::near::Near;
use crate::search::wants_of;
use pv_names::{Scope, Sort, Thing, Want, dated, is_index, last_behind, root_place, wanted_beside};
use pv_tree::{Expr, Operand, Step};
use std::alloc::{AllocError, Global};

/// Adds the places in an expression, of which this is wanted, and in all in it, and gives what it is to the operators around it.
pub fn look_for_all(
    scope: &Scope,
    alloc: Global,
    want: Want,
    e: &Expr,
    near: &mut Near,
) -> Result<Sort, AllocError>
    ensures sort { IfOk result (λ s. sort_tree s ≡ sort_of (scope_of scope.now) (expr_tree e.now)) }
    ensures near { let scope = scope_of scope.now in OnOk result ((what : Look) → near_at what near.new
        ≡ near_parts what scope (parts_of scope (want_tree want) (expr_tree e.now)) (near_at what near.old)) }
{
    let sort = look_within(scope, alloc, e, near)?;
    add_outside(near, want, e, sort);
    Ok(sort)
}

/// Adds the places in the indexes of an operand, and gives what it is to the operators around it.
pub fn look_in_operand_for_all(
    scope: &Scope,
    alloc: Global,
    operand: &Operand,
    near: &mut Near,
) -> Result<Sort, AllocError>
    ensures sort { IfOk result (λ s. sort_tree s
        ≡ sort_of_operand (scope_of scope.now) (operand_tree operand.now)) }
    ensures near { let scope = scope_of scope.now in OnOk result ((what : Look) → near_at what near.new
        ≡ near_parts what scope (parts_of_operand scope (operand_tree operand.now)) (near_at what near.old)) }
{
    look_along(scope, alloc, operand, false, near)
}

/// Adds the places in an expression, but whether it is itself outside its type.
#[cycle(walking)]
fn look_within(scope: &Scope, alloc: Global, e: &Expr, near: &mut Near) -> Result<Sort, AllocError>
    ensures sort { IfOk result (λ s. sort_tree s ≡ sort_of (scope_of scope.now) (expr_tree e.now)) }
    ensures near { OnOk result (IsAdded (within_place (scope_of scope.now) (expr_tree e.now)) near.old near.new) }
{
    match e {
        Expr::Lit { .. } => scope.sort_of(alloc, e),
        Expr::Read(operand) => look_along(scope, alloc, operand, true, near),
        Expr::Unary { op, place, arg } => {
            let sort = look_within(scope, alloc, arg, near)?;
            Ok(add_unary(near, *op, *place, arg, sort))
        }
        Expr::Binary {
            op,
            place,
            left,
            right,
        } => {
            let one = look_within(scope, alloc, left, near)?;
            let other = look_within(scope, alloc, right, near)?;
            let pair = [one, other];
            let beside = wanted_beside(pair.as_slice());
            add_outside(near, beside, left, one);
            add_outside(near, beside, right, other);
            Ok(add_binary(near, *op, *place, pair.as_slice()))
        }
        Expr::Std {
            function,
            place,
            args,
        } => {
            let mut parts = Vec::new(alloc);
            for arg in args {
                let sort = look_within(scope, alloc, arg, near)?;
                parts.push(sort)?;
            }
            let wants = wants_of(*function, parts.as_slice());
            add_arguments(near, wants, args.as_slice(), parts.as_slice());
            Ok(add_function(near, *function, *place, parts.as_slice()))
        }
        Expr::Paren(_, inner) => look_within(scope, alloc, inner, near),
    }
}

/// Adds the places in the indexes of an operand, and where it is read those of itself.
#[cycle(walking)]
fn look_along(
    scope: &Scope,
    alloc: Global,
    operand: &Operand,
    reads: bool,
    near: &mut Near,
) -> Result<Sort, AllocError>
    ensures sort { IfOk result (λ s. sort_tree s
        ≡ sort_of_operand (scope_of scope.now) (operand_tree operand.now)) }
    ensures near { OnOk result (IsAdded (operand_place reads (scope_of scope.now) (operand_tree operand.now)) near.old near.new) }
{
    let mut thing = scope.root(&operand.root, operand.place);
    let mut last = root_place(&operand.root, operand.place);
    let mut indexed = true;
    for step in &operand.steps {
        thing = dated(last, thing);
        let fits = look_in_step(scope, alloc, thing, step, reads, near)?;
        indexed = both(indexed, fits);
        thing = scope.step(thing, step);
        last = last_behind(last, step);
    }
    let end = dated(last, thing);
    add_end(near, reads, operand, end);
    Ok(sort_of_end(scope, indexed, end))
}

/// Adds the places in a step's index behind a thing, and tells whether it breaks no rule.
#[cycle(walking)]
fn look_in_step<'p>(
    scope: &Scope<'p>,
    alloc: Global,
    thing: Thing<'p>,
    step: &Step,
    reads: bool,
    near: &mut Near,
) -> Result<bool, AllocError>
    ensures fits { IfOk result (λ b. b
        ≡ is_indexed (scope_of scope.now) (thing_tree thing.entry) (step_tree step.now)) }
    ensures near { OnOk result (IsAdded (step_place reads (scope_of scope.now) (thing_tree thing.entry) (step_tree step.now))
        near.old near.new) }
{
    match step {
        Step::Field(..) => Ok(true),
        Step::Index(e, _) => {
            let sort = look_within(scope, alloc, e, near)?;
            add_outside(near, Want::Nothing, e, sort);
            add_index(near, reads, thing, e, sort);
            Ok(is_index(thing, sort))
        }
    }
}

/// What an operand is that means this thing, by whether each of its indexes breaks no rule.
fn sort_of_end(scope: &Scope, indexed: bool, thing: Thing) -> Sort
    ensures { sort_tree result ≡ (if indexed then sort_of_thing (scope_of scope.now) (thing_tree thing.entry) else broken) }
{
    if indexed {
        scope.sort_of_thing(thing)
    } else {
        Sort::Broken
    }
}

fn both(a: bool, b: bool) -> bool
    ensures { result ≡ (a && b) }
{
    a && b
}
