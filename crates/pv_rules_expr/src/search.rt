//! What is looked for in expressions, and what functions want of their arguments.
ghost use Rattle.std.specs.Prelude.{◌≡◌, Any, IfOk, map};
ghost use Rattle.pv_tree.specs.Sorts as sorts;
ghost use Rattle.pv_tree.specs.declared.expr.StdFunction.TheVariants.{Sel};
ghost use Rattle.pv_tree.specs.Parts.{parts_of};
ghost use Rattle.pv_tree.specs.View.{expr_tree};
ghost use Rattle.pv_tree.specs.Rules.Misfits.{Misapplies};
ghost use Rattle.pv_rules_expr.specs.Nearest.{IsNearest};
ghost use Rattle.pv_names.specs.Sorts.{sort_tree, want_tree};
ghost use Rattle.pv_names.specs.InScope.{scope_of};
ghost use Rattle.pv_rules_expr.specs.Looks.{nearer_of, first_then};

use crate::near::nothing_near;
use crate::nearest::is_before;
use crate::walk::look_for_all;
use pv_names::{Scope, Sort, Want, wanted_beside};
use pv_place::Place;
use pv_tree::{Expr, StdFunction};
use std::alloc::{AllocError, Global};

/// What is looked for in an expression.
#[derive(Clone, Copy)]
pub enum Look {
    /// An operator or a function whose operands don't fit.
    Misapplied,
    /// A literal outside its type.
    Outside,
    /// A name that isn't declared, or a field that is missing.
    Missing,
    /// The name of a function without a value, where a value is read.
    Void,
    /// An address that there isn't.
    Address,
    /// An index at what is no array or of another type, or a variable of DATE_AND_TIME.
    Misused,
    /// A literal index beyond the bounds.
    Beyond,
    /// An index that is no literal.
    Moving,
    /// An operator that divides.
    Divides,
}

/// What a function wants of its first argument, and of each other.
#[derive(Clone, Copy)]
pub(crate) struct Wants {
    pub first: Want,
    pub others: Want,
}

/// The nearer of two places.
pub fn nearer_of(a: Option<Place>, b: Option<Place>) -> Option<Place>
    ensures { result ≡ nearer_of a b }
{
    match (a, b) {
        (None, other) => other,
        (one, None) => one,
        (Some(one), Some(other)) => {
            if is_before(&one, &other) {
                Some(one)
            } else {
                Some(other)
            }
        }
    }
}

/// What a function wants of its arguments.
pub(crate) fn wants_of(function: StdFunction, parts: &[Sort]) -> Wants
    ensures { sorts.wants_of function (map sort_tree parts.now)
        ≡ first_then (want_tree result.first) (want_tree result.others) (map sort_tree parts.now) }
{
    match function {
        StdFunction::Convert(from, _) => same_wants(Want::This(from)),
        StdFunction::Abs => same_wants(Want::Nothing),
        StdFunction::Min => same_wants(wanted_beside(parts)),
        StdFunction::Max => same_wants(wanted_beside(parts)),
        StdFunction::Limit => same_wants(wanted_beside(parts)),
        StdFunction::Sel => choice_wants(parts),
        StdFunction::Shl => same_wants(Want::Nothing),
        StdFunction::Shr => same_wants(Want::Nothing),
    }
}

/// The same of each.
fn same_wants(want: Want) -> Wants
    ensures first { result.first ≡ want }
    ensures others { result.others ≡ want }
{
    Wants {
        first: want,
        others: want,
    }
}

/// What SEL wants.
fn choice_wants(parts: &[Sort]) -> Wants
    ensures { sorts.wants_of Sel (map sort_tree parts.now)
        ≡ first_then (want_tree result.first) (want_tree result.others) (map sort_tree parts.now) }
{
    match parts.split_first() {
        Some((_, more)) => Wants {
            first: Want::Nothing,
            others: wanted_beside(more),
        },
        None => same_wants(Want::Nothing),
    }
}

/// The nearest operator or function in an expression, its indexes included, whose operands don't fit it.
pub fn misapplied_in(
    scope: &Scope,
    alloc: Global,
    want: Want,
    e: &Expr,
) -> Result<Option<Place>, AllocError>
    ensures { let scope = scope_of scope.now in IfOk result (IsNearest
        (λ at. Any (λ p. Misapplies scope at p.expr)
        (parts_of scope (want_tree want) (expr_tree e.now)))) }
{
    let mut near = nothing_near();
    look_for_all(scope, alloc, want, e, &mut near)?;
    Ok(near.misapplied)
}
