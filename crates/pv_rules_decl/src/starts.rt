//! Start values of declarations.
ghost use Rattle.std.specs.Prelude.{◌≡◌, flat_map, false, Option};
ghost use Rattle.pv_place.specs.declared.place.Place.{Place};
ghost use Rattle.pv_rules_expr.specs.Nearest.{nearer_of};
ghost use Rattle.pv_types.specs.View.{vars_tree};
ghost use Rattle.pv_tree.specs.Fits as fits;
ghost use Rattle.pv_tree.specs.Rules.Misfits.{start_misfits_type};
ghost use Rattle.pv_tree.specs.Rules.OutOfRange as range;
ghost use Rattle.pv_names.specs.InScope.{scope_of};
ghost use Rattle.pv_names.specs.Views.{held_tree};
ghost use Rattle.pv_rules_decl.specs.Starts.{near_vars};

use pv_names::{
    Held, Number, Scope, Want, Written, holds, is_outside, is_whole_number, level_of,
    type_of_literal, widens,
};
use pv_place::Place;
use pv_rules_expr::{nearer_of, where_is};
use pv_types::{Literal, Vars};
use pv_word::Ty;

/// A literal as it is written.
pub(crate) fn written(literal: &Literal) -> Written
    ensures ty { result.ty ≡ literal.now.ty }
    ensures value { result.number.value ≡ literal.now.value }
    ensures plain { result.number.negated ≡ false }
{
    Written {
        ty: literal.ty,
        number: Number {
            negated: false,
            value: literal.value,
        },
    }
}

/// Whether a start value doesn't fit its type; where an INT or DINT doesn't hold the value, that is the one fault.
fn misfits_type(ty: Ty, literal: &Literal) -> bool
    ensures { result ≡ fits.start_misfits ty literal.now }
{
    let w = written(literal);
    if widens(type_of_literal(Want::This(ty), w), ty) {
        return false;
    }
    !(is_whole_number(ty) && !holds(ty, w.number))
}

/// Whether a value is outside its own type, or outside that of what it is for.
pub(crate) fn is_start_outside(ty: Held, literal: &Literal) -> bool
    ensures { result ≡ range.start_is_outside (held_tree ty.entry) literal.now }
{
    let w = written(literal);
    match ty {
        Held::Plain(ty) => is_outside(Want::This(ty), w) || !holds(ty, w.number),
        Held::Array { .. } => is_outside(Want::Unsure, w),
        Held::Struct(_) => is_outside(Want::Unsure, w),
        Held::Named(..) => is_outside(Want::Unsure, w),
        Held::Unread => is_outside(Want::Unsure, w),
    }
}

/// The place of the start value of variables that are declared at once, if it is outside its type.
fn outside_start(of: &Vars) -> Option<Place>
    ensures { (nearest : Option Place)
        → near_vars range.start_is_outside (vars_tree of.now) nearest ≡ nearer_of nearest result }
{
    if of.names.is_empty() {
        return None;
    }
    match &of.start {
        Some(literal) => where_is(is_start_outside(level_of(&of.ty), literal), literal.place),
        None => None,
    }
}

/// The nearest start value that is outside its type.
pub(crate) fn outside_starts(vars: &[&Vars], nearest: Option<Place>) -> Option<Place>
    ensures { result ≡ near_vars range.start_is_outside (flat_map (λ v. vars_tree v.now) vars.now) nearest }
{
    let mut best = nearest;
    for of in vars {
        best = nearer_of(best, outside_start(*of));
    }
    best
}

/// Whether a start value doesn't fit a type; arrays, structures and named types take none.
pub(crate) fn misfits_held(scope: &Scope, ty: Held, literal: &Literal) -> bool
    ensures { result ≡ start_misfits_type (scope_of scope.now) (held_tree ty.entry) literal.now }
{
    match ty {
        Held::Plain(ty) => misfits_type(ty, literal),
        Held::Array { .. } => true,
        Held::Struct(_) => true,
        Held::Named(name, _) => match scope.find_type(name) {
            Some(_) => true,
            None => false,
        },
        Held::Unread => true,
    }
}

/// The place of the start value of variables that are declared at once, if it doesn't fit.
fn misfit_start(scope: &Scope, of: &Vars) -> Option<Place>
    ensures { (nearest : Option Place)
        → near_vars (start_misfits_type (scope_of scope.now)) (vars_tree of.now) nearest
        ≡ nearer_of nearest result }
{
    if of.names.is_empty() {
        return None;
    }
    match &of.start {
        Some(literal) => where_is(
            misfits_held(scope, level_of(&of.ty), literal),
            literal.place,
        ),
        None => None,
    }
}

/// The nearest start value that doesn't fit.
pub(crate) fn misfit_starts(scope: &Scope, vars: &[&Vars], nearest: Option<Place>) -> Option<Place>
    ensures { result ≡ near_vars (start_misfits_type (scope_of scope.now))
        (flat_map (λ v. vars_tree v.now) vars.now) nearest }
{
    let mut best = nearest;
    for of in vars {
        best = nearer_of(best, misfit_start(scope, *of));
    }
    best
}
