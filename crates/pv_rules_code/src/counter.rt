//! What stands before DO in a FOR: where it breaks a rule.
ghost use Rattle.std.specs.Prelude.{◌≡◌, ◌||◌, OnOk, map, option_and_then};
ghost use Rattle.pv_place.specs.declared.place.Place.{Place};
ghost use Rattle.pv_types.specs.View.{type_tree, var_tree, section_of, declared_type_of};
ghost use Rattle.pv_tree.specs.Tree.{StmtTrees, for_};
ghost use Rattle.pv_tree.specs.Scopes.{is_const};
ghost use Rattle.pv_tree.specs.Parts as parts;
ghost use Rattle.pv_tree.specs.Rules.Loops as rule;
ghost use Rattle.pv_tree.specs.View.{expr_tree};
ghost use Rattle.pv_names.specs.InScope.{scope_of};
ghost use Rattle.pv_names.specs.Sorts.{number_value, sort_tree, want_tree};
ghost use Rattle.pv_names.specs.Views.{thing_tree};
ghost use Rattle.pv_rules_expr.specs.Nearest.{nearer_of};
ghost use Rattle.pv_rules_code.specs.Spots.{loop_tree, spot};
ghost use Rattle.pv_rules_code.specs.Sought.Stride.{Wrong, Outside};
ghost use Rattle.pv_rules_code.specs.AtAssignments.{bound_misfits, bound_at};
ghost use Rattle.pv_rules_code.specs.AtLoops.{date_of, count_at, is_outside_type, by_at};
ghost use Rattle.pv_rules_code.specs.Nears.{HasCounts, HasParts, HasSites, HasStrides};
ghost use Rattle.pv_rules_code.specs.Sites.{site_place};

use crate::argument::is_counted;
use crate::around::Loop;
use crate::fit::doesnt_fit;
use crate::near::{CountNear, SiteNear, StrideNear};
use pv_names::{
    Held, Number, Scope, Sort, Thing, Want, Written, dated, first_place, is_const, is_outside,
    is_whole_number, taken, type_of_literal, widens,
};
use pv_place::Place;
use pv_rules_expr::{Near, is_whole, look_for_all, name_of_missing, nearer_of, where_is};
use pv_tree::{Expr, ForHead};
use pv_types::{DeclType, Literal, Name, Var};
use std::alloc::{AllocError, Global};

/// The name of a variable of DATE_AND_TIME that is used.
pub(crate) fn date_of(thing: Thing) -> Option<Place>
    ensures { result ≡ date_of (thing_tree thing.entry) }
{
    match thing {
        Thing::ADate(at) => Some(at),
        Thing::Part(_) => None,
        Thing::Constant(_) => None,
        Thing::Block(_) => None,
        Thing::NoName(_) => None,
        Thing::NoArray(_) => None,
        Thing::Untold => None,
    }
}

/// Whether a word that is no declaration of its block is something else.
fn isnt_named_local(thing: Thing) -> bool
    ensures { result ≡ rule.isnt_named_local (thing_tree thing.entry) }
{
    match thing {
        Thing::NoName(_) => false,
        Thing::Part(_) => true,
        Thing::Constant(_) => true,
        Thing::Block(_) => true,
        Thing::NoArray(_) => true,
        Thing::ADate(_) => true,
        Thing::Untold => true,
    }
}

/// A literal as it is written.
pub(crate) fn written_of(literal: &Literal) -> Written
    ensures ty { result.ty ≡ literal.now.ty }
    ensures value { number_value result.number ≡ literal.now.value }
{
    Written {
        ty: literal.ty,
        number: Number {
            negated: false,
            value: literal.value,
        },
    }
}

/// The place of a literal that is outside the type that it has by what is wanted of it.
pub(crate) fn literal_outside(want: Want, literal: &Literal) -> Option<Place>
    ensures { result ≡ by_at Outside (want_tree want) literal.now }
{
    if is_outside(want, written_of(literal)) {
        Some(literal.place)
    } else {
        None
    }
}

/// Whether a step's type isn't that of the variable.
fn is_outside_type(want: Want, literal: &Literal) -> bool
    ensures { result ≡ is_outside_type (want_tree want) literal.now }
{
    match want {
        Want::This(ty) => !widens(type_of_literal(want, written_of(literal)), ty),
        Want::Nothing => false,
        Want::Unsure => false,
    }
}

/// The place of a step that is zero or outside the variable's type.
fn wrong_step(want: Want, literal: &Literal) -> Option<Place>
    ensures { result ≡ by_at Wrong (want_tree want) literal.now }
{
    if literal.value == 0 || is_outside_type(want, literal) {
        Some(literal.place)
    } else {
        None
    }
}

/// Whether a type isn't INT or DINT.
fn doesnt_count(scope: &Scope, ty: &DeclType) -> bool
    ensures { result ≡ rule.doesnt_count (scope_of scope.now) (type_tree ty.now) }
{
    match ty {
        DeclType::Plain(ty) => !is_whole_number(*ty),
        DeclType::Named(name, _) => scope.find_type(name).is_some(),
        DeclType::Array { .. } => true,
        DeclType::Struct(_) => true,
        DeclType::Unread => true,
    }
}

/// Whether a declaration is a constant, or no INT or DINT.
fn isnt_counting(scope: &Scope, var: Var) -> bool
    ensures { let v = var_tree var.entry in result ≡ (is_const (section_of v)
        || rule.doesnt_count (scope_of scope.now) (declared_type_of v)) }
{
    is_const(var.of.section) || doesnt_count(scope, &var.of.ty)
}

/// Whether a word isn't a local INT or DINT.
fn isnt_counter(scope: &Scope, name: &Name, place: Place) -> bool
    ensures { result ≡ rule.isnt_counter (scope_of scope.now) name.now.key place }
{
    match scope.entry.find(name) {
        Some(var) => isnt_counting(scope, var),
        None => isnt_named_local(scope.word(name, false, place)),
    }
}

/// The nearest places, with those of the variable of a FOR.
fn add_counter(scope: &Scope, loops: &[Loop], name: &Name, place: Place, counts: &mut CountNear)
    ensures { HasCounts (λ what. count_at what (scope_of scope.now) (map loop_tree loops.now)
        (name.now, place)) counts.old counts.new }
{
    let thing = scope.word(name, false, place);
    let other = where_is(isnt_counter(scope, name, place), place);
    let inner = where_is(is_counted(loops, name), place);
    counts.missing = nearer_of(counts.missing, name_of_missing(thing));
    counts.date = nearer_of(counts.date, date_of(dated(place, thing)));
    counts.other = nearer_of(counts.other, other);
    counts.inner = nearer_of(counts.inner, inner);
}

/// The nearest places, with those of the step of a FOR, if there is one.
fn add_step(want: Want, by: &Option<Literal>, strides: &mut StrideNear)
    ensures { HasStrides (λ what. option_and_then (by_at what (want_tree want)) by.now)
        strides.old strides.new }
{
    match by {
        Some(literal) => {
            strides.wrong = nearer_of(strides.wrong, wrong_step(want, literal));
            strides.outside = nearer_of(strides.outside, literal_outside(want, literal));
        }
        None => {}
    }
}

/// What a FOR wants of its start, its end and its step: its variable's type.
fn want_of_counter(scope: &Scope, name: &Name, place: Place) -> Want
    ensures { want_tree result ≡ parts.want_of_counter (scope_of scope.now) name.now place }
{
    match scope.word(name, false, place) {
        Thing::Part(Held::Plain(ty)) => {
            if is_whole_number(ty) {
                Want::This(ty)
            } else {
                Want::Unsure
            }
        }
        _ => Want::Unsure,
    }
}

/// Whether a start or an end of this sort doesn't fit the variable of its FOR.
fn bound_misfits(want: Want, sort: Sort) -> bool
    ensures { result ≡ bound_misfits (want_tree want) (sort_tree sort) }
{
    match want {
        Want::This(ty) => doesnt_fit(Sort::One(ty), taken(want, sort)),
        Want::Nothing => is_whole(sort),
        Want::Unsure => is_whole(sort),
    }
}

/// The nearest places, with those of a start or an end of a FOR.
fn add_bound(
    scope: &Scope,
    alloc: Global,
    want: Want,
    e: &Expr,
    near: &mut Near,
    misfit: &mut Option<Place>,
) -> Result<(), AllocError>
    ensures parts { OnOk result (HasParts (scope_of scope.now) (parts.parts_of (scope_of scope.now)
        (want_tree want) (expr_tree e.now)) near.old near.new) }
    ensures misfit { OnOk result (misfit.new ≡ nearer_of misfit.old
        (bound_at (scope_of scope.now) (want_tree want) (expr_tree e.now))) }
{
    let sort = look_for_all(scope, alloc, want, e, near)?;
    let found = where_is(bound_misfits(want, sort), first_place(e));
    *misfit = nearer_of(*misfit, found);
    Ok(())
}

/// The nearest places, with those of what stands before DO in a FOR.
pub(crate) fn add_head(
    scope: &Scope,
    alloc: Global,
    loops: &[Loop],
    head: &ForHead,
    near: &mut SiteNear,
) -> Result<(), AllocError>
    ensures { (body : StmtTrees) (place : Place) → OnOk result (HasSites (λ what. site_place what
        (scope_of scope.now) (spot (map loop_tree loops.now) (for_ head.now.var head.now.var_place
        (expr_tree head.now.first) (expr_tree head.now.last) head.now.by body place)))
        near.old near.new) }
{
    let want = want_of_counter(scope, &head.var, head.var_place);
    add_bound(
        scope,
        alloc,
        want,
        &head.first,
        &mut near.parts,
        &mut near.misfit,
    )?;
    add_bound(
        scope,
        alloc,
        want,
        &head.last,
        &mut near.parts,
        &mut near.misfit,
    )?;
    add_counter(scope, loops, &head.var, head.var_place, &mut near.counts);
    add_step(want, &head.by, &mut near.strides);
    Ok(())
}
