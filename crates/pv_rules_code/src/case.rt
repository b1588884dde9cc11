//! The selector and the values of a CASE: where one breaks a rule.
ghost use Rattle.std.specs.Prelude.{◌≡◌, ◌∷◌, List, OnOk, map, option_to_list};
ghost use Rattle.pv_place.specs.declared.place.Place.{Place};
ghost use Rattle.pv_tree.specs.Tree.{ElseTree, case_};
ghost use Rattle.pv_tree.specs.LiteralTypes as literals;
ghost use Rattle.pv_tree.specs.Fits as fits;
ghost use Rattle.pv_tree.specs.Sorts as sorts;
ghost use Rattle.pv_tree.specs.Parts.{Loop};
ghost use Rattle.pv_tree.specs.Rules.MissingNames.{values_of_choices, values_of_branches};
ghost use Rattle.pv_tree.specs.declared.stmt.Choice.TheVariants.{Const};
ghost use Rattle.pv_tree.specs.Rules.OutOfRange as range;
ghost use Rattle.pv_tree.specs.View.{branches_of, expr_tree, stmt_trees};
ghost use Rattle.pv_names.specs.InScope.{scope_of};
ghost use Rattle.pv_names.specs.Sorts.{sort_tree, want_tree};
ghost use Rattle.pv_names.specs.Views.{thing_tree};
ghost use Rattle.pv_rules_code.specs.AtCases.{rank, same_type, is_other_type, is_no_constant, literal_at, value_at};
ghost use Rattle.pv_rules_code.specs.Nears.{HasPicks, HasPicksIn, HasSites};
ghost use Rattle.pv_rules_code.specs.Sites.{site_place};
ghost use Rattle.pv_rules_code.specs.Spots.{spot};

use crate::counter::{date_of, literal_outside, written_of};
use crate::near::{PickNear, SiteNear};
use pv_names::{
    Held, Scope, Sort, Thing, Want, dated, first_place, is_whole_number, own_type, taken,
    type_of_literal,
};
use pv_place::Place;
use pv_rules_expr::{is_whole, look_for_all, name_of_missing, nearer_of, where_is};
use pv_tree::{Choice, ChoiceRange, Expr, Stmt};
use pv_types::{Literal, Name};
use pv_word::Ty;
use std::alloc::{AllocError, Global};

/// The types by number.
fn rank(ty: Ty) -> u8
    ensures { result ≡ rank ty }
{
    match ty {
        Ty::Bool => 0,
        Ty::Byte => 1,
        Ty::Word => 2,
        Ty::Dword => 3,
        Ty::Int => 4,
        Ty::Dint => 5,
        Ty::Time => 6,
    }
}

/// Whether two types are the same.
fn same_type(a: Ty, b: Ty) -> bool
    ensures { result ≡ same_type a b }
{
    rank(a) == rank(b)
}

/// Whether a type is another than the one that is wanted, where that is known.
fn is_other_type(want: Want, other: Ty) -> bool
    ensures { result ≡ is_other_type (want_tree want) other }
{
    match want {
        Want::This(ty) => !same_type(other, ty),
        Want::Nothing => false,
        Want::Unsure => false,
    }
}

/// Whether a word isn't a constant of the wanted type; one that isn't declared breaks another rule.
fn is_no_constant(want: Want, thing: Thing) -> bool
    ensures { result ≡ is_no_constant (want_tree want) (thing_tree thing.entry) }
{
    match thing {
        Thing::Constant(Held::Plain(ty)) => is_other_type(want, ty),
        Thing::NoName(_) => false,
        _ => true,
    }
}

/// Whether a part is whole or of another type than INT and DINT.
fn isnt_whole_number(sort: Sort) -> bool
    ensures { result ≡ fits.is_of_other_type literals.is_whole_number (sort_tree sort) }
{
    if is_whole(sort) {
        return true;
    }
    match own_type(sort) {
        Some(ty) => !is_whole_number(ty),
        None => false,
    }
}

/// The nearest places, with those of a literal among the values.
fn add_literal(want: Want, literal: &Literal, picks: &mut PickNear)
    ensures { HasPicks (λ what. literal_at what (want_tree want) literal.now) picks.old picks.new }
{
    let ty = type_of_literal(want, written_of(literal));
    let other = where_is(is_other_type(want, ty), literal.place);
    picks.outside = nearer_of(picks.outside, literal_outside(want, literal));
    picks.other = nearer_of(picks.other, other);
}

/// The nearest places, with those of a constant among the values.
fn add_const(scope: &Scope, want: Want, name: &Name, place: Place, picks: &mut PickNear)
    ensures { HasPicks (λ what. value_at what (scope_of scope.now) (want_tree want)
        (Const name.now place)) picks.old picks.new }
{
    let thing = scope.word(name, false, place);
    picks.missing = nearer_of(picks.missing, name_of_missing(thing));
    picks.date = nearer_of(picks.date, date_of(dated(place, thing)));
    picks.other = nearer_of(picks.other, where_is(is_no_constant(want, thing), place));
}

/// The nearest places, with those of a value.
fn add_value(scope: &Scope, want: Want, choice: &Choice, picks: &mut PickNear)
    ensures { HasPicks (λ what. value_at what (scope_of scope.now) (want_tree want) choice.now)
        picks.old picks.new }
{
    match choice {
        Choice::Lit(literal) => add_literal(want, literal, picks),
        Choice::Const(name, place) => add_const(scope, want, name, *place, picks),
    }
}

/// The nearest places, with those of a value or of both ends of a range.
fn add_range(scope: &Scope, want: Want, range: &ChoiceRange, picks: &mut PickNear)
    ensures { HasPicksIn (λ what. value_at what (scope_of scope.now) (want_tree want))
        (range.now.0 ∷ option_to_list range.now.1) picks.old picks.new }
{
    add_value(scope, want, range.lower(), picks);
    match range.upper() {
        Some(high) => add_value(scope, want, high, picks),
        None => {}
    }
}

/// The nearest places, with those of the values of a branch.
fn add_choices(scope: &Scope, want: Want, choices: &[ChoiceRange], picks: &mut PickNear)
    ensures { HasPicksIn (λ what. value_at what (scope_of scope.now) (want_tree want))
        (values_of_choices choices.now) picks.old picks.new }
{
    for choice in choices {
        add_range(scope, want, choice, picks);
    }
}

/// The nearest places, with those of the values of all branches.
fn add_branches(
    scope: &Scope,
    want: Want,
    branches: &Vec<(Vec<ChoiceRange>, Vec<Stmt>)>,
    picks: &mut PickNear,
)
    ensures { HasPicksIn (λ what. value_at what (scope_of scope.now) (want_tree want))
        (values_of_branches (branches_of (map (λ b. (b.0.items, stmt_trees b.1.items))
        branches.now.items))) picks.old picks.new }
{
    for branch in branches {
        add_choices(scope, want, branch.0.as_slice(), picks);
    }
}

/// What the values of a CASE are to be, by the sort of its selector: of its type.
fn want_of_selector(sort: Sort) -> Want
    ensures { want_tree result ≡ range.want_of_type_where (sorts.own_type
        (sorts.taken literals.nothing (sort_tree sort))) }
{
    match own_type(taken(Want::Nothing, sort)) {
        Some(ty) => {
            if is_whole_number(ty) {
                Want::This(ty)
            } else {
                Want::Unsure
            }
        }
        None => Want::Unsure,
    }
}

/// The nearest places, with those of a CASE.
pub(crate) fn add_case(
    scope: &Scope,
    alloc: Global,
    selector: &Expr,
    branches: &Vec<(Vec<ChoiceRange>, Vec<Stmt>)>,
    near: &mut SiteNear,
) -> Result<(), AllocError>
    ensures { (loops : List Loop) (other : ElseTree) (place : Place) → OnOk result (HasSites
        (λ what. site_place what (scope_of scope.now) (spot loops (case_ (expr_tree selector.now)
        (branches_of (map (λ b. (b.0.items, stmt_trees b.1.items)) branches.now.items))
        other place))) near.old near.new) }
{
    let sort = look_for_all(scope, alloc, Want::Nothing, selector, &mut near.parts)?;
    let isnt = isnt_whole_number(taken(Want::Nothing, sort));
    near.selector = nearer_of(near.selector, where_is(isnt, first_place(selector)));
    add_branches(scope, want_of_selector(sort), branches, &mut near.picks);
    Ok(())
}
