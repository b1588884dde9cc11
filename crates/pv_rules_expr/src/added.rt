//! What one part of an expression adds to the nearest places, by what the parts in it are.
ghost use Rattle.std.specs.Prelude.{◌≡◌, ◌∷◌, [], map, is_some, option_map};
ghost use Rattle.pv_tree.specs.Tree.{ExprTree, ExprTrees, binary, std, unary};
ghost use Rattle.pv_tree.specs.Scopes as scopes;
ghost use Rattle.pv_tree.specs.Types.{sort_of, sorts_of, literal_of};
ghost use Rattle.pv_tree.specs.View.{expr_tree, operand_tree};
ghost use Rattle.pv_names.specs.Literals.{written_of};
ghost use Rattle.pv_names.specs.Sorts.{sort_tree, want_tree};
ghost use Rattle.pv_names.specs.Views.{thing_tree};
ghost use Rattle.pv_names.specs.Written.{written_tree};
ghost use Rattle.pv_rules_expr.specs.Places.{is_written_outside};
ghost use Rattle.pv_rules_expr.specs.Walks.{IsAdded, AreWritten, own_place, outside_place, unary_place, args_outside, fault_place, end_place, place_if};

use crate::indexes::{divides, is_beyond, is_no_index, misuse_of};
use crate::misfit::{misfits, misfits_unary, value_of_binary};
use crate::near::{Near, add, add_where};
use crate::operand::{name_of_missing, void_name, wrong_address};
use crate::search::Wants;
use pv_names::{
    Sort, Thing, Want, Written, first_place, is_outside, one_of, result_of_function, unary_sort,
};
use pv_place::Place;
use pv_tree::{BinaryOp, Expr, Operand, StdFunction, UnaryOp};

/// The literal that a part is.
fn written_of(sort: Sort) -> Option<Written>
    ensures { option_map written_tree result ≡ written_of (sort_tree sort) }
{
    match sort {
        Sort::Untyped(number) => Some(Written { ty: None, number }),
        Sort::Typed(ty, number) => Some(Written {
            ty: Some(ty),
            number,
        }),
        Sort::One(_) | Sort::Whole | Sort::Broken => None,
    }
}

/// Whether a part is a literal.
fn is_written(sort: Sort) -> bool
    ensures { result ≡ is_some (written_of (sort_tree sort)) }
{
    match sort {
        Sort::Untyped(_) | Sort::Typed(..) => true,
        Sort::One(_) | Sort::Whole | Sort::Broken => false,
    }
}

/// Whether a part is a literal outside its type, by what is wanted of it.
fn is_written_outside(want: Want, sort: Sort) -> bool
    ensures { result ≡ is_written_outside (want_tree want) (written_of (sort_tree sort)) }
{
    match written_of(sort) {
        Some(w) => is_outside(want, w),
        None => false,
    }
}

/// Adds an expression that is a literal outside its type.
pub(crate) fn add_outside(near: &mut Near, want: Want, e: &Expr, sort: Sort)
    ensures { written_of (sort_tree sort) ≡ literal_of (expr_tree e.now)
        → IsAdded (outside_place (want_tree want) (expr_tree e.now)) near.old near.new }
{
    if is_written_outside(want, sort) {
        add(&mut near.outside, Some(first_place(e)));
    }
}

/// Adds an operator before its operand, which doesn't fit it, and the operand where it is a literal outside its type; gives what
/// the operator makes of it.
pub(crate) fn add_unary(near: &mut Near, op: UnaryOp, place: Place, arg: &Expr, sort: Sort) -> Sort
    ensures sort { (scope : scopes.Scope) → sort_tree sort ≡ sort_of scope (expr_tree arg.now)
        → sort_tree result ≡ sort_of scope (unary op place (expr_tree arg.now)) }
    ensures near { (scope : scopes.Scope) → sort_tree sort ≡ sort_of scope (expr_tree arg.now)
        → IsAdded (unary_place scope op place (expr_tree arg.now)) near.old near.new }
{
    let own = unary_sort(op, sort);
    if !is_written(own) {
        add_outside(near, Want::Nothing, arg, sort);
        add_where(&mut near.misapplied, misfits_unary(op, sort), place);
    }
    own
}

/// Adds an operator between its operands, where they don't fit it and where it divides; gives what it makes of them.
pub(crate) fn add_binary(near: &mut Near, op: BinaryOp, place: Place, pair: &[Sort]) -> Sort
    ensures sort { (scope : scopes.Scope) (l r : ExprTree) → map sort_tree pair.now ≡ sort_of scope l ∷ sort_of scope r ∷ []
        → sort_tree result ≡ sort_of scope (binary op place l r) }
    ensures near { (scope : scopes.Scope) (l r : ExprTree) → map sort_tree pair.now ≡ sort_of scope l ∷ sort_of scope r ∷ []
        → IsAdded (own_place scope (binary op place l r)) near.old near.new }
{
    let ty = value_of_binary(op, pair);
    add_where(&mut near.misapplied, misfits(ty, pair), place);
    add_where(&mut near.divides, divides(op), place);
    one_of(ty)
}

/// Adds the arguments that are literals outside their types.
pub(crate) fn add_arguments(near: &mut Near, wants: Wants, args: &[Expr], parts: &[Sort])
    ensures { AreWritten parts.now args.now
        → IsAdded (args_outside (want_tree wants.first) (want_tree wants.others) (map expr_tree args.now)) near.old near.new }
{
    let mut next = wants.first;
    let mut rest = parts;
    for arg in args {
        let Some((part, more)) = rest.split_first() else {
            return;
        };
        add_outside(near, next, arg, *part);
        next = wants.others;
        rest = more;
    }
}

/// Adds a function whose arguments don't fit it; gives what it makes of them.
pub(crate) fn add_function(
    near: &mut Near,
    function: StdFunction,
    place: Place,
    parts: &[Sort],
) -> Sort
    ensures sort { (scope : scopes.Scope) (args : ExprTrees) → map sort_tree parts.now ≡ sorts_of scope args
        → sort_tree result ≡ sort_of scope (std function place args) }
    ensures near { (scope : scopes.Scope) (args : ExprTrees) → map sort_tree parts.now ≡ sorts_of scope args
        → IsAdded (own_place scope (std function place args)) near.old near.new }
{
    let ty = result_of_function(function, parts);
    add_where(&mut near.misapplied, misfits(ty, parts), place);
    one_of(ty)
}

/// Adds an index behind a thing, of an operand that is read.
pub(crate) fn add_index(near: &mut Near, reads: bool, thing: Thing, e: &Expr, sort: Sort)
    ensures { (scope : scopes.Scope) → sort_tree sort ≡ sort_of scope (expr_tree e.now)
        → IsAdded (place_if reads (fault_place scope (record { within = thing_tree thing.entry; index = expr_tree e.now })))
        near.old near.new }
{
    if reads {
        add_faults(near, thing, e, sort);
    }
}

/// Adds an index behind a thing.
fn add_faults(near: &mut Near, thing: Thing, e: &Expr, sort: Sort)
    ensures { (scope : scopes.Scope) → sort_tree sort ≡ sort_of scope (expr_tree e.now)
        → IsAdded (fault_place scope (record { within = thing_tree thing.entry; index = expr_tree e.now })) near.old near.new }
{
    let place = first_place(e);
    add_where(&mut near.misused, is_no_index(sort), place);
    add_where(&mut near.beyond, is_beyond(thing, sort), place);
    add_where(&mut near.moving, !is_written(sort), place);
}

/// Adds an operand that means this thing, where it is read.
pub(crate) fn add_end(near: &mut Near, reads: bool, operand: &Operand, thing: Thing)
    ensures { IsAdded (place_if reads (end_place (operand_tree operand.now) (thing_tree thing.entry))) near.old near.new }
{
    if reads {
        add_read(near, operand, thing);
    }
}

/// Adds an operand that is read and means this thing.
fn add_read(near: &mut Near, operand: &Operand, thing: Thing)
    ensures { IsAdded (end_place (operand_tree operand.now) (thing_tree thing.entry)) near.old near.new }
{
    add(&mut near.missing, name_of_missing(thing));
    add(&mut near.void, void_name(thing, operand));
    add(&mut near.address, wrong_address(operand));
    add(&mut near.misused, misuse_of(thing));
}
