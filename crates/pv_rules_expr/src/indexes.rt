//! Indexes that break a rule, and what an operand that an expression reads misuses on its way.
//!
//! The steps of an operand are gone through from what it begins with; each index is looked at with the thing before it.
ghost use Rattle.std.specs.Prelude.{◌≡◌, ◌&&◌, not, IfOk, map};
ghost use Rattle.pv_tree.specs.LiteralTypes.{nothing, is_whole_number};
ghost use Rattle.pv_tree.specs.Sorts as sorts;
ghost use Rattle.pv_tree.specs.Types as types;
ghost use Rattle.pv_tree.specs.Fits.{is_of_other_type};
ghost use Rattle.pv_tree.specs.Things as things;
ghost use Rattle.pv_tree.specs.Parts as parts;
ghost use Rattle.pv_tree.specs.Rules.PatternRule as pattern;
ghost use Rattle.pv_tree.specs.View.{expr_tree, step_tree, steps_of};
ghost use Rattle.pv_names.specs.InScope.{scope_of};
ghost use Rattle.pv_names.specs.Sorts.{sort_tree};
ghost use Rattle.pv_names.specs.Views.{thing_tree};
ghost use Rattle.pv_rules_expr.specs.Nearest.{nearer_of};
ghost use Rattle.pv_rules_expr.specs.Indexes.{index_place, near_indexes, index_at, misuse_at, misused_at};

use crate::misfit::{is_whole, where_is};
use crate::search::nearer_of;
use pv_names::{
    Scope, Sort, Thing, Want, dated, first_place, is_index_type, is_literal, is_whole_number,
    last_behind, lies_in, own_type, taken,
};
use pv_place::Place;
use pv_tree::{BinaryOp, Expr, Step};
use std::alloc::{AllocError, Global};

/// What is looked for in an index.
#[derive(Clone, Copy)]
pub enum IndexFault {
    /// It is neither INT nor DINT.
    OtherType,
    /// It is a literal beyond the bounds.
    Beyond,
    /// It is no literal.
    Moving,
}

/// Whether a part has a type and that is neither INT nor DINT.
pub(crate) fn is_no_index(sort: Sort) -> bool
    ensures { result ≡ is_of_other_type is_whole_number (sorts.taken nothing (sort_tree sort)) }
{
    let part = taken(Want::Nothing, sort);
    if is_whole(part) {
        return true;
    }
    match own_type(part) {
        Some(ty) => !is_whole_number(ty),
        None => false,
    }
}

/// Whether an index is an INT or a DINT, and a literal beyond the bounds of what it stands behind.
pub(crate) fn is_beyond(thing: Thing, sort: Sort) -> bool
    ensures { result ≡ (types.is_index_type (sorts.own_type (sorts.taken nothing (sort_tree sort)))
        && not (types.lies_in (thing_tree thing.entry) (sort_tree sort))) }
{
    if is_index_type(sort) {
        !lies_in(thing, sort)
    } else {
        false
    }
}

/// The index at what is no array, or the variable of DATE_AND_TIME, that a thing is.
pub(crate) fn misuse_of(thing: Thing) -> Option<Place>
    ensures { result ≡ misuse_at (thing_tree thing.entry) }
{
    match thing {
        Thing::NoArray(at) => Some(at),
        Thing::ADate(at) => Some(at),
        Thing::Part(_) => None,
        Thing::Constant(_) => None,
        Thing::Block(_) => None,
        Thing::NoName(_) => None,
        Thing::Untold => None,
    }
}

/// Whether the operator divides.
pub(crate) fn divides(op: BinaryOp) -> bool
    ensures { result ≡ pattern.divides op }
{
    matches!(op, BinaryOp::Div | BinaryOp::Mod)
}

/// Where an index behind a thing has the fault.
fn index_place<'p>(
    scope: &Scope<'p>,
    alloc: Global,
    what: IndexFault,
    thing: Thing<'p>,
    e: &Expr,
) -> Result<Option<Place>, AllocError>
    ensures { IfOk result (λ o. o ≡ index_place what (scope_of scope.now)
        (record { within = thing_tree thing.entry; index = expr_tree e.now })) }
{
    match what {
        IndexFault::OtherType => {
            let sort = scope.sort_of(alloc, e)?;
            Ok(where_is(is_no_index(sort), first_place(e)))
        }
        IndexFault::Beyond => {
            let sort = scope.sort_of(alloc, e)?;
            Ok(where_is(is_beyond(thing, sort), first_place(e)))
        }
        IndexFault::Moving => Ok(where_is(!is_literal(e), first_place(e))),
    }
}

/// The nearest place, with that of a step that is an index.
fn index_in_step<'p>(
    scope: &Scope<'p>,
    alloc: Global,
    what: IndexFault,
    thing: Thing<'p>,
    step: &Step,
    nearest: Option<Place>,
) -> Result<Option<Place>, AllocError>
    ensures { IfOk result (λ new. new ≡ near_indexes what (scope_of scope.now)
        (parts.indexes_of_step (thing_tree thing.entry) (step_tree step.now)) nearest) }
{
    match step {
        Step::Field(..) => Ok(nearest),
        Step::Index(e, _) => {
            let found = index_place(scope, alloc, what, thing, e)?;
            Ok(nearer_of(nearest, found))
        }
    }
}

/// The nearest of the indexes in steps behind a thing whose last name stands at this place.
pub fn index_behind<'p>(
    scope: &Scope<'p>,
    alloc: Global,
    what: IndexFault,
    from: Thing<'p>,
    name: Place,
    steps: &[Step],
) -> Result<Option<Place>, AllocError>
    ensures { IfOk result (λ o. o ≡ index_at what (scope_of scope.now) (record {
      from = thing_tree
          from.entry;
      last = name;
      more = steps_of (map step_tree steps.now);
    })) }
{
    let mut thing = from;
    let mut last = name;
    let mut best = None;
    for step in steps {
        thing = dated(last, thing);
        best = index_in_step(scope, alloc, what, thing, step, best)?;
        thing = scope.step(thing, step);
        last = last_behind(last, step);
    }
    Ok(best)
}

/// What steps behind a thing lead to.
pub fn thing_behind<'p>(
    scope: &Scope<'p>,
    from: Thing<'p>,
    name: Place,
    steps: &[Step],
) -> Thing<'p>
    ensures { thing_tree result ≡ things.thing_behind (scope_of scope.now) name (thing_tree
        from.entry) (steps_of (map step_tree steps.now)) }
{
    let mut thing = from;
    let mut last = name;
    for step in steps {
        thing = scope.step(dated(last, thing), step);
        last = last_behind(last, step);
    }
    dated(last, thing)
}

/// The nearest place in steps behind a thing of an index at what is no array or of another type, or of a variable of
/// DATE_AND_TIME.
pub fn misused_behind<'p>(
    scope: &Scope<'p>,
    alloc: Global,
    from: Thing<'p>,
    name: Place,
    steps: &[Step],
) -> Result<Option<Place>, AllocError>
    ensures { IfOk result (λ o. o ≡ misused_at (scope_of scope.now) (record {
      from = thing_tree
          from.entry;
      last = name;
      more = steps_of (map step_tree steps.now);
    })) }
{
    let misuse = misuse_of(thing_behind(scope, from, name, steps));
    let index = index_behind(scope, alloc, IndexFault::OtherType, from, name, steps)?;
    Ok(nearer_of(misuse, index))
}
