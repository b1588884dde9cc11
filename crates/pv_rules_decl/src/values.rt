//! The values that data blocks give to their parts: of each thing that is looked for there the nearest place, in one walk.
ghost use Rattle.std.specs.Prelude.{◌≡◌, IfOk, OnOk, None, map};
ghost use Rattle.pv_tree.specs.Parts as parts;
ghost use Rattle.pv_tree.specs.View.{start_tree};
ghost use Rattle.pv_names.specs.InScope.{scope_of};
ghost use Rattle.pv_names.specs.Tables.{project_of};
ghost use Rattle.pv_names.specs.Views.{thing_tree};
ghost use Rattle.pv_rules_expr.specs.Looks.{near_parts};
ghost use Rattle.pv_rules_expr.specs.Near.{near_at};
ghost use Rattle.pv_rules_expr.specs.Nearest.{nearer_of};
ghost use Rattle.pv_rules_expr.specs.declared.search.Look.{Look};
ghost use Rattle.pv_rules_decl.specs.Starts.{misfit_at, is_thing_outside, start_place, near_starts};
ghost use Rattle.pv_rules_decl.specs.StartLook.{StartLook};
ghost use Rattle.pv_rules_decl.specs.StartPieces.{parts_of_starts, place_among, value_in, index_in};
ghost use Rattle.pv_rules_decl.specs.ValueNears.{near_start, AreInValues};

use crate::starts::{is_start_outside, misfits_held, written};
use pv_names::{Scope, Tables, Thing, Want, is_outside, root_place};
use pv_place::Place;
use pv_rules_expr::{
    IndexFault, Near, index_behind, look_in_operand_for_all, misused_behind, name_of_missing,
    nearer_of, nothing_near, thing_behind, where_is,
};
use pv_tree::{Body, Operand, Root};
use pv_types::Literal;
use std::alloc::{AllocError, Global};

/// Of each thing that is looked for in values and in the names of what they are for the nearest place so far.
#[derive(Clone, Copy)]
pub struct StartNear {
    /// A name that isn't there.
    pub missing: Option<Place>,
    /// An index at what is no array or of another type, or a variable of DATE_AND_TIME.
    pub misused: Option<Place>,
    /// A value that doesn't fit.
    pub misfit: Option<Place>,
    /// A value outside its type, or outside that of the part.
    pub outside: Option<Place>,
    /// A literal index beyond the bounds.
    pub beyond: Option<Place>,
}

/// The same with what is looked for in the expressions of the indexes.
#[derive(Clone, Copy)]
pub struct ValueNear {
    pub starts: StartNear,
    pub indexes: Near,
}

/// What the first name of a part of a data block means.
fn start_thing<'p>(scope: &Scope<'p>, root: &Root) -> Thing<'p>
    ensures { thing_tree result ≡ parts.start_thing (scope_of scope.now) root.now }
{
    match root {
        Root::Local { name, place, .. } => scope.field_of_block(scope.entry, name, *place),
        Root::Named(_) => Thing::Untold,
        Root::Area { .. } => Thing::Untold,
    }
}

/// Whether a value for a part of a data block is outside its type.
fn is_outside_thing(thing: Thing, literal: &Literal) -> bool
    ensures { result ≡ is_thing_outside literal.now (thing_tree thing.entry) }
{
    let w = written(literal);
    match thing {
        Thing::Part(ty) => is_start_outside(ty, literal),
        Thing::Constant(_) => is_outside(Want::Unsure, w),
        Thing::Block(_) => is_outside(Want::Unsure, w),
        Thing::NoName(_) => is_outside(Want::Unsure, w),
        Thing::NoArray(_) => is_outside(Want::Unsure, w),
        Thing::ADate(_) => is_outside(Want::Unsure, w),
        Thing::Untold => is_outside(Want::Unsure, w),
    }
}

/// The place where a value doesn't fit the part that it is for.
fn misfit_of_thing(scope: &Scope, thing: Thing, literal: &Literal) -> Option<Place>
    ensures { result ≡ misfit_at (scope_of scope.now) literal.now (thing_tree thing.entry) }
{
    match thing {
        Thing::Part(ty) => where_is(misfits_held(scope, ty, literal), literal.place),
        Thing::Constant(_) => None,
        Thing::Block(_) => None,
        Thing::NoName(_) => None,
        Thing::NoArray(_) => None,
        Thing::ADate(_) => None,
        Thing::Untold => None,
    }
}

/// Where a value that a data block gives to a part breaks each rule.
fn places_of_start(
    scope: &Scope,
    alloc: Global,
    start: &(Operand, Literal),
) -> Result<StartNear, AllocError>
    ensures { IfOk result (λ n. (what : StartLook)
        → near_start what n ≡ start_place what (scope_of scope.now) (start_tree start.now)) }
{
    let operand = &start.0;
    let literal = &start.1;
    let from = start_thing(scope, &operand.root);
    let name = root_place(&operand.root, operand.place);
    let steps = operand.steps.as_slice();
    let thing = thing_behind(scope, from, name, steps);
    let misused = misused_behind(scope, alloc, from, name, steps)?;
    let beyond = index_behind(scope, alloc, IndexFault::Beyond, from, name, steps)?;
    Ok(StartNear {
        missing: name_of_missing(thing),
        misused,
        misfit: misfit_of_thing(scope, thing, literal),
        outside: where_is(is_outside_thing(thing, literal), literal.place),
        beyond,
    })
}

/// Of each thing the nearer of two places.
fn nearer_starts(old: StartNear, found: StartNear) -> StartNear
    ensures { (what : StartLook)
        → near_start what result ≡ nearer_of (near_start what old) (near_start what found) }
{
    StartNear {
        missing: nearer_of(old.missing, found.missing),
        misused: nearer_of(old.misused, found.misused),
        misfit: nearer_of(old.misfit, found.misfit),
        outside: nearer_of(old.outside, found.outside),
        beyond: nearer_of(old.beyond, found.beyond),
    }
}

/// Adds the places of a value that a data block gives to a part.
fn add_start(
    scope: &Scope,
    alloc: Global,
    start: &(Operand, Literal),
    starts: &mut StartNear,
    indexes: &mut Near,
) -> Result<(), AllocError>
    ensures starts { OnOk result ((what : StartLook) → near_start what starts.new
        ≡ nearer_of (near_start what starts.old) (start_place what (scope_of scope.now) (start_tree start.now))) }
    ensures indexes { let scope = scope_of scope.now in OnOk result ((what : Look) → near_at what indexes.new
        ≡ near_parts what scope (parts.parts_of_operand scope (start_tree start.now).0) (near_at what indexes.old)) }
{
    let found = places_of_start(scope, alloc, start)?;
    *starts = nearer_starts(*starts, found);
    look_in_operand_for_all(scope, alloc, &start.0, indexes)?;
    Ok(())
}

/// Adds the places of the values that a data block gives to its parts.
fn add_starts(
    scope: &Scope,
    alloc: Global,
    list: &[(Operand, Literal)],
    starts: &mut StartNear,
    indexes: &mut Near,
) -> Result<(), AllocError>
    ensures starts { OnOk result ((what : StartLook) → near_start what starts.new
        ≡ near_starts what (scope_of scope.now) (map start_tree list.now) (near_start what starts.old)) }
    ensures indexes { let scope = scope_of scope.now in OnOk result ((what : Look) → near_at what indexes.new
        ≡ near_parts what scope (parts_of_starts scope (map start_tree list.now)) (near_at what indexes.old)) }
{
    for start in list {
        add_start(scope, alloc, start, starts, indexes)?;
    }
    Ok(())
}

/// Adds the places of a block.
fn add_block(
    scope: &Scope,
    alloc: Global,
    starts: &mut StartNear,
    indexes: &mut Near,
) -> Result<(), AllocError>
    ensures starts { let scope = scope_of scope.now in OnOk result ((what : StartLook) → near_start what starts.new
        ≡ near_starts what scope (parts.starts_of scope.block.body) (near_start what starts.old)) }
    ensures indexes { let scope = scope_of scope.now in OnOk result ((what : Look) → near_at what indexes.new
        ≡ near_parts what scope (parts_of_starts scope (parts.starts_of scope.block.body)) (near_at what indexes.old)) }
{
    match &scope.entry.block.body {
        Body::Starts(list) => add_starts(scope, alloc, list.as_slice(), starts, indexes),
        Body::Scl(_) | Body::Stl(_) => Ok(()),
    }
}

/// No place of anything yet.
fn no_starts() -> StartNear
    ensures { (what : StartLook) → near_start what result ≡ None }
{
    StartNear {
        missing: None,
        misused: None,
        misfit: None,
        outside: None,
        beyond: None,
    }
}

/// The nearest places in the blocks of a project.
fn near_values<'p>(alloc: Global, tables: &'p Tables<'p>) -> Result<ValueNear, AllocError>
    ensures starts { IfOk result (λ n. (what : StartLook)
        → near_start what n.starts ≡ place_among (value_in what) (project_of tables.now)) }
    ensures indexes { IfOk result (λ n. (what : Look)
        → near_at what n.indexes ≡ place_among (index_in what) (project_of tables.now)) }
{
    let mut starts = no_starts();
    let mut indexes = nothing_near();
    for entry in tables.entries() {
        let scope = Scope { tables, entry };
        add_block(&scope, alloc, &mut starts, &mut indexes)?;
    }
    Ok(ValueNear { starts, indexes })
}

/// Of each thing the least place in the values that the data blocks of a project give to their parts, and in the expressions of their
/// indexes.
pub fn nearest_in_values<'p>(alloc: Global, tables: &'p Tables<'p>) -> Result<ValueNear, AllocError>
    ensures { IfOk result (AreInValues (project_of tables.now)) }
{
    let near = near_values(alloc, tables)?;
    Ok(near)
}
