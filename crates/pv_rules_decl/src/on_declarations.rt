//! The rules on declarations, over the blocks of a project: each gives the least place at which it is broken.
ghost use Rattle.std.specs.Prelude.{◌≡◌, map, IfOk, Any};
ghost use Rattle.pv_place.specs.declared.place.Place.{Place};
ghost use Rattle.pv_types.specs.View.{type_tree, var_trees};
ghost use Rattle.pv_tree.specs.View.{block_tree};
ghost use Rattle.pv_tree.specs.Scopes.{ProjectTree};
ghost use Rattle.pv_tree.specs.Interfaces.{names_of_vars, IsLater};
ghost use Rattle.pv_tree.specs.Rules.Arrays.{IsWrongArray};
ghost use Rattle.pv_tree.specs.Rules.Misfits.{MisplacesDate};
ghost use Rattle.pv_tree.specs.Rules.DoubledNames.{DoublesField, IsDoubledName};
ghost use Rattle.pv_rules_expr.specs.Members.{HasSome};
ghost use Rattle.pv_rules_expr.specs.Nearest.{Nears, IsNearest};
ghost use Rattle.pv_rules_decl.specs.BlockLists.{HasWrongArrayIn, MisplacesDateIn, DoublesNameIn};

use crate::declarations::{misplaced_dates, wrong_arrays};
use crate::doubled::{doubled_blocks, doubled_vars};
use crate::gathered::Gathered;
use pv_place::Place;
use pv_tree::Block;
use pv_types::{DeclType, Vars};
use std::alloc::{AllocError, Global};

/// Looks at a block for arrays that can't be laid out.
fn wrong_arrays_of(
    alloc: Global,
    block: &Block,
    nearest: Option<Place>,
) -> Result<Option<Place>, AllocError>
    ensures { IfOk result (λ r. Nears (λ at. HasWrongArrayIn at (block_tree block.now)) nearest r) }
{
    let gathered = Gathered::of(alloc, block.interface.vars.as_slice())?;
    Ok(wrong_arrays(gathered.types.as_slice(), nearest))
}

/// The least place of an array that can't be laid out.
pub fn wrong_array(alloc: Global, blocks: &[Block]) -> Result<Option<Place>, AllocError>
    ensures { (project : ProjectTree) → project.blocks ≡ map block_tree blocks.now
        → IfOk result (λ r. IsNearest (IsWrongArray project) r) }
{
    let mut nearest = None;
    for block in blocks {
        nearest = wrong_arrays_of(alloc, block, nearest)?;
    }
    Ok(nearest)
}

/// Looks at a block for variables of DATE_AND_TIME that may not stand there.
fn misplaced_dates_of(
    alloc: Global,
    block: &Block,
    nearest: Option<Place>,
) -> Result<Option<Place>, AllocError>
    ensures { IfOk result (λ r. Nears (λ at. MisplacesDateIn at (block_tree block.now)) nearest r) }
{
    let gathered = Gathered::of(alloc, block.interface.vars.as_slice())?;
    Ok(misplaced_dates(&block.kind, gathered.vars.as_slice(), nearest))
}

/// The least place of a variable of DATE_AND_TIME that may not stand there, which is a misfit.
pub fn misplaced_date(alloc: Global, blocks: &[Block]) -> Result<Option<Place>, AllocError>
    ensures { (project : ProjectTree) → project.blocks ≡ map block_tree blocks.now
        → IfOk result (λ r. IsNearest (λ at. Any (MisplacesDate at) project.blocks) r) }
{
    let mut nearest = None;
    for block in blocks {
        nearest = misplaced_dates_of(alloc, block, nearest)?;
    }
    Ok(nearest)
}

/// Looks at variables that are declared together.
fn later_vars(
    alloc: Global,
    vars: &[Vars],
    nearest: Option<Place>,
) -> Result<Option<Place>, AllocError>
    ensures { IfOk result (λ r. Nears (λ at. IsLater (names_of_vars (var_trees vars.now)) at) nearest r) }
{
    doubled_vars(alloc, vars, nearest)
}

/// Looks at a type for fields of one name.
fn later_fields(
    alloc: Global,
    ty: &DeclType,
    nearest: Option<Place>,
) -> Result<Option<Place>, AllocError>
    ensures { IfOk result (λ r. Nears (λ at. DoublesField at (type_tree ty.now)) nearest r) }
{
    match ty {
        DeclType::Struct(vars) => later_vars(alloc, vars.as_slice(), nearest),
        DeclType::Plain(_) | DeclType::Array { .. } | DeclType::Named(_, _) | DeclType::Unread => {
            Ok(nearest)
        }
    }
}

/// Looks at types.
fn later_fields_in(
    alloc: Global,
    types: &[&DeclType],
    nearest: Option<Place>,
) -> Result<Option<Place>, AllocError>
    ensures { IfOk result (λ r. Nears (λ at. HasSome (DoublesField at) (map (λ t. type_tree t.now) types.now)) nearest r) }
{
    let mut nearest = nearest;
    for ty in types {
        nearest = later_fields(alloc, *ty, nearest)?;
    }
    Ok(nearest)
}

/// Looks at a block for variables or fields of one name.
fn doubled_names_of(
    alloc: Global,
    block: &Block,
    nearest: Option<Place>,
) -> Result<Option<Place>, AllocError>
    ensures { IfOk result (λ r. Nears (λ at. DoublesNameIn at (block_tree block.now)) nearest r) }
{
    let vars = block.interface.vars.as_slice();
    let gathered = Gathered::of(alloc, vars)?;
    let nearest = later_vars(alloc, vars, nearest)?;
    later_fields_in(alloc, gathered.types.as_slice(), nearest)
}

/// The least place of a name that is declared twice.
pub fn doubled_name(alloc: Global, blocks: &[Block]) -> Result<Option<Place>, AllocError>
    ensures { (project : ProjectTree) → project.blocks ≡ map block_tree blocks.now
        → IfOk result (λ r. IsNearest (IsDoubledName project) r) }
{
    let mut nearest = doubled_blocks(alloc, blocks, None)?;
    for block in blocks {
        nearest = doubled_names_of(alloc, block, nearest)?;
    }
    Ok(nearest)
}
