//! Copies of declarations: a data block is laid out as the one variable that it is, which takes its fields with it.
ghost use Rattle.std.specs.Prelude.{◌≡◌, ◌∷◌, [], Some, None, IfOk, option_map, if◌then◌else◌};
ghost use Rattle.pv_types.specs.View.{type_tree, vars_tree, var_trees};
ghost use Rattle.pv_tree.specs.View.{block_tree};
ghost use Rattle.pv_mean.specs.Layout.{is_db, data_type};
ghost use Rattle.pv_cells.specs.Starts.{data_var};

use pv_place::Place;
use pv_tree::{Block, BlockKind};
use pv_types::{DeclType, Name, Section, Vars};
use std::alloc::{AllocError, Global};

/// A copy of a type.
#[cycle(copying)]
fn copied_type(alloc: Global, ty: &DeclType) -> Result<DeclType, AllocError>
    ensures { IfOk result (λ copy. type_tree copy ≡ type_tree ty.now) }
{
    match ty {
        DeclType::Plain(ty) => Ok(DeclType::Plain(*ty)),
        DeclType::Array {
            low,
            high,
            of,
            place,
        } => {
            let inner = copied_type(alloc, of)?;
            Ok(DeclType::Array {
                low: *low,
                high: *high,
                of: Box::new(alloc, inner)?,
                place: *place,
            })
        }
        DeclType::Struct(vars) => Ok(DeclType::Struct(copied_vars(alloc, vars.as_slice())?)),
        DeclType::Named(name, place) => Ok(DeclType::Named(name.clone()?, *place)),
        DeclType::Unread => Ok(DeclType::Unread),
    }
}

/// Copies of names with their places.
fn copied_names(alloc: Global, names: &[(Name, Place)]) -> Result<Vec<(Name, Place)>, AllocError>
    ensures { IfOk result (λ copies. copies.items ≡ names.now) }
{
    let mut copies = Vec::with_capacity(alloc, names.len())?;
    for word in names {
        copies.push((word.0.clone()?, word.1))?;
    }
    Ok(copies)
}

/// A copy of variables that are declared at once, which share the copy of the type.
#[cycle(copying)]
fn copied_declared(alloc: Global, of: &Vars) -> Result<Vars, AllocError>
    ensures { IfOk result (λ copy. vars_tree copy ≡ vars_tree of.now) }
{
    let names = copied_names(alloc, of.names.as_slice())?;
    let ty = copied_type(alloc, &of.ty)?;
    Ok(Vars {
        names,
        section: of.section,
        ty,
        start: of.start,
    })
}

/// Copies of variables.
#[cycle(copying)]
fn copied_vars(alloc: Global, vars: &[Vars]) -> Result<Vec<Vars>, AllocError>
    ensures { IfOk result (λ copies. var_trees copies.items ≡ var_trees vars.now) }
{
    let mut copies = Vec::new(alloc);
    for of in vars {
        copies.push(copied_declared(alloc, of)?)?;
    }
    Ok(copies)
}

/// The type of what a data block holds: a structure of its own fields, or the type that it is of.
fn held_type(alloc: Global, block: &Block) -> Result<Option<DeclType>, AllocError>
    ensures { IfOk result (λ o. option_map type_tree o ≡ (if is_db (block_tree block.now).kind
        then Some (data_type (block_tree block.now)) else None)) }
{
    match &block.kind {
        BlockKind::Db { of: None } => {
            let vars = copied_vars(alloc, block.interface.vars.as_slice())?;
            Ok(Some(DeclType::Struct(vars)))
        }
        BlockKind::Db {
            of: Some((name, place)),
        } => Ok(Some(DeclType::Named(name.clone()?, *place))),
        BlockKind::Fb | BlockKind::Fc | BlockKind::Ob | BlockKind::Udt => Ok(None),
    }
}

/// The variable that a data block is.
pub(crate) fn data_variable(alloc: Global, block: &Block) -> Result<Option<Vars>, AllocError>
    ensures { IfOk result (λ o. option_map vars_tree o ≡ (if is_db (block_tree block.now).kind
        then Some (data_var (block_tree block.now) ∷ []) else None)) }
{
    let Some(ty) = held_type(alloc, block)? else {
        return Ok(None);
    };
    let names = vec![in alloc; (block.name.clone()?, block.place)]?;
    Ok(Some(Vars {
        names,
        section: Section::Static,
        ty,
        start: None,
    }))
}
