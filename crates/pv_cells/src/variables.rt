//! The cells that the leaves of variables give.
ghost use Rattle.std.specs.Prelude.{◌≡◌, ◌++◌, ◌<◌, ◌≤◌, length, map, IfOk, IsErrOf, OnOk};
ghost use Rattle.pv_types.specs.Leaves.{leaves_of};
ghost use Rattle.pv_types.specs.Named.{types_of};
ghost use Rattle.pv_types.specs.View.{vars_tree};
ghost use Rattle.pv_mean.specs.Cells as table;
ghost use Rattle.pv_cells.specs.Forms.{formed};

use pv_edge::Text;
use pv_mean::Cell;
use pv_place::Role;
use pv_types::{FlattenFault, Leaf, Leaves, MAX_LEAVES, Section, Types, Vars, flatten};
use std::alloc::{AllocError, Global};
use std::slice::from_ref;

/// What is made of the leaves of variables.
#[derive(Clone, Copy)]
pub(crate) enum Form {
    /// Visible cells, with the role of their declaration.
    Visible,
    /// Brief cells with their paths: those of the entered block.
    Brief,
    /// Brief cells that nothing names.
    Nameless,
}

/// The role of a visible cell, by the section of the outermost declaration around it.
fn role_of(section: Section) -> Role
    ensures { result ≡ table.role_of section }
{
    match section {
        Section::Input | Section::InOut => Role::Input,
        Section::Output | Section::Static => Role::Kept,
        Section::Temp | Section::Const => Role::Brief,
    }
}

/// The path of a leaf's cell.
fn path_for(alloc: Global, leaf: &Leaf, form: Form) -> Result<Text, AllocError>
    ensures { IfOk result (λ path. path ≡ (formed form leaf.now).path) }
{
    match form {
        Form::Visible => leaf.path.clone(),
        Form::Brief => leaf.path.clone(),
        Form::Nameless => Ok(Text::from(Vec::new(alloc))),
    }
}

/// The role of a leaf's cell.
fn role_for(leaf: &Leaf, form: Form) -> Role
    ensures { result ≡ (formed form leaf.now).role }
{
    match form {
        Form::Visible => role_of(leaf.section),
        Form::Brief => Role::Brief,
        Form::Nameless => Role::Brief,
    }
}

/// The cell of a leaf.
fn cell_from(alloc: Global, leaf: &Leaf, form: Form) -> Result<Cell, AllocError>
    ensures { IfOk result (λ c. c ≡ formed form leaf.now) }
{
    let path = path_for(alloc, leaf, form)?;
    Ok(Cell {
        path,
        ty: leaf.ty,
        start: leaf.start,
        role: role_for(leaf, form),
        bound: None,
    })
}

/// Puts the cells of leaves behind others.
fn push_leaves(
    alloc: Global,
    cells: &mut Vec<Cell>,
    leaves: &[Leaf],
    form: Form,
) -> Result<(), AllocError>
    ensures { OnOk result (cells.new.items ≡ cells.old.items ++ map (formed form) leaves.now) }
{
    for leaf in leaves {
        let cell = cell_from(alloc, leaf, form)?;
        cells.push(cell)?;
    }
    Ok(())
}

/// The leaves of variables that are declared at once.
fn leaves_in(alloc: Global, of: &Vars, types: &Types) -> Result<Leaves, FlattenFault>
    ensures leaves { IfOk result (λ leaves. leaves
        ≡ leaves_of (types_of types.now) (vars_tree of.now)) }
    ensures too_large { IsErrOf result FlattenFault.TooLarge
        → MAX_LEAVES < length (leaves_of (types_of types.now) (vars_tree of.now)) }
{
    flatten(alloc, from_ref(of), types)
}

/// Puts the cells of variables that are declared at once behind others.
pub(crate) fn push_declared(
    alloc: Global,
    cells: &mut Vec<Cell>,
    types: &Types,
    of: &Vars,
    form: Form,
) -> Result<(), AllocError>
    requires { length (leaves_of (types_of types.now) (vars_tree of.now)) ≤ MAX_LEAVES }
    ensures { OnOk result (cells.new.items ≡ cells.old.items
        ++ map (formed form) (leaves_of (types_of types.now) (vars_tree of.now))) }
{
    match leaves_in(alloc, of, types) {
        Ok(leaves) => push_leaves(alloc, cells, leaves.as_slice(), form),
        Err(FlattenFault::TooLarge) => unreachable!(),
        Err(FlattenFault::NoMemory) => Err(AllocError),
    }
}
