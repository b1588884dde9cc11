//! The brief cells of a block itself, without those of the blocks that it calls: how many, and which.
ghost use Rattle.std.specs.Prelude.{◌≡◌, ◌+◌, ◌++◌, ◌≤◌, [], pos, length, map, OnOk};
ghost use Rattle.pv_tree.specs.View.{block_tree};
ghost use Rattle.pv_types.specs.declared.layout.TheConstants.{MAX_LEAVES};
ghost use Rattle.pv_mean.specs.Cells as table;
ghost use Rattle.pv_mean.specs.Counts.{capped};
ghost use Rattle.pv_cells.specs.Planned.{planned, IsPlan};
ghost use Rattle.pv_cells.specs.Forms.{own_formed};

use crate::plan::Plan;
use crate::variables::Form;
use pv_edge::Text;
use pv_mean::{BEYOND, Cell, activation_part};
use pv_names::is_stl;
use pv_place::Role;
use pv_tree::Block;
use pv_word::Ty;
use std::alloc::{AllocError, Global};

/// The cells of an STL block besides its variables: two accumulators, and /FC, RLO, OR, OV, CC1 and CC0.
const STL_TYPES: [Ty; 8] = [
    Ty::Dword,
    Ty::Dword,
    Ty::Bool,
    Ty::Bool,
    Ty::Bool,
    Ty::Bool,
    Ty::Bool,
    Ty::Bool,
];

/// The sum of two numbers of cells.
pub(crate) fn sum(a: u32, b: u32) -> u32
    ensures { result ≡ capped (a + b) }
{
    a.saturating_add(b).min(BEYOND)
}

/// How many cells a function's value has.
fn value_size(block: &Block) -> u32
    ensures is { result ≡ length (table.value_cells (block_tree block.now)) }
    ensures few { result ≤ 1 }
{
    match block.interface.value {
        Some(_) => 1,
        None => 0,
    }
}

/// How many cells an STL block has besides its variables.
fn stl_size(block: &Block) -> u32
    ensures is { result ≡ length (table.stl_cells (block_tree block.now)) }
    ensures few { result ≤ 8 }
{
    if is_stl(&block.body) { 8 } else { 0 }
}

/// Puts brief cells that nothing names behind others, one of each type.
fn push_nameless(alloc: Global, cells: &mut Vec<Cell>, types: &[Ty]) -> Result<(), AllocError>
    ensures { OnOk result (cells.new.items ≡ cells.old.items
        ++ map (λ ty. table.brief_cell [] ty (pos 0)) types.now) }
{
    for &ty in types {
        cells.push(Cell {
            path: Text::from(Vec::new(alloc)),
            ty,
            start: 0,
            role: Role::Brief,
            bound: None,
        })?;
    }
    Ok(())
}

/// Puts the cell of a function's value behind others.
fn push_value(alloc: Global, cells: &mut Vec<Cell>, block: &Block) -> Result<(), AllocError>
    ensures { OnOk result (cells.new.items ≡ cells.old.items
        ++ table.value_cells (block_tree block.now)) }
{
    match block.interface.value {
        Some(ty) => push_nameless(alloc, cells, [ty].as_slice()),
        None => Ok(()),
    }
}

/// Puts the cells of an STL block besides its variables behind others.
fn push_stl(alloc: Global, cells: &mut Vec<Cell>, block: &Block) -> Result<(), AllocError>
    ensures { OnOk result (cells.new.items ≡ cells.old.items
        ++ table.stl_cells (block_tree block.now)) }
{
    if is_stl(&block.body) {
        return push_nameless(alloc, cells, STL_TYPES.as_slice());
    }
    Ok(())
}

impl<'p> Plan<'p> {
    /// How many brief cells a block has of its own.
    pub(crate) fn own_size(&self, block: &Block) -> u32
        requires { IsPlan self.now }
        ensures { result ≡ capped (length
            (table.own_brief_cells (planned self.now) (block_tree block.now))) }
    {
        let more = value_size(block) + stl_size(block);
        sum(self.sizes.of_activation(block), more)
    }

    /// Puts the brief cells that a block has of its own behind others, with their paths or without.
    pub(crate) fn push_own(
        &self,
        alloc: Global,
        cells: &mut Vec<Cell>,
        block: &Block,
        form: Form,
    ) -> Result<(), AllocError>
        requires plan { IsPlan self.now }
        requires few { length (table.own_brief_cells (planned self.now) (block_tree block.now))
            ≤ MAX_LEAVES }
        ensures { OnOk result (cells.new.items ≡ cells.old.items
            ++ own_formed form (planned self.now) (block_tree block.now)) }
    {
        let part = activation_part(&block.kind);
        let vars = block.interface.vars.as_slice();
        self.push_variables(alloc, cells, vars, part, form)?;
        push_value(alloc, cells, block)?;
        push_stl(alloc, cells, block)
    }
}
