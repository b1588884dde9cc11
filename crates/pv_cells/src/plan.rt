//! What the cells of a project are made by: its named types, and the sizes of all that has cells.
ghost use Rattle.std.specs.Prelude.{◌≡◌, ◌++◌, ◌≤◌, length, map, IfOk, OnOk};
ghost use Rattle.pv_types.specs.View.{vars_tree, var_trees};
ghost use Rattle.pv_types.specs.declared.layout.TheConstants.{MAX_LEAVES};
ghost use Rattle.pv_tree.specs.View.{block_tree};
ghost use Rattle.pv_mean.specs.ProjectSizes.{project_tree};
ghost use Rattle.pv_mean.specs.Cells as table;
ghost use Rattle.pv_mean.specs.LaidOut.{test_of};
ghost use Rattle.pv_names.specs.Tables.{project_of};
ghost use Rattle.pv_cells.specs.Forms.{formed, leaves_among};
ghost use Rattle.pv_cells.specs.Planned.{planned, IsPlan};

use crate::types::named_types;
use crate::variables::{Form, push_declared};
use pv_mean::{Cell, Part, Sizes};
use pv_names::Tables;
use pv_tree::{Block, BlockKind, Project};
use pv_types::{Types, Vars};
use std::alloc::{AllocError, Global};

/// A project with its named types and its sizes.
#[derive(Drop)]
pub(crate) struct Plan<'p> {
    pub(crate) project: &'p Project,
    pub(crate) tables: &'p Tables<'p>,
    pub(crate) types: Types<'p>,
    pub(crate) sizes: Sizes<'p>,
}

impl<'p> Plan<'p> {
    /// That of a project.
    pub(crate) fn of(
        alloc: Global,
        project: &'p Project,
        tables: &'p Tables<'p>,
    ) -> Result<Plan<'p>, AllocError>
        requires { project_of tables.now ≡ project_tree project.now }
        ensures plan { IfOk result (λ p. IsPlan p) }
        ensures project { IfOk result (λ p. planned p ≡ project_tree project.now) }
    {
        let types = named_types(alloc, project)?;
        let sizes = Sizes::of(alloc, project)?;
        Ok(Plan {
            project,
            tables,
            types,
            sizes,
        })
    }

    /// Puts the cells of variables that are declared at once behind others, if they are of the part.
    fn push_part(
        &self,
        alloc: Global,
        cells: &mut Vec<Cell>,
        of: &Vars,
        part: Part,
        form: Form,
    ) -> Result<(), AllocError>
        requires plan { IsPlan self.now }
        requires few { length (leaves_among (planned self.now) (test_of part) (vars_tree of.now))
            ≤ MAX_LEAVES }
        ensures { OnOk result (cells.new.items ≡ cells.old.items
            ++ map (formed form) (leaves_among (planned self.now) (test_of part) (vars_tree of.now))) }
    {
        if !part.has(of.section) {
            return Ok(());
        }
        push_declared(alloc, cells, &self.types, of, form)
    }

    /// Puts the cells of a part of some variables behind others.
    pub(crate) fn push_variables(
        &self,
        alloc: Global,
        cells: &mut Vec<Cell>,
        vars: &[Vars],
        part: Part,
        form: Form,
    ) -> Result<(), AllocError>
        requires plan { IsPlan self.now }
        requires few { length (leaves_among (planned self.now) (test_of part) (var_trees vars.now))
            ≤ MAX_LEAVES }
        ensures { OnOk result (cells.new.items ≡ cells.old.items
            ++ map (formed form) (leaves_among (planned self.now) (test_of part) (var_trees vars.now))) }
    {
        for of in vars {
            self.push_part(alloc, cells, of, part, form)?;
        }
        Ok(())
    }

    /// Puts the cells of the entered block behind others.
    pub(crate) fn push_entry(
        &self,
        alloc: Global,
        cells: &mut Vec<Cell>,
        block: &Block,
    ) -> Result<(), AllocError>
        requires plan { IsPlan self.now }
        requires few { length (table.entry_cells (planned self.now) (block_tree block.now)) ≤ MAX_LEAVES }
        ensures { OnOk result (cells.new.items ≡ cells.old.items
            ++ table.entry_cells (planned self.now) (block_tree block.now)) }
    {
        match block.kind {
            BlockKind::Fb => {
                let vars = block.interface.vars.as_slice();
                self.push_variables(alloc, cells, vars, Part::Instance, Form::Visible)
            }
            BlockKind::Fc | BlockKind::Ob | BlockKind::Db { .. } | BlockKind::Udt => Ok(()),
        }
    }
}
