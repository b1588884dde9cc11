//! Contract tests of `pv_mean`, `pv_cells` and `pv_bool_form`.
//!
//! Each of these public calls stands here once more, with the library's clauses, by the call itself. An edit of `must-fail` gives a wrong
//! answer in its place.
#![tactic(auto)]

ghost use Rattle.pv_bool.specs.Programs.{program_tree};
ghost use Rattle.pv_bool_form.specs.FirstForm.{IsFirstBlock, IsFirstExpr, IsFirstOperand};
ghost use Rattle.pv_bool_form.specs.Programs.{first_source, program_of};
ghost use Rattle.pv_cells.specs.Named.{wide_bytes};
ghost use Rattle.pv_mean.specs.AreaBytes.{bytes_of};
ghost use Rattle.pv_mean.specs.Cells as table;
ghost use Rattle.pv_mean.specs.Cells.{with_view};
ghost use Rattle.pv_mean.specs.LaidOut.{test_of};
ghost use Rattle.pv_mean.specs.Layout as layout;
ghost use Rattle.pv_mean.specs.Paths.{number_of_path};
ghost use Rattle.pv_mean.specs.ProjectSizes.{project_tree};
ghost use Rattle.pv_tree.specs.Tree.{BlockTree, OperandTree};
ghost use Rattle.pv_tree.specs.View.{block_tree, expr_tree, operand_tree};
ghost use Rattle.pv_types.specs.declared.declaration.Section.{Section};
ghost use Rattle.std.specs.Prelude.{All, IfOk, IfSome, IsErrOf, IsSome, IsTrue, List, OnOk, Some, length, map, slice_get, ℕ, ◌<◌, ◌↔◌, ◌≡◌, ◌≤◌};

use pv_bool::Program;
use pv_cells::{CellFault, Table};
use pv_mean::{CaseView, Cell, Part};
use pv_tree::{Block, BlockKind, Expr, Operand, Project};
use pv_types::MAX_LEAVES;
use std::alloc::{AllocError, Global};

/// [`pv_mean::activation_part`].
pub fn activation_part(kind: &BlockKind) -> Part
    ensures { (block : BlockTree) (section : Section) → block.kind ≡ kind.now
        → test_of result section ≡ layout.is_brief_in block section }
{
    pv_mean::activation_part(kind)
}

/// [`pv_mean::find`].
pub fn find(cells: &[Cell], path: &[u8]) -> Option<u32>
    ensures { length cells.now ≤ 4294967296 → result ≡ number_of_path cells.now path.now }
{
    pv_mean::find(cells, path)
}

/// [`pv_mean::set_params`].
pub fn set_params(cells: &mut [Cell], view: &CaseView)
    requires params { All (λ n. n < length cells.old) view.now.params.items }
    requires bound { All (λ b. b.0 < length cells.old) view.now.bound.items }
    ensures { cells.new ≡ with_view (record {
      params = view.now.params.items;
      bound = view.now.bound.items;
    }) cells.old }
{
    pv_mean::set_params(cells, view)
}

/// [`Table::of`].
pub fn table_of(
    alloc: Global,
    project: &Project,
    entry: u32,
    named: &[Operand],
) -> Result<Table, CellFault>
    requires { entry < length project.now.blocks.list.items }
    ensures cells { (block : BlockTree)
        → slice_get (project_tree project.now).blocks entry ≡ Some block
        → IfOk result (λ t. t.cells.items ≡ table.table_of (project_tree project.now) block
        (bytes_of (project_tree project.now) (map operand_tree named.now))) }
    ensures bytes { IfOk result (λ t. wide_bytes t.bytes
        ≡ bytes_of (project_tree project.now) (map operand_tree named.now)) }
    ensures within { (block : BlockTree)
        → slice_get (project_tree project.now).blocks entry ≡ Some block
        → OnOk result (length (table.table_of (project_tree project.now) block
        (bytes_of (project_tree project.now) (map operand_tree named.now))) ≤ MAX_LEAVES) }
    ensures too_large { (block : BlockTree)
        → slice_get (project_tree project.now).blocks entry ≡ Some block
        → IsErrOf result CellFault.TooLarge
        → MAX_LEAVES < length (table.table_of (project_tree project.now) block
        (bytes_of (project_tree project.now) (map operand_tree named.now))) }
{
    Table::of(alloc, project, entry, named)
}

/// [`Table::set_params`].
pub fn set_params_of(table: &mut Table, view: &CaseView)
    requires params { All (λ n. n < length table.old.cells.items) view.now.params.items }
    requires bound { All (λ b. b.0 < length table.old.cells.items) view.now.bound.items }
    ensures cells { table.new.cells.items ≡ with_view (record {
      params = view.now.params.items;
      bound = view.now.bound.items;
    }) table.old.cells.items }
    ensures bytes { table.new.bytes ≡ table.old.bytes }
{
    table.set_params(view)
}

/// [`pv_cells::cells`].
pub fn cells(
    alloc: Global,
    project: &Project,
    entry: u32,
    named: &[Operand],
) -> Result<Vec<Cell>, CellFault>
    requires { entry < length project.now.blocks.list.items }
    ensures cells { (block : BlockTree)
        → slice_get (project_tree project.now).blocks entry ≡ Some block
        → IfOk result (λ v. v.items ≡ table.table_of (project_tree project.now) block
        (bytes_of (project_tree project.now) (map operand_tree named.now))) }
    ensures within { (block : BlockTree)
        → slice_get (project_tree project.now).blocks entry ≡ Some block
        → OnOk result (length (table.table_of (project_tree project.now) block
        (bytes_of (project_tree project.now) (map operand_tree named.now))) ≤ MAX_LEAVES) }
    ensures too_large { (block : BlockTree)
        → slice_get (project_tree project.now).blocks entry ≡ Some block
        → IsErrOf result CellFault.TooLarge
        → MAX_LEAVES < length (table.table_of (project_tree project.now) block
        (bytes_of (project_tree project.now) (map operand_tree named.now))) }
{
    pv_cells::cells(alloc, project, entry, named)
}

/// [`pv_bool_form::first_form`].
pub fn first_form(alloc: Global, block: &Block, a: &Expr) -> Result<Option<Program>, AllocError>
    ensures is_first { IfOk result (λ made. IsSome made ↔ (IsFirstBlock (block_tree block.now)
        × IsFirstExpr (block_tree block.now).vars (expr_tree a.now))) }
    ensures program { IfOk result (λ made. IfSome made (λ program.
        (patterns : List OperandTree) (bound : ℕ)
        → All (IsFirstOperand (block_tree block.now).vars) patterns
        → program_tree program
        ≡ program_of (first_source (block_tree block.now) patterns bound) (expr_tree a.now))) }
{
    pv_bool_form::first_form(alloc, block, a)
}

/// [`pv_bool_form::is_first_block`].
pub fn is_first_block(alloc: Global, block: &Block) -> Result<bool, AllocError>
    ensures { IfOk result (λ is. IsTrue is ↔ IsFirstBlock (block_tree block.now)) }
{
    pv_bool_form::is_first_block(alloc, block)
}

/// [`pv_bool_form::is_first_requirement`].
pub fn is_first_requirement(alloc: Global, block: &Block, a: &Expr) -> Result<bool, AllocError>
    requires few { length (block_tree block.now).vars ≤ MAX_LEAVES }
    ensures { IfOk result (λ is. IsTrue is ↔ IsFirstExpr (block_tree block.now).vars (expr_tree a.now)) }
{
    pv_bool_form::is_first_requirement(alloc, block, a)
}
