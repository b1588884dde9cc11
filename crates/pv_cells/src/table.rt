//! The cell table of a project that is entered at a block.
ghost use Rattle.std.specs.Prelude.{◌≡◌, ◌<◌, ◌≤◌, ◌++◌, Some, IfOk, OnOk, IsErrOf, length, map};
ghost use Rattle.std.specs.List.{slice_get};
ghost use Rattle.pv_tree.specs.Tree.{BlockTree};
ghost use Rattle.pv_tree.specs.View.{operand_tree};
ghost use Rattle.pv_mean.specs.AreaBytes.{bytes_of};
ghost use Rattle.pv_mean.specs.Cells as table;
ghost use Rattle.pv_mean.specs.Counts.{capped};
ghost use Rattle.pv_mean.specs.ProjectSizes.{project_tree};
ghost use Rattle.pv_cells.specs.Graphs.{node_tree, IsNode};
ghost use Rattle.pv_names.specs.Entries.{block_of};
ghost use Rattle.pv_names.specs.Tables.{project_of};
ghost use Rattle.pv_cells.specs.Answered.{Tabled};
ghost use Rattle.pv_cells.specs.Drawn.{drawn, IsGraph};
ghost use Rattle.pv_cells.specs.Planned.{planned, IsPlan};
ghost use Rattle.pv_bytes.specs.NamedBytes.{bytes_tree};

use crate::areas::push_bytes;
use crate::fault::CellFault;
use crate::graph::Graph;
use crate::node::Node;
use crate::own::sum;
use crate::plan::Plan;
use pv_bytes::Bytes;
use pv_mean::{BEYOND, Cell, laws};
use pv_names::{Entry, Tables, entries};
use pv_place::Role;
use pv_tree::{Operand, Project};
use pv_types::MAX_LEAVES;
use std::alloc::{AllocError, Global};

/// A number of elements, as a number of cells.
fn count(len: usize) -> u32
    ensures { result ≡ capped len }
{
    if len > MAX_LEAVES {
        return BEYOND;
    }
    len as u32
}

/// How many cells the bytes of areas have.
fn size_of_bytes(bytes: &Bytes) -> u32
    ensures { result ≡ capped (length (table.area_cells (bytes_tree bytes.now))) }
{
    laws::tables_are_laid_out();
    let inputs = count(bytes.inputs.len());
    let outputs = count(bytes.outputs.len());
    let flags = count(bytes.flags.len());
    let first = sum(inputs, outputs);
    sum(first, flags)
}

/// Puts the cells of the bytes of areas behind others.
fn push_areas(alloc: Global, cells: &mut Vec<Cell>, bytes: &Bytes) -> Result<(), AllocError>
    ensures { OnOk result (cells.new.items ≡ cells.old.items
        ++ table.area_cells (bytes_tree bytes.now)) }
{
    push_bytes(alloc, cells, b'I', Role::Input, bytes.inputs.as_slice())?;
    push_bytes(alloc, cells, b'Q', Role::Kept, bytes.outputs.as_slice())?;
    push_bytes(alloc, cells, b'M', Role::Kept, bytes.flags.as_slice())
}

impl<'p> Graph<'p> {
    /// How many visible cells a block has of its own, where it is entered.
    fn entry_size(&self, node: &Node<'p>) -> u32
        requires { IsGraph self.now }
        ensures { result ≡ capped (length (table.entry_cells (drawn self.now) (node_tree node.now))) }
    {
        laws::tables_are_laid_out();
        self.plan.sizes.of_entry(node.block)
    }

    /// How many visible cells the table has.
    fn visible_size(&self, node: &Node<'p>, bytes: &Bytes) -> u32
        requires { IsGraph self.now }
        ensures { result ≡ capped (length
            (table.visible_part (drawn self.now) (node_tree node.now) (bytes_tree bytes.now))) }
    {
        laws::tables_are_laid_out();
        let own = self.entry_size(node);
        let held = self.plan.sizes.of_data_blocks();
        let areas = size_of_bytes(bytes);
        let first = sum(own, held);
        sum(first, areas)
    }

    /// How many cells the table has.
    fn size(&self, number: usize, node: &Node<'p>, bytes: &Bytes) -> u32
        requires graph { IsGraph self.now }
        requires at { slice_get (drawn self.now).blocks number ≡ Some (node_tree node.now) }
        ensures { result ≡ capped (length
            (table.table_of (drawn self.now) (node_tree node.now) (bytes_tree bytes.now))) }
    {
        let visible = self.visible_size(node, bytes);
        let brief = self.size_at(number);
        sum(visible, brief)
    }

    /// The table.
    fn built(&self, alloc: Global, node: &Node<'p>, bytes: &Bytes) -> Result<Vec<Cell>, AllocError>
        requires graph { IsGraph self.now }
        requires is { IsNode (drawn self.now) node.now }
        requires few { length (table.table_of (drawn self.now) (node_tree node.now) (bytes_tree bytes.now))
            ≤ MAX_LEAVES }
        ensures { IfOk result (λ v. v.items
            ≡ table.table_of (drawn self.now) (node_tree node.now) (bytes_tree bytes.now)) }
    {
        let mut cells = Vec::new(alloc);
        self.plan.push_entry(alloc, &mut cells, node.block)?;
        self.plan.push_data(alloc, &mut cells)?;
        push_areas(alloc, &mut cells, bytes)?;
        self.push_entered(alloc, &mut cells, node)?;
        Ok(cells)
    }

    /// The table, unless it has too many cells.
    fn table(
        &self,
        alloc: Global,
        number: usize,
        node: &Node<'p>,
        bytes: &Bytes,
    ) -> Result<Vec<Cell>, CellFault>
        requires graph { IsGraph self.now }
        requires is { IsNode (drawn self.now) node.now }
        requires at { slice_get (drawn self.now).blocks number ≡ Some (node_tree node.now) }
        ensures cells { IfOk result (λ v. v.items
            ≡ table.table_of (drawn self.now) (node_tree node.now) (bytes_tree bytes.now)) }
        ensures within { OnOk result (length
            (table.table_of (drawn self.now) (node_tree node.now) (bytes_tree bytes.now)) ≤ MAX_LEAVES) }
        ensures too_large { IsErrOf result CellFault.TooLarge
            → MAX_LEAVES < length
            (table.table_of (drawn self.now) (node_tree node.now) (bytes_tree bytes.now)) }
    {
        if self.size(number, node, bytes) == BEYOND {
            return Err(CellFault::TooLarge);
        }
        Ok(self.built(alloc, node, bytes)?)
    }

    /// The table of what is entered at the block of a number.
    fn entered(&self, alloc: Global, number: usize, bytes: &Bytes) -> Result<Vec<Cell>, CellFault>
        requires graph { IsGraph self.now }
        requires inside { number < length (drawn self.now).blocks }
        ensures { Tabled (drawn self.now) number (bytes_tree bytes.now) result }
    {
        match self.find(number) {
            Some(node) => self.table(alloc, number, node, bytes),
            None => unreachable!(),
        }
    }
}

/// The table of a planned project.
fn drawn_cells(
    alloc: Global,
    plan: &Plan,
    entry: u32,
    named: &[Operand],
) -> Result<Vec<Cell>, CellFault>
    requires plan { IsPlan plan.now }
    requires inside { entry < length (planned plan.now).blocks }
    ensures { Tabled (planned plan.now) entry
        (bytes_of (planned plan.now) (map operand_tree named.now)) result }
{
    let graph = Graph::of(alloc, plan)?;
    let bytes = Bytes::of(alloc, plan.project, named)?;
    graph.entered(alloc, entry as usize, &bytes)
}

/// The table of a project with these tables of names.
fn planned_cells(
    alloc: Global,
    project: &Project,
    tables: &Tables,
    entry: u32,
    named: &[Operand],
) -> Result<Vec<Cell>, CellFault>
    requires tables { project_of tables.now ≡ project_tree project.now }
    requires inside { entry < length (project_tree project.now).blocks }
    ensures { Tabled (project_tree project.now) entry
        (bytes_of (project_tree project.now) (map operand_tree named.now)) result }
{
    let plan = Plan::of(alloc, project, tables)?;
    drawn_cells(alloc, &plan, entry, named)
}

/// The table of a project whose blocks have these tables of variables.
fn named_cells(
    alloc: Global,
    project: &Project,
    blocks: &[Entry],
    entry: u32,
    named: &[Operand],
) -> Result<Vec<Cell>, CellFault>
    requires blocks { map block_of blocks.now ≡ (project_tree project.now).blocks }
    requires inside { entry < length (project_tree project.now).blocks }
    ensures { Tabled (project_tree project.now) entry
        (bytes_of (project_tree project.now) (map operand_tree named.now)) result }
{
    let tables = Tables::of(alloc, blocks, project.symbols())?;
    planned_cells(alloc, project, &tables, entry, named)
}

/// The cell table of a project that is entered at the block of this number, a function block or an OB, before a case says which
/// cells are parameters. The bytes of areas that `named` names have cells, besides those that the sources and the symbols name.
///
/// `TooLarge` where the table has more than [`MAX_LEAVES`] cells.
pub fn cells(
    alloc: Global,
    project: &Project,
    entry: u32,
    named: &[Operand],
) -> Result<Vec<Cell>, CellFault>
    requires { entry < length project.now.blocks.list.items }
    ensures cells { (block : BlockTree)
        → slice_get (project_tree project.now).blocks entry ≡ Some block
        → IfOk result (λ v. v.items ≡ table.table_of (project_tree project.now) block
        (bytes_of (project_tree project.now) (map operand_tree named.now))) }
    ensures within { (block : BlockTree)
        → slice_get (project_tree project.now).blocks entry ≡ Some block
        → OnOk result (length (table.table_of (project_tree project.now) block
        (bytes_of (project_tree project.now) (map operand_tree named.now))) ≤ MAX_LEAVES) }
    ensures too_large { (block : BlockTree)
        → slice_get (project_tree project.now).blocks entry ≡ Some block
        → IsErrOf result CellFault.TooLarge
        → MAX_LEAVES < length (table.table_of (project_tree project.now) block
        (bytes_of (project_tree project.now) (map operand_tree named.now))) }
{
    let blocks = entries(alloc, project.blocks().list.as_slice())?;
    named_cells(alloc, project, blocks.as_slice(), entry, named)
}
