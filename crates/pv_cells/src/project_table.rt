//! The table of a project.
ghost use Rattle.std.specs.Prelude.{◌≡◌, ◌<◌, ◌≤◌, IfOk, OnOk, IsErrOf, Some, All, map, slice_get, length};
ghost use Rattle.pv_tree.specs.View.{operand_tree};
ghost use Rattle.pv_tree.specs.Tree.{BlockTree};
ghost use Rattle.pv_types.specs.declared.layout.TheConstants.{MAX_LEAVES};
ghost use Rattle.pv_mean.specs.AreaBytes.{bytes_of};
ghost use Rattle.pv_mean.specs.Cells.{with_view};
ghost use Rattle.pv_mean.specs.Cells as table;
ghost use Rattle.pv_mean.specs.ProjectSizes.{project_tree};
ghost use Rattle.pv_bytes.specs.Lent.{bytes_tree};
ghost use Rattle.pv_cells.specs.Named.{wide_bytes};

use crate::fault::CellFault;
use crate::named::NamedBytes;
use crate::table::cells;
use pv_bytes::AreaBytes;
use pv_mean::{CaseView, Cell, set_params};
use pv_tree::{Operand, Project};
use std::alloc::Global;

/// The cells of a project that is entered at a block, and the bytes of areas that have cells there.
#[derive(Drop)]
pub struct Table {
    bytes: NamedBytes,
    cells: Vec<Cell>,
}

impl Table {
    /// The table of a project that is entered at the block of this number, a function block or an OB, before a case says which cells are
    /// parameters. The bytes of areas that `named` names have cells, besides those that the sources and the symbols name.
    ///
    /// `TooLarge` where it has more than [`pv_types::MAX_LEAVES`] cells.
    pub fn of(
        alloc: Global,
        project: &Project,
        entry: u32,
        named: &[Operand],
    ) -> Result<Table, CellFault>
        requires { entry < length project.now.blocks.list.items }
        ensures cells { (block : BlockTree)
            → slice_get (project_tree project.now).blocks entry ≡ Some block
            → IfOk result (λ t. t.cells.items ≡ table.table_of (project_tree project.now) block
            (bytes_of (project_tree project.now) (map operand_tree named.now))) }
        ensures bytes { IfOk result (λ t. wide_bytes t.bytes
            ≡ bytes_of (project_tree project.now) (map operand_tree named.now)) }
        ensures within { (block : BlockTree)
            → slice_get (project_tree project.now).blocks entry ≡ Some block
            → OnOk result (length (table.table_of (project_tree project.now) block
            (bytes_of (project_tree project.now) (map operand_tree named.now))) ≤ MAX_LEAVES) }
        ensures too_large { (block : BlockTree)
            → slice_get (project_tree project.now).blocks entry ≡ Some block
            → IsErrOf result CellFault.TooLarge
            → MAX_LEAVES < length (table.table_of (project_tree project.now) block
            (bytes_of (project_tree project.now) (map operand_tree named.now))) }
    {
        let bytes = NamedBytes::of(alloc, project, named)?;
        let cells = cells(alloc, project, entry, named)?;
        Ok(Table { bytes, cells })
    }

    /// Makes the cells that the case lists or binds parameters, and gives the bound ones their values.
    pub fn set_params(&mut self, view: &CaseView)
        requires params { All (λ n. n < length self.old.cells.items) view.now.params.items }
        requires bound { All (λ b. b.0 < length self.old.cells.items) view.now.bound.items }
        ensures cells { self.new.cells.items ≡ with_view (record {
          params = view.now.params.items;
          bound = view.now.bound.items;
        }) self.old.cells.items }
        ensures bytes { self.new.bytes ≡ self.old.bytes }
    {
        set_params(self.cells.as_mut_slice(), view);
    }

    /// The cells in their order.
    pub fn cells(&self) -> &[Cell]
        ensures { result.now ≡ self.now.cells.items }
    {
        self.cells.as_slice()
    }

    /// The numbers of each area's bytes that have cells, in the order of the table.
    pub fn bytes(&self) -> AreaBytes<'_>
        ensures { bytes_tree result ≡ wide_bytes self.now.bytes }
    {
        self.bytes.areas()
    }
}
