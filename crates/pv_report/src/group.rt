//! Lines of values, cell by cell.
ghost use Rattle.std.specs.Prelude.{◌≡◌, ◌++◌, List, filter, codes, OnOk};
ghost use Rattle.std.specs.Fmt.{decimal};
ghost use Rattle.pv_mean.specs.Frames.{is_free};
ghost use Rattle.pv_report.specs.Reports.{value_line, value_lines, scan_lines};
ghost use Rattle.pv_report.specs.Groups.{front_text, has};

use crate::places::push_number;
use itoa::Buffer;
use pv_claims::CellValues;
use pv_mean::Cell;
use pv_place::Role;
use std::alloc::AllocError;

/// Values of a group of cells.
#[derive(Clone, Copy)]
pub(crate) enum Group {
    /// The cells that are stored from scan to scan.
    Image,
    /// The parameters that no binding gives a value.
    Param,
    /// The input cells at the scan of this number.
    Scan(u64),
}

/// Whether a parameter is open: it isn't bound.
fn is_open(cell: &Cell) -> bool
    ensures { result ≡ is_free cell.now.role cell.now.bound }
{
    match cell.role {
        Role::Param => cell.bound.is_none(),
        Role::Input | Role::Kept | Role::Brief => false,
    }
}

impl Group {
    /// Whether the cell is one of the group.
    fn has(self, cell: &Cell) -> bool
        ensures { result ≡ has self cell.now }
    {
        match self {
            Group::Image => cell.role.is_stored(),
            Group::Param => is_open(cell),
            Group::Scan(_) => cell.role.is_input(),
        }
    }

    /// Puts what stands before the path behind a text.
    fn push_front(self, text: &mut Vec<u8>) -> Result<(), AllocError>
        ensures { OnOk result (text.new.items ≡ text.old.items ++ front_text self) }
    {
        match self {
            Group::Image => text.extend_from_slice(b"image ")?,
            Group::Param => text.extend_from_slice(b"param ")?,
            Group::Scan(scan) => push_scan(text, scan)?,
        }
        Ok(())
    }

    /// Puts the line of a cell's value behind a text.
    fn push_line(self, text: &mut Vec<u8>, cell: &Cell, value: &i128) -> Result<(), AllocError>
        ensures { OnOk result (text.new.items ≡ text.old.items ++ value_line (front_text self) cell.now value.now) }
    {
        let mut buffer = Buffer::new();
        self.push_front(text)?;
        text.extend_from_slice(cell.path.bytes())?;
        text.extend_from_slice(b" = ")?;
        text.extend_from_slice(buffer.format(*value).as_bytes())?;
        text.push(b'\n')?;
        Ok(())
    }

    /// Puts a line for each cell of the group behind a text, with its value of these, which are in the order of the table.
    pub(crate) fn push_lines(
        self,
        text: &mut Vec<u8>,
        cells: &[Cell],
        values: &[i128],
    ) -> Result<(), AllocError>
        ensures { OnOk result (text.new.items
            ≡ text.old.items ++ value_lines (front_text self) (filter (λ c. has self c) cells.now) values.now) }
    {
        let mut next = 0;
        for cell in cells {
            if self.has(cell) {
                let Some(value) = values.get(next) else {
                    return Ok(());
                };
                self.push_line(text, cell, value)?;
                next += 1;
            }
        }
        Ok(())
    }
}

/// `in SCAN ` behind a text.
fn push_scan(text: &mut Vec<u8>, scan: u64) -> Result<(), AllocError>
    ensures { OnOk result (text.new.items ≡ text.old.items ++ (codes "in " ++ (decimal scan ++ codes " "))) }
{
    text.extend_from_slice(b"in ")?;
    push_number(text, scan)?;
    text.push(b' ')?;
    Ok(())
}

/// Puts the lines of the inputs of all scans behind a text; scans count from 1.
pub(crate) fn push_scans(
    text: &mut Vec<u8>,
    cells: &[Cell],
    inputs: &[CellValues],
) -> Result<(), AllocError>
    ensures { OnOk result (text.new.items ≡ text.old.items ++ scan_lines cells.now 1 inputs.now) }
{
    for (done, values) in inputs.iter().enumerate() {
        Group::Scan(done as u64 + 1).push_lines(text, cells, values.as_slice())?;
    }
    Ok(())
}
