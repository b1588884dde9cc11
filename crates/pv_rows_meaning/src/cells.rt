//! Cell tables. A cell is its path, its type, its start value and its role: `i` for an input, `p` for a parameter, with its value where it is
//! bound, `k` for what is kept and `b` for what is brief.
ghost use Rattle.std.specs.Prelude.{◌<◌, All, IsTrue};

use crate::reading::{number_of, operands_of, project_of, said, type_word};
use pv_cells::{CellFault, cells};
use pv_mean::{CaseView, Cell, find, set_params};
use pv_place::Role;
use pv_rows_form::{Row, Told};
use pv_tree::{Operand, Project};
use pv_types::MAX_LEAVES;
use std::alloc::{AllocError, Global};

fn letter_of(role: Role) -> &'static str {
    match role {
        Role::Input => " i",
        Role::Param => " p",
        Role::Kept => " k",
        Role::Brief => " b",
    }
}

fn tell_cell(cell: &Cell, told: &mut Told) {
    told.bytes(cell.path.bytes());
    told.text(":");
    told.text(type_word(cell.ty));
    told.text("=");
    told.number(cell.start);
    told.text(letter_of(cell.role));
    if let Some(value) = cell.bound {
        told.text("=");
        told.number(value);
    }
}

/// The cells, with commas between them.
fn tell_cells(cells: &[Cell], told: &mut Told) {
    let mut between = "";
    for cell in cells {
        told.text(between);
        tell_cell(cell, told);
        between = ", ";
    }
}

/// The cells of a project; else the fault is told.
fn table(project: &Project, entry: u32, named: &[Operand], told: &mut Told) -> Option<Vec<Cell>> {
    if entry as usize >= project.blocks().list.len() {
        return None;
    }
    match cells(told.alloc(), project, entry, named) {
        Ok(cells) => Some(cells),
        Err(CellFault::TooLarge) => {
            told.text("TooLarge");
            None
        }
        Err(CellFault::NoMemory) => {
            told.lose();
            None
        }
    }
}

/// The cells of the row's project with those that patterns name.
fn row_table(row: Row<'_>, told: &mut Told) -> Option<Vec<Cell>> {
    let entry = number_of(said(row, "entry", told).as_str());
    let named = operands_of(said(row, "named", told).as_str(), told);
    let project = project_of(row, told)?;
    let cells = table(&project, entry, named.as_slice(), told);
    drop(project);
    cells
}

/// The cells.
pub fn tell_table(row: Row<'_>, told: &mut Told) {
    if let Some(cells) = row_table(row, told) {
        tell_cells(cells.as_slice(), told);
    }
}

/// How many cells there are.
pub fn tell_count(row: Row<'_>, told: &mut Told) {
    if let Some(cells) = row_table(row, told) {
        told.number(cells.len() as i128);
    }
}

/// The numbers of a text, which has blanks between them.
fn numbers(alloc: Global, text: &str) -> Result<Vec<u32>, AllocError> {
    let mut out = Vec::new(alloc);
    for part in text.split(' ') {
        if let Ok(n) = part.parse::<u32>() {
            out.push(n)?;
        }
    }
    Ok(out)
}

/// The numbers of a text with their values.
fn bindings(alloc: Global, text: &str) -> Result<Vec<(u32, i128)>, AllocError> {
    let mut out = Vec::new(alloc);
    for part in text.split(' ') {
        let (number, value) = part.split_once('=').unwrap_or((part, ""));
        if let (Ok(n), Ok(v)) = (number.parse::<u32>(), value.parse::<i128>()) {
            out.push((n, v))?;
        }
    }
    Ok(out)
}

/// What the row's case says: its parameters and what is bound, by the numbers of cells, and the bound on loops.
pub fn view_of(row: Row<'_>, told: &mut Told) -> CaseView {
    let alloc = told.alloc();
    let entry = number_of(said(row, "entry", told).as_str());
    let loop_bound = number_of(said(row, "loops", told).as_str());
    let params = numbers(alloc, said(row, "params", told).as_str());
    let bound = bindings(alloc, said(row, "bound", told).as_str());
    if params.is_err() || bound.is_err() {
        told.lose();
    }
    CaseView {
        entry,
        params: params.unwrap_or(Vec::new(alloc)),
        bound: bound.unwrap_or(Vec::new(alloc)),
        loop_bound,
    }
}

/// Whether a case may say this of so many cells.
pub fn fits(view: &CaseView, len: usize) -> bool
    ensures params { IsTrue result → All (λ n. n < len) view.now.params.items }
    ensures bound { IsTrue result → All (λ b. b.0 < len) view.now.bound.items }
{
    view.params.iter().all(|n| (*n as usize) < len)
        && view.bound.iter().all(|b| (b.0 as usize) < len)
}

/// The numbers of the paths of a text, which has commas between them.
fn tell_paths(cells: &[Cell], text: &str, told: &mut Told) {
    for path in text.split(',') {
        match find(cells, path.as_bytes()) {
            Some(n) => told.number(i128::from(n)),
            None => told.text("no"),
        }
        told.text(" ");
    }
}

/// The numbers of the row's paths, and the cells as its case says.
pub fn tell_view(row: Row<'_>, told: &mut Told) {
    let view = view_of(row, told);
    let paths = said(row, "paths", told);
    let Some(made) = row_table(row, told) else {
        return;
    };
    let mut cells = made;
    if !fits(&view, cells.len()) || cells.len() > MAX_LEAVES {
        return;
    }
    set_params(cells.as_mut_slice(), &view);
    tell_paths(cells.as_slice(), paths.as_str(), told);
    told.text("; ");
    tell_cells(cells.as_slice(), told);
}
