//! Cases against a project: the block that an entry names, and what is said of the inputs.
use pv_case::{Case, read};
use pv_case_fit::{EntryFault, InputFault, entry_of, view_of};
use pv_edge::Text;
use pv_lex::{Language, MAX_SOURCE, tokens};
use pv_mean::{CaseView, Cell};
use pv_place::Role;
use pv_rows_form::Told;
use pv_scl_parse::parse;
use pv_tree::Blocks;
use pv_types::MAX_LEAVES;
use pv_word::Ty;
use std::alloc::{AllocError, Global};

/// The blocks of the rows on entries.
const BLOCKS: &str = "FUNCTION_BLOCK Demo END_FUNCTION_BLOCK FUNCTION Calc : VOID END_FUNCTION \
ORGANIZATION_BLOCK OB 1 END_ORGANIZATION_BLOCK FUNCTION_BLOCK \"REAL\" END_FUNCTION_BLOCK \
DATA_BLOCK Data STRUCT END_STRUCT BEGIN END_DATA_BLOCK FUNCTION_BLOCK DEMO END_FUNCTION_BLOCK";

/// Tells which of the blocks the entry's text names.
fn tell_number(blocks: &Blocks, text: &str, told: &mut Told) {
    if blocks.list.len() > u32::MAX as usize {
        return;
    }
    match entry_of(told.alloc(), blocks, text) {
        Ok(number) => told.number(i128::from(number)),
        Err(EntryFault::NoEntry) => told.text("no"),
        Err(EntryFault::NoMemory) => told.lose(),
    }
}

/// Tells the number of the block that an entry's text names.
pub fn tell_entry(bytes: &[u8], told: &mut Told) {
    let source = BLOCKS.as_bytes();
    if source.len() > MAX_SOURCE {
        return;
    }
    match tokens(told.alloc(), 0, Language::Scl, source) {
        Ok(all) => match parse(told.alloc(), source, all.as_slice()) {
            Ok(blocks) => {
                tell_number(&blocks, str::from_utf8(bytes).unwrap_or(""), told);
                drop(blocks);
            }
            Err(fault) => told.words(&fault),
        },
        Err(fault) => told.words(&fault),
    }
}

fn cell(alloc: Global, path: &[u8], ty: Ty, role: Role) -> Result<Cell, AllocError> {
    Ok(Cell {
        path: Text::of(alloc, path)?,
        ty,
        start: 0,
        role,
        bound: None,
    })
}

/// The cells of the rows on inputs: `a` and `b` are inputs, `q` and `t` are kept, and `t` is also the path of an input.
fn cells(alloc: Global) -> Result<Vec<Cell>, AllocError> {
    let mut cells = Vec::new(alloc);
    cells.push(cell(alloc, b"a", Ty::Int, Role::Input)?)?;
    cells.push(cell(alloc, b"b", Ty::Bool, Role::Input)?)?;
    cells.push(cell(alloc, b"q", Ty::Int, Role::Kept)?)?;
    cells.push(cell(alloc, b"t", Ty::Int, Role::Kept)?)?;
    cells.push(cell(alloc, b"t", Ty::Int, Role::Input)?)?;
    Ok(cells)
}

/// What a view says of the inputs.
fn tell_view(view: &CaseView, told: &mut Told) {
    told.text("params");
    for number in view.params.as_slice() {
        told.text(" ");
        told.number(i128::from(*number));
    }
    told.text(" bound");
    for (number, value) in view.bound.as_slice() {
        told.text(" ");
        told.number(i128::from(*number));
        told.text("=");
        told.number(*value);
    }
}

fn tell_fit(case: &Case, cells: &[Cell], told: &mut Told) {
    if cells.len() > MAX_LEAVES {
        return;
    }
    match view_of(told.alloc(), case, 0, cells) {
        Ok(view) => tell_view(&view, told),
        Err(InputFault::NotAnInput { field }) => {
            told.text("input ");
            told.bytes(field.as_bytes());
        }
        Err(InputFault::BoundRange { field }) => {
            told.text("range ");
            told.bytes(field.as_bytes());
        }
        Err(InputFault::NoMemory) => told.lose(),
    }
}

/// Tells what a case says of the inputs, by the numbers of their cells, or the first that doesn't fit.
pub fn tell_inputs(bytes: &[u8], told: &mut Told) {
    let Ok(cells) = cells(told.alloc()) else {
        return told.lose();
    };
    match read(told.alloc(), bytes) {
        Ok(case) => {
            tell_fit(&case, cells.as_slice(), told);
            drop(case);
        }
        Err(_) => told.text("no case"),
    }
}
