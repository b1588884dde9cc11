//! What settings are read as.
ghost use Rattle.std.specs.Prelude.{◌<◌, All, IsTrue};

use pv_lex::{Language, MAX_SOURCE, tokens};
use pv_mean::CaseView;
use pv_rows_form::{Row, Told};
use pv_rules::check;
use pv_scl_parse::{expression, parse};
use pv_stl_parse::parse as parse_stl;
use pv_tree::{Block, Blocks, Expr, Project};
use pv_word::Ty;
use std::alloc::{AllocError, Global};

/// The setting of this name as a text.
pub fn said(row: Row<'_>, name: &str, told: &mut Told) -> String {
    let alloc = told.alloc();
    String::from_utf8(row.setting(name, told)).unwrap_or(String::new(alloc))
}

/// The number that a text is, or 0.
pub fn number_of(text: &str) -> u32 {
    text.trim().parse::<u32>().unwrap_or(0)
}

/// The blocks of SCL that a text reads as; else that it doesn't is told.
fn scl_blocks(bytes: &[u8], told: &mut Told) -> Vec<Block> {
    let alloc = told.alloc();
    if bytes.len() > MAX_SOURCE {
        return Vec::new(alloc);
    }
    match tokens(alloc, 0, Language::Scl, bytes) {
        Ok(cut) => match parse(alloc, bytes, cut.as_slice()) {
            Ok(Blocks { list }) => list,
            Err(fault) => {
                told.words(&fault);
                Vec::new(alloc)
            }
        },
        Err(fault) => {
            told.words(&fault);
            Vec::new(alloc)
        }
    }
}

/// The same of STL.
fn stl_blocks(bytes: &[u8], told: &mut Told) -> Vec<Block> {
    let alloc = told.alloc();
    if bytes.len() > MAX_SOURCE {
        return Vec::new(alloc);
    }
    match tokens(alloc, 0, Language::Stl, bytes) {
        Ok(cut) => match parse_stl(alloc, bytes, cut.as_slice()) {
            Ok(Blocks { list }) => list,
            Err(fault) => {
                told.words(&fault);
                Vec::new(alloc)
            }
        },
        Err(fault) => {
            told.words(&fault);
            Vec::new(alloc)
        }
    }
}

/// The blocks of the row's source, which has some of STL, and after `$` some of SCL; without `$` all are of SCL.
fn blocks_of(row: Row<'_>, told: &mut Told) -> Vec<Block> {
    let source = said(row, "source", told);
    let (stl, scl) = source
        .as_str()
        .split_once('$')
        .unwrap_or(("", source.as_str()));
    let mut list = stl_blocks(stl.as_bytes(), told);
    let mut more = scl_blocks(scl.as_bytes(), told);
    if list.append(&mut more).is_err() {
        told.lose();
    }
    list
}

/// The project of the row's source, without symbols; else that it breaks a rule is told.
pub fn project_of(row: Row<'_>, told: &mut Told) -> Option<Project> {
    let alloc = told.alloc();
    let list = blocks_of(row, told);
    match check(alloc, Blocks { list }, Vec::new(alloc)) {
        Ok(project) => Some(project),
        Err(_) => {
            told.text("no project");
            None
        }
    }
}

/// The expression that a text reads as; else the fault is told.
pub fn expression_of(text: &str, told: &mut Told) -> Option<Expr> {
    let bytes = text.as_bytes();
    if bytes.len() > MAX_SOURCE {
        return None;
    }
    match tokens(told.alloc(), 0, Language::Scl, bytes) {
        Ok(cut) => match expression(told.alloc(), bytes, cut.as_slice()) {
            Ok(tree) => Some(tree),
            Err(fault) => {
                told.words(&fault);
                None
            }
        },
        Err(fault) => {
            told.words(&fault);
            None
        }
    }
}

const TYPES: [(&str, Ty); 7] = [
    ("BOOL", Ty::Bool),
    ("BYTE", Ty::Byte),
    ("WORD", Ty::Word),
    ("DWORD", Ty::Dword),
    ("INT", Ty::Int),
    ("DINT", Ty::Dint),
    ("TIME", Ty::Time),
];

pub fn type_of(word: &str) -> Ty {
    for entry in &TYPES {
        if entry.0 == word {
            return entry.1;
        }
    }
    Ty::Bool
}

pub fn type_word(ty: Ty) -> &'static str {
    for entry in &TYPES {
        if entry.1 == ty {
            return entry.0;
        }
    }
    "?"
}

/// The numbers of a text, which has blanks between them.
fn numbers(alloc: Global, text: &str) -> Result<Vec<u32>, AllocError> {
    let mut out = Vec::new(alloc);
    for part in text.split(' ') {
        if let Ok(n) = part.parse::<u32>() {
            out.push(n)?;
        }
    }
    Ok(out)
}

/// The numbers of a text with their values.
fn bindings(alloc: Global, text: &str) -> Result<Vec<(u32, i128)>, AllocError> {
    let mut out = Vec::new(alloc);
    for part in text.split(' ') {
        let (number, value) = part.split_once('=').unwrap_or((part, ""));
        if let (Ok(n), Ok(v)) = (number.parse::<u32>(), value.parse::<i128>()) {
            out.push((n, v))?;
        }
    }
    Ok(out)
}

/// What the row's case says: its parameters and what is bound, by the numbers of cells.
pub fn view_of(row: Row<'_>, told: &mut Told) -> CaseView {
    let alloc = told.alloc();
    let params = numbers(alloc, said(row, "params", told).as_str());
    let bound = bindings(alloc, said(row, "bound", told).as_str());
    if params.is_err() || bound.is_err() {
        told.lose();
    }
    CaseView {
        entry: 0,
        params: params.unwrap_or(Vec::new(alloc)),
        bound: bound.unwrap_or(Vec::new(alloc)),
        loop_bound: 1,
    }
}

/// Whether a case may say this of so many cells.
pub fn fits(view: &CaseView, len: usize) -> bool
    ensures params { IsTrue result → All (λ n. n < len) view.now.params.items }
    ensures bound { IsTrue result → All (λ b. b.0 < len) view.now.bound.items }
{
    view.params.iter().all(|n| (*n as usize) < len)
        && view.bound.iter().all(|b| (b.0 as usize) < len)
}
