//! What settings are read as.
use pv_lex::{Language, MAX_SOURCE, tokens};
use pv_rows_form::{Row, Told};
use pv_rules::check;
use pv_rules_decl::RuleFault;
use pv_scl_parse::{expression, parse};
use pv_stl_parse::parse as parse_stl;
use pv_tree::{Block, Blocks, Expr, Operand, Project};
use pv_types::Name;
use pv_word::Ty;

/// The setting of this name as a text.
pub fn said(row: Row<'_>, name: &str, told: &mut Told) -> String {
    let alloc = told.alloc();
    String::from_utf8(row.setting(name, told)).unwrap_or(String::new(alloc))
}

/// The number that a text begins with.
pub fn number_of(text: &str) -> u32 {
    text.trim().parse::<u32>().unwrap_or(255)
}

/// The blocks of SCL that a text reads as; else the fault is told.
fn scl_blocks(bytes: &[u8], told: &mut Told) -> Vec<Block> {
    let alloc = told.alloc();
    if bytes.len() > MAX_SOURCE {
        return Vec::new(alloc);
    }
    match tokens(alloc, 0, Language::Scl, bytes) {
        Ok(cut) => match parse(alloc, bytes, cut.as_slice()) {
            Ok(Blocks { list }) => list,
            Err(fault) => {
                told.words(&fault);
                Vec::new(alloc)
            }
        },
        Err(fault) => {
            told.words(&fault);
            Vec::new(alloc)
        }
    }
}

/// The same of STL.
fn stl_blocks(bytes: &[u8], told: &mut Told) -> Vec<Block> {
    let alloc = told.alloc();
    if bytes.len() > MAX_SOURCE {
        return Vec::new(alloc);
    }
    match tokens(alloc, 0, Language::Stl, bytes) {
        Ok(cut) => match parse_stl(alloc, bytes, cut.as_slice()) {
            Ok(Blocks { list }) => list,
            Err(fault) => {
                told.words(&fault);
                Vec::new(alloc)
            }
        },
        Err(fault) => {
            told.words(&fault);
            Vec::new(alloc)
        }
    }
}

/// The blocks of the row's source, which has some of STL, and after `$` some of SCL; without `$` all are of SCL.
pub fn blocks_of(row: Row<'_>, told: &mut Told) -> Vec<Block> {
    let source = said(row, "source", told);
    let (stl, scl) = source
        .as_str()
        .split_once('$')
        .unwrap_or(("", source.as_str()));
    let mut list = stl_blocks(stl.as_bytes(), told);
    let mut more = scl_blocks(scl.as_bytes(), told);
    if list.append(&mut more).is_err() {
        told.lose();
    }
    list
}

/// The expression that a text reads as; else the fault is told.
pub fn expression_of(text: &str, told: &mut Told) -> Option<Expr> {
    let bytes = text.as_bytes();
    if bytes.len() > MAX_SOURCE {
        return None;
    }
    match tokens(told.alloc(), 0, Language::Scl, bytes) {
        Ok(cut) => match expression(told.alloc(), bytes, cut.as_slice()) {
            Ok(tree) => Some(tree),
            Err(fault) => {
                told.words(&fault);
                None
            }
        },
        Err(fault) => {
            told.words(&fault);
            None
        }
    }
}

/// The operand that a text reads as.
fn operand_of(text: &str, told: &mut Told) -> Option<Operand> {
    match expression_of(text, told) {
        Some(Expr::Read(operand)) => Some(operand),
        Some(other) => {
            drop(other);
            None
        }
        None => None,
    }
}

/// The operands of a text, which has commas between them.
pub fn operands_of(text: &str, told: &mut Told) -> Vec<Operand> {
    let mut operands = Vec::new(told.alloc());
    for part in text.split(',') {
        if !part.is_empty() {
            if let Some(operand) = operand_of(part, told) {
                if operands.push(operand).is_err() {
                    told.lose();
                }
            }
        }
    }
    operands
}

const TYPES: [(&str, Ty); 7] = [
    ("BOOL", Ty::Bool),
    ("BYTE", Ty::Byte),
    ("WORD", Ty::Word),
    ("DWORD", Ty::Dword),
    ("INT", Ty::Int),
    ("DINT", Ty::Dint),
    ("TIME", Ty::Time),
];

fn type_of(word: &str) -> Ty {
    for entry in &TYPES {
        if entry.0 == word {
            return entry.1;
        }
    }
    Ty::Bool
}

pub fn type_word(ty: Ty) -> &'static str {
    for entry in &TYPES {
        if entry.1 == ty {
            return entry.0;
        }
    }
    "?"
}

/// The symbol of a text: the quoted name, the type and the address, with a blank between them.
fn symbol_of(text: &str, told: &mut Told) -> Option<(Name, Operand, Ty)> {
    let (name, more) = text.split_once(' ').unwrap_or((text, ""));
    let (word, at) = more.split_once(' ').unwrap_or((more, ""));
    let operand = operand_of(at, told)?;
    match Name::quoted(told.alloc(), name.as_bytes()) {
        Ok(name) => Some((name, operand, type_of(word))),
        Err(_) => {
            told.lose();
            None
        }
    }
}

/// The symbols of the row, which has commas between them.
fn symbols_of(row: Row<'_>, told: &mut Told) -> Vec<(Name, Operand, Ty)> {
    let text = said(row, "symbols", told);
    let mut symbols = Vec::new(told.alloc());
    for part in text.as_str().split(',') {
        if !part.is_empty() {
            if let Some(symbol) = symbol_of(part, told) {
                if symbols.push(symbol).is_err() {
                    told.lose();
                }
            }
        }
    }
    symbols
}

/// The project of the row's source and symbols; else the first rule that they break, with its place, is told.
pub fn project_of(row: Row<'_>, told: &mut Told) -> Option<Project> {
    let list = blocks_of(row, told);
    let symbols = symbols_of(row, told);
    match check(told.alloc(), Blocks { list }, symbols) {
        Ok(project) => Some(project),
        Err(fault) => {
            tell_broken(fault, told);
            None
        }
    }
}

/// The rule that is broken, with its place.
pub fn tell_broken(fault: RuleFault, told: &mut Told) {
    match fault {
        RuleFault::Broken(breach) => {
            told.number(i128::from(breach.rule.number()));
            told.text(" at ");
            told.number(i128::from(breach.place.offset));
        }
        RuleFault::NoMemory => told.lose(),
    }
}
