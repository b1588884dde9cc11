//! Texts of requirements that are at fault, and the addresses that texts name.
use crate::reading::{number_of, operands_of, project_of, said};
use pv_cells::Table;
use pv_lex::MAX_SOURCE;
use pv_names::{Entry, Scope, Tables, entries};
use pv_pattern_read::{TextFault, named_in, said as asked};
use pv_rows_form::{Row, Told, expanded};
use pv_tree::{Operand, Project, Root};
use std::alloc::{AllocError, Global};

/// The letter of the text of this number.
fn letter(number: usize) -> &'static str {
    match number {
        0 => " a",
        1 => " b",
        _ => " c",
    }
}

/// The fields of a row.
fn texts_of(alloc: Global, row: &str) -> Result<Vec<String>, AllocError> {
    let mut texts = Vec::new(alloc);
    for field in row.split('|') {
        let bytes = expanded(alloc, field.trim(), "")?;
        texts.push(String::from_utf8(bytes).unwrap_or(String::new(alloc)))?;
    }
    Ok(texts)
}

/// The values of a text.
pub fn values(text: &str, told: &mut Told) -> Vec<i128> {
    let mut out = Vec::new(told.alloc());
    for part in text.split(' ') {
        if let Ok(n) = part.parse::<i128>() {
            if out.push(n).is_err() {
                told.lose();
            }
        }
    }
    out
}

fn tell_fault(fault: TextFault, told: &mut Told) {
    match fault {
        TextFault::Unread => told.text("Text"),
        TextFault::Broken(rule) => {
            told.text("Rule ");
            told.number(i128::from(rule.number()));
        }
        TextFault::BriefCell => told.text("BriefCell"),
        TextFault::NotBool => told.text("NotBool"),
        TextFault::NoMemory => told.lose(),
    }
}

/// The first of the texts that is at fault, and how.
fn tell_first(scope: &Scope, texts: &[String], told: &mut Told) {
    for (number, text) in texts.iter().enumerate() {
        if text.len() > MAX_SOURCE {
            return;
        }
        match asked(scope, told.alloc(), text.as_str()) {
            Ok(e) => drop(e),
            Err(fault) => {
                tell_fault(fault, told);
                return told.text(letter(number));
            }
        }
    }
    told.text("no fault");
}

/// The same over the names of the block of this number in these tables.
fn tell_of(tables: &Tables, entry: u32, texts: &[String], told: &mut Told) {
    if let Some(entry) = tables.entries().get(entry as usize) {
        let scope = Scope { tables, entry };
        tell_first(&scope, texts, told);
    }
}

/// The same, where each block of the project has its table.
fn tell_among(
    all: &[Entry],
    project: &Project,
    entry: u32,
    texts: &[String],
    told: &mut Told,
) -> Result<(), AllocError> {
    let tables = Tables::of(told.alloc(), all, project.symbols())?;
    tell_of(&tables, entry, texts, told);
    Ok(())
}

/// The same over the names of the block of this number.
fn tell_texts(
    project: &Project,
    entry: u32,
    texts: &[String],
    told: &mut Told,
) -> Result<(), AllocError> {
    let all = entries(told.alloc(), project.blocks().list.as_slice())?;
    tell_among(all.as_slice(), project, entry, texts, told)
}

/// The cells of a project with those that the row names besides.
pub fn table_of(
    project: &Project,
    entry: u32,
    named: &[Operand],
    told: &mut Told,
) -> Option<Table> {
    if entry as usize >= project.blocks().list.len() {
        return None;
    }
    match Table::of(told.alloc(), project, entry, named) {
        Ok(table) => Some(table),
        Err(fault) => {
            told.words(&fault);
            None
        }
    }
}

fn tell_over(row: Row<'_>, project: &Project, told: &mut Told) -> Result<(), AllocError> {
    let entry = number_of(said(row, "entry", told).as_str());
    let texts = texts_of(told.alloc(), row.text)?;
    tell_texts(project, entry, texts.as_slice(), told)
}

/// Which of the row's texts is at fault first, as those of a requirement over the names of a block, and how.
pub fn tell_faults(row: Row<'_>, told: &mut Told) {
    if let Some(project) = project_of(row, told) {
        if tell_over(row, &project, told).is_err() {
            told.lose();
        }
        drop(project);
    }
}

/// An address, and how many steps stand behind it.
fn tell_address(operand: &Operand, told: &mut Told) {
    if let Root::Area {
        area,
        bits,
        byte,
        bit,
    } = &*operand.root
    {
        told.words(area);
        told.text(" ");
        told.number(i128::from(*bits));
        told.text(" ");
        told.number(i128::from(*byte));
        told.text(" ");
        told.number(i128::from(*bit));
    } else {
        told.text("a name");
    }
    if !operand.steps.is_empty() {
        told.text(" with steps");
    }
    told.text("; ");
}

/// The addresses that the row's texts name: area, bits, byte and bit.
pub fn tell_named(row: Row<'_>, told: &mut Told) {
    let Ok(texts) = texts_of(told.alloc(), row.text) else {
        return told.lose();
    };
    if !texts.iter().all(|t| t.len() <= MAX_SOURCE) {
        return;
    }
    match named_in(told.alloc(), texts.as_slice()) {
        Ok(named) => {
            for operand in named.as_slice() {
                tell_address(operand, told);
            }
        }
        Err(_) => told.lose(),
    }
}
