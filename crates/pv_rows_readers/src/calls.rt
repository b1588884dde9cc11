//! What reads a row's text.
use crate::blocks::{tell_blocks, tell_bodies};
use crate::cases::tell_case;
use crate::fits::{tell_entry, tell_inputs};
use crate::kinds::{tell_kinds, tell_outside};
use crate::trees::{View, tell_expr, tell_fault};
use pv_lex::{Language, MAX_SOURCE, Token, tokens};
use pv_rows_form::{Calls, Row, Told, last};
use pv_tree::Block;

/// What may stand at the beginning of a line that is no row.
pub const NAMES: [&str; 6] = ["#", "call ", "front", "back", "before", "full"];

/// The readers of sources and of cases.
pub struct Readers;

/// The row's text between those of its settings.
fn text_of(row: Row<'_>, told: &mut Told) -> Vec<u8> {
    let mut text = row.setting("front", told);
    let mut middle = row.bytes(0, told);
    let mut back = row.setting("back", told);
    if text.append(&mut middle).is_err() || text.append(&mut back).is_err() {
        told.lose();
    }
    text
}

/// How the row shows trees.
fn view_of(row: Row<'_>) -> View {
    let before = last(row.head, "before").unwrap_or("");
    View {
        full: last(row.head, "full").is_some(),
        before: before.parse::<u32>().unwrap_or(0),
    }
}

/// The tokens of a text, if it is cut to the end.
fn cut(language: Language, bytes: &[u8], told: &mut Told) -> Vec<Token> {
    let alloc = told.alloc();
    if bytes.len() > MAX_SOURCE {
        return Vec::new(alloc);
    }
    match tokens(alloc, 0, language, bytes) {
        Ok(all) => all,
        Err(fault) => {
            told.words(&fault);
            Vec::new(alloc)
        }
    }
}

/// Blocks: `blocks` shows them, `bodies` their statements and instructions, `reads` that they read.
fn tell_read(call: &str, view: View, blocks: &[Block], told: &mut Told) {
    match call {
        "blocks" => tell_blocks(view, blocks, told),
        "bodies" => tell_bodies(view, blocks, told),
        _ => told.text("reads"),
    }
}

fn read_scl(call: &str, view: View, bytes: &[u8], told: &mut Told) {
    if bytes.len() > MAX_SOURCE {
        return;
    }
    match tokens(told.alloc(), 0, Language::Scl, bytes) {
        Ok(all) => match pv_scl_parse::parse(told.alloc(), bytes, all.as_slice()) {
            Ok(blocks) => {
                tell_read(call, view, blocks.list.as_slice(), told);
                drop(blocks);
            }
            Err(fault) => tell_fault(view, fault, told),
        },
        Err(fault) => told.words(&fault),
    }
}

fn read_stl(call: &str, view: View, bytes: &[u8], told: &mut Told) {
    if bytes.len() > MAX_SOURCE {
        return;
    }
    match tokens(told.alloc(), 0, Language::Stl, bytes) {
        Ok(all) => match pv_stl_parse::parse(told.alloc(), bytes, all.as_slice()) {
            Ok(blocks) => {
                tell_read(call, view, blocks.list.as_slice(), told);
                drop(blocks);
            }
            Err(fault) => tell_fault(view, fault, told),
        },
        Err(fault) => told.words(&fault),
    }
}

fn read_expression(call: &str, view: View, bytes: &[u8], told: &mut Told) {
    if bytes.len() > MAX_SOURCE {
        return;
    }
    match tokens(told.alloc(), 0, Language::Scl, bytes) {
        Ok(all) => match pv_scl_parse::expression(told.alloc(), bytes, all.as_slice()) {
            Ok(tree) => {
                if call == "reads" {
                    told.text("reads");
                } else {
                    tell_expr(view, &tree, told);
                }
                drop(tree);
            }
            Err(fault) => tell_fault(view, fault, told),
        },
        Err(fault) => told.words(&fault),
    }
}

/// Answers a text of a language.
fn read_text(call: &str, language: Language, view: View, bytes: &[u8], told: &mut Told) {
    match call {
        "kinds" => {
            let all = cut(language, bytes, told);
            tell_kinds(bytes, all.as_slice(), told);
        }
        "outside" => {
            let all = cut(language, bytes, told);
            tell_outside(language, bytes, all.as_slice(), told);
        }
        _ => match language {
            Language::Scl => read_scl(call, view, bytes, told),
            Language::Stl => read_stl(call, view, bytes, told),
        },
    }
}

impl Calls for Readers {
    fn answer(&self, row: Row<'_>, told: &mut Told) {
        let bytes = text_of(row, told);
        let said = last(row.head, "call ").unwrap_or("");
        let (call, what) = said.split_once(' ').unwrap_or((said, ""));
        match what {
            "case" => tell_case(bytes.as_slice(), told),
            "entry" => tell_entry(bytes.as_slice(), told),
            "inputs" => tell_inputs(bytes.as_slice(), told),
            "expression" => read_expression(call, view_of(row), bytes.as_slice(), told),
            "stl" => read_text(call, Language::Stl, view_of(row), bytes.as_slice(), told),
            _ => read_text(call, Language::Scl, view_of(row), bytes.as_slice(), told),
        }
    }
}
