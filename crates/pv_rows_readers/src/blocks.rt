//! Blocks as rows show them.
use crate::statements::{tell_instr, tell_list};
use crate::trees::{View, tell_literal, tell_name, tell_operand, tell_place, ty_word};
use pv_place::Place;
use pv_rows_form::Told;
use pv_tree::{Block, BlockKind, Body};
use pv_types::{DeclType, Literal, Name, Section, Vars};

fn tell_named(view: View, name: &Name, place: Place, told: &mut Told) {
    tell_name(view, name, told);
    tell_place(view, place, told);
}

fn tell_start(view: View, literal: &Literal, told: &mut Told) {
    tell_literal(view, literal, told);
    tell_place(view, literal.place, told);
}

fn section_word(section: Section) -> &'static str {
    match section {
        Section::Input => "i ",
        Section::Output => "o ",
        Section::InOut => "x ",
        Section::Static => "s ",
        Section::Temp => "t ",
        Section::Const => "c ",
    }
}

#[cycle(typing)]
fn tell_type(view: View, ty: &DeclType, told: &mut Told) {
    match ty {
        DeclType::Plain(ty) => told.text(ty_word(*ty)),
        DeclType::Array {
            low,
            high,
            of,
            place,
        } => {
            told.text("ARRAY");
            tell_place(view, *place, told);
            told.text("[");
            told.number(*low);
            told.text(",");
            told.number(*high);
            told.text("]");
            tell_type(view, of, told);
        }
        DeclType::Struct(vars) => {
            told.text("{");
            tell_vars(view, vars.as_slice(), told);
            told.text("}");
        }
        DeclType::Named(name, place) => {
            told.text("<");
            tell_named(view, name, *place, told);
            told.text(">");
        }
        DeclType::Unread => told.text("DT"),
    }
}

#[cycle(typing)]
fn tell_var(view: View, word: &(Name, Place), of: &Vars, told: &mut Told) {
    told.text(section_word(of.section));
    tell_named(view, &word.0, word.1, told);
    told.text(":");
    tell_type(view, &of.ty, told);
    if let Some(start) = &of.start {
        told.text("=");
        tell_start(view, start, told);
    }
    told.text(" ");
}

#[cycle(typing)]
fn tell_words(view: View, of: &Vars, told: &mut Told) {
    for word in &of.names {
        tell_var(view, word, of, told);
    }
}

#[cycle(typing)]
fn tell_vars(view: View, vars: &[Vars], told: &mut Told) {
    for of in vars {
        tell_words(view, of, told);
    }
}

/// The kind of a block, with the type of a data block that has one.
fn tell_kind(view: View, kind: &BlockKind, told: &mut Told) {
    match kind {
        BlockKind::Fb => told.text("FB"),
        BlockKind::Fc => told.text("FC"),
        BlockKind::Ob => told.text("OB"),
        BlockKind::Db { of: None } => told.text("DB"),
        BlockKind::Db {
            of: Some((name, place)),
        } => {
            told.text("DB of ");
            tell_named(view, name, *place, told);
        }
        BlockKind::Udt => told.text("UDT"),
    }
}

fn tell_body(view: View, body: &Body, told: &mut Told) {
    match body {
        Body::Scl(list) => {
            told.text("[");
            told.number(list.len() as i128);
            told.text("]");
        }
        Body::Stl(list) => {
            told.text("[");
            for instr in list.as_slice() {
                tell_instr(view, instr, told);
            }
            told.text("]");
        }
        Body::Starts(list) => {
            told.text("(");
            for (path, literal) in list.as_slice() {
                tell_operand(view, path, told);
                told.text(" ");
                tell_start(view, literal, told);
                told.text(" ");
            }
            told.text(")");
        }
    }
}

fn tell_block(view: View, block: &Block, told: &mut Told) {
    tell_kind(view, &block.kind, told);
    told.text(" ");
    tell_named(view, &block.name, block.place, told);
    told.text(" ");
    told.text(match block.interface.value {
        Some(ty) => ty_word(ty),
        None => "-",
    });
    told.text(" (");
    tell_vars(view, block.interface.vars.as_slice(), told);
    told.text(") ");
    tell_body(view, &block.body, told);
}

/// Blocks one after another: each with its kind, name, type of the value, and variables; then how many statements it has, its
/// instructions, or its values.
pub fn tell_blocks(view: View, blocks: &[Block], told: &mut Told) {
    for block in blocks {
        tell_block(view, block, told);
    }
}

/// The statements or instructions of blocks.
pub fn tell_bodies(view: View, blocks: &[Block], told: &mut Told) {
    for block in blocks {
        match &block.body {
            Body::Scl(list) => tell_list(view, list.as_slice(), told),
            Body::Stl(list) => {
                for instr in list.as_slice() {
                    tell_instr(view, instr, told);
                }
            }
            Body::Starts(_) => told.text("values"),
        }
    }
}
