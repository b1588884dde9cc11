//! Reads and writes of what an operand names. An index is a variable's number behind `v`, its bounds and how many cells an element takes.
use crate::reading::type_of;
use crate::terms::{field_of, number_in, tell_term, word_at};
use pv_access::{Check, Move, Storage, Writing, push_read, push_unset, push_write};
use pv_flow::{Node, Set};
use pv_place::Place;
use pv_rows_form::{Row, Told};
use pv_terms::{TermFault, push_variable};
use pv_word::Ty;
use std::alloc::Global;

/// What a row asks: what is read or written, of which type, the indexes and what is put.
#[derive(Clone, Copy)]
struct Asked<'a> {
    ty: Ty,
    storage: &'a str,
    moves: &'a str,
    value: &'a str,
}

/// What is pushed.
#[derive(Drop)]
struct Pushed {
    nodes: Vec<Node>,
    moves: Vec<Move>,
    sets: Vec<Set>,
    checks: Vec<Check>,
}

fn nothing(alloc: Global) -> Pushed {
    Pushed {
        nodes: Vec::new(alloc),
        moves: Vec::new(alloc),
        sets: Vec::new(alloc),
        checks: Vec::new(alloc),
    }
}

/// What is read or written, by its kind, its type and up to two numbers.
fn storage_of(text: &str) -> Storage {
    let ty = type_of(word_at(text, 1));
    let first = number_in(word_at(text, 2));
    let second = number_in(word_at(text, 3));
    match word_at(text, 0) {
        "cell" => Storage::Cell(ty, first),
        "brief" => Storage::Brief(ty, first),
        "bit" => Storage::Bit(first, second),
        "bytes" => Storage::Bytes(ty, first, second),
        "fixed" => Storage::Fixed(i128::from(first)),
        _ => Storage::Nowhere,
    }
}

/// The term of a variable, `v` and its number.
fn push_named(nodes: &mut Vec<Node>, word: &str) -> Result<u32, TermFault> {
    push_variable(nodes, number_in(word.strip_prefix("v").unwrap_or("")))
}

fn push_move(nodes: &mut Vec<Node>, moves: &mut Vec<Move>, text: &str) -> Result<(), TermFault> {
    let index = push_named(nodes, word_at(text, 0))?;
    moves.push(Move {
        index,
        low: word_at(text, 1).parse::<i128>().unwrap_or(0),
        high: word_at(text, 2).parse::<i128>().unwrap_or(0),
        stride: number_in(word_at(text, 3)),
    })?;
    Ok(())
}

fn push_moves(nodes: &mut Vec<Node>, moves: &mut Vec<Move>, text: &str) -> Result<(), TermFault> {
    for one in text.split(',') {
        if one != "" {
            push_move(nodes, moves, one.trim())?;
        }
    }
    Ok(())
}

/// What is put: a variable, or `where` one that is true another.
fn push_writing(nodes: &mut Vec<Node>, text: &str) -> Result<Writing, TermFault> {
    if word_at(text, 0) != "where" {
        return Ok(Writing::Assign(push_named(nodes, word_at(text, 0))?));
    }
    let on = push_named(nodes, word_at(text, 1))?;
    let value = push_named(nodes, word_at(text, 2))?;
    Ok(Writing::Where(on, value))
}

// ---- what is told

/// The term, and how many nodes the table has.
fn tell_read(pushed: &Pushed, n: u32, told: &mut Told) {
    tell_term(pushed.nodes.as_slice(), n, 20, told);
    told.text("; nodes ");
    told.number(pushed.nodes.len() as i128);
}

fn tell_set(nodes: &[Node], set: &Set, told: &mut Told) {
    told.text("v");
    told.number(i128::from(set.variable));
    told.text(" := ");
    tell_term(nodes, set.value, 20, told);
}

fn tell_sets(pushed: &Pushed, told: &mut Told) {
    let mut between = "";
    for set in &pushed.sets {
        told.text(between);
        tell_set(pushed.nodes.as_slice(), set, told);
        between = ", ";
    }
    told.text("; nodes ");
    told.number(pushed.nodes.len() as i128);
}

fn tell_checks(pushed: &Pushed, told: &mut Told) {
    told.text("checks");
    for check in &pushed.checks {
        told.text(" ");
        tell_term(pushed.nodes.as_slice(), check.term, 20, told);
    }
}

// ---- what is asked

fn push_read_of(pushed: &mut Pushed, row: &Asked<'_>) -> Result<u32, TermFault> {
    push_moves(&mut pushed.nodes, &mut pushed.moves, row.moves)?;
    push_read(
        &mut pushed.nodes,
        row.ty,
        storage_of(row.storage),
        pushed.moves.as_slice(),
    )
}

fn push_unset_of(pushed: &mut Pushed, row: &Asked<'_>) -> Result<(), TermFault> {
    push_moves(&mut pushed.nodes, &mut pushed.moves, row.moves)?;
    push_unset(
        &mut pushed.nodes,
        &mut pushed.checks,
        storage_of(row.storage),
        pushed.moves.as_slice(),
        Place { file: 0, offset: 0 },
    )
}

fn push_write_of(alloc: Global, pushed: &mut Pushed, row: &Asked<'_>) -> Result<(), TermFault> {
    push_moves(&mut pushed.nodes, &mut pushed.moves, row.moves)?;
    let writing = push_writing(&mut pushed.nodes, row.value)?;
    push_write(
        alloc,
        &mut pushed.nodes,
        &mut pushed.sets,
        storage_of(row.storage),
        pushed.moves.as_slice(),
        writing,
    )
}

fn tell_asked(word: &str, pushed: &mut Pushed, asked: &Asked<'_>, told: &mut Told) {
    match word {
        "reads" => match push_read_of(pushed, asked) {
            Ok(n) => tell_read(pushed, n, told),
            Err(fault) => told.words(&fault),
        },
        "unset" => match push_unset_of(pushed, asked) {
            Ok(()) => tell_checks(pushed, told),
            Err(fault) => told.words(&fault),
        },
        _ => match push_write_of(told.alloc(), pushed, asked) {
            Ok(()) => tell_sets(pushed, told),
            Err(fault) => told.words(&fault),
        },
    }
}

/// What the row's read or write becomes.
pub fn tell_accesses(word: &str, row: Row<'_>, told: &mut Told) {
    let storage = field_of(row, 0, told);
    let moves = field_of(row, 1, told);
    let value = field_of(row, 2, told);
    let asked = Asked {
        ty: type_of(word_at(storage.as_str(), 1)),
        storage: storage.as_str(),
        moves: moves.as_str(),
        value: value.as_str(),
    };
    let mut pushed = nothing(told.alloc());
    tell_asked(word, &mut pushed, &asked, told);
}
