//! Blocks of the first form with their Boolean programs, and the step circuits of these.
use crate::reading::{blocks_of, expression_of, number_of, said};
use pv_bool::{Bit, BitRole, Program, Term};
use pv_bool_form::{first_form, is_first_block, is_first_requirement};
use pv_circuit::StepCircuit;
use pv_gate::{GateFault, Gates};
use pv_rows_form::{Row, Told};
use pv_step::circuit;
use pv_tree::{Block, Expr};
use pv_types::{MAX_LEAVES, are_at_most};
use std::alloc::{AllocError, Global};

/// The bit of this number.
fn bit_at(bits: &[bool], n: u32) -> bool {
    match bits.get(n as usize) {
        Some(bit) => *bit,
        None => false,
    }
}

/// The value of a term.
fn value_of(term: &Term, bits: &[bool]) -> bool {
    match term {
        Term::Constant(value) => *value,
        Term::Load(n) => bit_at(bits, *n),
        Term::Not(t) => !value_of(t, bits),
        Term::And(s, t) => value_of(s, bits) && value_of(t, bits),
        Term::Or(s, t) => value_of(s, bits) || value_of(t, bits),
    }
}

/// Runs the assignments of a program.
fn run(program: &Program, bits: &mut [bool]) {
    for assignment in program.body.as_slice() {
        let value = value_of(&assignment.value, bits);
        let target = assignment.target as usize;
        if target < bits.len() {
            bits[target] = value;
        }
    }
}

/// The bits of a text.
fn bits_of(alloc: Global, text: &str) -> Result<Vec<bool>, AllocError> {
    let mut bits = Vec::new(alloc);
    for &byte in text.as_bytes() {
        bits.push(byte == b'1')?;
    }
    Ok(bits)
}

fn tell_bit(bit: bool, told: &mut Told) {
    told.text(if bit { "1" } else { "0" });
}

/// The bits at the end of a scan that begins with these, and the requirement's value.
fn tell_scan(program: &Program, begin: &str, told: &mut Told) {
    let Ok(made) = bits_of(told.alloc(), begin) else {
        return told.lose();
    };
    let mut bits = made;
    run(program, bits.as_mut_slice());
    told.text(" ");
    for &bit in bits.as_slice() {
        tell_bit(bit, told);
    }
    tell_bit(value_of(&program.holds, bits.as_slice()), told);
}

/// The letter of a bit that begins as 0: `i` for an input, `k` for one that is kept.
fn letter_of(bit: Bit) -> &'static str {
    match (bit.role, bit.start) {
        (BitRole::Input, false) => "i",
        (BitRole::Kept, false) => "k",
        _ => "1",
    }
}

fn tell_bits(program: &Program, told: &mut Told) {
    told.text(" ");
    if program.bits.len() > 100 {
        return told.number(program.bits.len() as i128);
    }
    for bit in program.bits.as_slice() {
        told.text(letter_of(*bit));
    }
}

/// A program's bits, and its scans.
fn tell_program(program: &Program, scans: &str, told: &mut Told) {
    tell_bits(program, told);
    for begin in scans.split(' ') {
        if begin != "-" {
            tell_scan(program, begin.trim_matches('.'), told);
        }
    }
}

fn tell_is(is: Result<bool, AllocError>, told: &mut Told) {
    match is {
        Ok(true) => told.text("y"),
        Ok(false) => told.text("n"),
        Err(_) => told.lose(),
    }
}

/// Whether a block and a requirement are of the first form, as `y` or `n` each.
fn tell_both(block: &Block, a: &Expr, told: &mut Told) {
    tell_is(is_first_block(told.alloc(), block), told);
    if !are_at_most(block.interface.vars.as_slice(), MAX_LEAVES) {
        return told.text("n");
    }
    tell_is(is_first_requirement(told.alloc(), block, a), told);
}

/// Both, and the program where there is one.
fn tell_block(block: &Block, a: &Expr, scans: &str, told: &mut Told) {
    tell_both(block, a, told);
    match first_form(told.alloc(), block, a) {
        Ok(Some(program)) => {
            tell_program(&program, scans, told);
            drop(program);
        }
        Ok(None) => {}
        Err(_) => told.lose(),
    }
}

/// Whether the first block of the row's source and its expression are of the first form; the program's bits, and the end of each scan.
pub fn tell_form(row: Row<'_>, told: &mut Told) {
    let scans = said(row, "scans", told);
    let text = said(row, "expression", told);
    let blocks = blocks_of(row, told);
    if let Some(a) = expression_of(text.as_str(), told) {
        match blocks.as_slice().first() {
            Some(block) => tell_block(block, &a, scans.as_str(), told),
            None => told.text("no block"),
        }
        drop(a);
    }
    drop(blocks);
}

/// The nodes of a circuit but the first.
fn tell_nodes(gates: &Gates, told: &mut Told) {
    let mut between = "";
    for n in 1..gates.nodes() {
        told.text(between);
        told.words(&gates.node(n + 1));
        between = " ";
    }
}

fn tell_literals(literals: &[i32], told: &mut Told) {
    told.text(" /");
    for literal in literals {
        told.text(" ");
        told.number(i128::from(*literal));
    }
}

/// A circuit: its nodes, the literals of its inputs and of its state before and after, and those of the requirement, kept and not.
fn tell_step(step: &StepCircuit, told: &mut Told) {
    tell_nodes(&step.gates, told);
    tell_literals(step.input.as_slice(), told);
    tell_literals(step.state_in.as_slice(), told);
    tell_literals(step.state_out.as_slice(), told);
    tell_literals(&[step.ok, step.fail], told);
}

/// A program's step circuit within so many gates.
fn tell_within(program: &Program, limit: u32, told: &mut Told) {
    if program.bits.len() > 100 || limit > 100 {
        return;
    }
    match circuit(told.alloc(), program, limit) {
        Ok(step) => tell_step(&step, told),
        Err(GateFault::Limit) => told.text("limit"),
        Err(GateFault::NoMemory) => told.lose(),
    }
}

/// The step circuit of a block and a requirement of the first form.
fn tell_first(block: &Block, a: &Expr, limit: u32, told: &mut Told) {
    match first_form(told.alloc(), block, a) {
        Ok(Some(program)) => {
            tell_within(&program, limit, told);
            drop(program);
        }
        Ok(None) => told.text("not of the first form"),
        Err(_) => told.lose(),
    }
}

/// The step circuit of the first block of the row's source and its expression.
pub fn tell_circuit(row: Row<'_>, told: &mut Told) {
    let limit = number_of(said(row, "limit", told).as_str());
    let text = said(row, "expression", told);
    let blocks = blocks_of(row, told);
    if let Some(a) = expression_of(text.as_str(), told) {
        if let Some(block) = blocks.as_slice().first() {
            tell_first(block, &a, limit, told);
        }
        drop(a);
    }
    drop(blocks);
}
