//! Circuits, step by step. A literal is the number of a node, with a minus where it is the complement; words have `:` between them.
ghost use Rattle.std.specs.Prelude.{◌≡◌, ◌≤◌, length, All, IfOk};
ghost use Rattle.pv_gate.specs.Node.{Names};

use crate::clauses::first_number;
use pv_bits::{
    adder, difference_overflow, divide, equal, less, multiply, product_overflow, select, shift,
    subtract, sum_overflow,
};
use pv_gate::{FALSE, GateFault, Gates, Literals, make};
use pv_rows_form::Told;
use std::alloc::{AllocError, Global};

/// The literals of a text that name nodes.
fn word(gates: &Gates, said: &str, alloc: Global) -> Result<Vec<i32>, AllocError>
    ensures { IfOk result (λ word. All (Names (length gates.now.nodes)) word.items) }
{
    let most = gates.nodes();
    let mut word = Vec::new(alloc);
    for text in said.split(' ') {
        let literal = text.parse::<i32>().unwrap_or(0);
        let number = literal.unsigned_abs();
        if number >= 1 && number <= most {
            word.push(literal)?;
        }
    }
    Ok(word)
}

fn tell_fault(fault: GateFault, told: &mut Told) {
    match fault {
        GateFault::Limit => told.text("limit"),
        GateFault::NoMemory => told.lose(),
    }
}

fn tell_literal(made: Result<i32, GateFault>, told: &mut Told) {
    match made {
        Ok(literal) => told.number(i128::from(literal)),
        Err(fault) => tell_fault(fault, told),
    }
}

fn tell_bits(word: &Literals, told: &mut Told) {
    let mut between = "";
    for literal in word.as_slice() {
        told.text(between);
        told.number(i128::from(*literal));
        between = " ";
    }
}

fn tell_word(made: Result<Literals, GateFault>, told: &mut Told) {
    match made {
        Ok(word) => tell_bits(&word, told),
        Err(fault) => tell_fault(fault, told),
    }
}

/// A quotient and a remainder.
fn tell_both(made: Result<(Literals, Literals), GateFault>, told: &mut Told) {
    match made {
        Ok((quotient, remainder)) => {
            tell_bits(&quotient, told);
            told.text(" and ");
            tell_bits(&remainder, told);
        }
        Err(fault) => tell_fault(fault, told),
    }
}

/// Another input.
fn tell_input(gates: &mut Gates, told: &mut Told) {
    if gates.nodes() < 1_000_000 {
        tell_literal(gates.input(), told);
    }
}

/// The node of this number.
fn tell_node(gates: &Gates, number: &[i32], told: &mut Told)
    requires { All (Names (length gates.now.nodes)) number.now }
{
    if !number.is_empty() {
        told.words(&gates.node(number[0].unsigned_abs()));
    }
}

/// A gate of two literals, or of three.
fn tell_gate(gates: &mut Gates, name: &str, of: &[i32], told: &mut Told)
    requires { All (Names (length gates.old.nodes)) of.now }
{
    match (name, of.len()) {
        ("and", 2) => tell_literal(gates.and(of[0], of[1]), told),
        ("xor", 2) => tell_literal(gates.xor(of[0], of[1]), told),
        ("mux", 3) => tell_literal(gates.mux(of[0], of[1], of[2]), told),
        _ => told.text("no such gate"),
    }
}

/// The second word where the first literal is true, else the third.
fn tell_choice(gates: &mut Gates, by: &[i32], a: &[i32], b: &[i32], told: &mut Told)
    requires by { All (Names (length gates.old.nodes)) by.now }
    requires first { All (Names (length gates.old.nodes)) a.now }
    requires second { All (Names (length gates.old.nodes)) b.now }
{
    if !by.is_empty() && a.len() == b.len() {
        tell_word(select(told.alloc(), gates, by[0], a, b), told);
    }
}

/// Where a sum, a difference or a product is no number of its width.
fn tell_past(gates: &mut Gates, name: &str, a: &[i32], b: &[i32], told: &mut Told)
    requires same { length a.now ≡ length b.now }
    requires width { 1 ≤ length a.now }
    requires first { All (Names (length gates.old.nodes)) a.now }
    requires second { All (Names (length gates.old.nodes)) b.now }
{
    let alloc = told.alloc();
    match name {
        "sum_past" => tell_literal(sum_overflow(alloc, gates, false, a, b), told),
        "signed_sum_past" => tell_literal(sum_overflow(alloc, gates, true, a, b), told),
        "difference_past" => tell_literal(difference_overflow(alloc, gates, false, a, b), told),
        "product_past" if a.len() >= 2 => {
            tell_literal(product_overflow(alloc, gates, a, b), told)
        }
        _ => told.text("no such step"),
    }
}

/// What is made of two words.
fn tell_pair(gates: &mut Gates, name: &str, a: &[i32], b: &[i32], told: &mut Told)
    requires first { All (Names (length gates.old.nodes)) a.now }
    requires second { All (Names (length gates.old.nodes)) b.now }
{
    if a.is_empty() || a.len() != b.len() {
        return told.text("words of other widths");
    }
    let alloc = told.alloc();
    // Node 1 is there.
    let _count = gates.nodes();
    match name {
        "equal" => tell_literal(equal(gates, a, b), told),
        "less" => tell_literal(less(gates, false, a, b), told),
        "signed_less" => tell_literal(less(gates, true, a, b), told),
        "sum" => tell_word(adder(alloc, gates, a, b, FALSE), told),
        "difference" => tell_word(subtract(alloc, gates, a, b), told),
        "product" => tell_word(multiply(alloc, gates, a, b), told),
        "quotient" => tell_both(divide(alloc, gates, false, a, b), told),
        _ => tell_past(gates, name, a, b, told),
    }
}

/// What a step makes of up to three words.
fn tell_made(gates: &mut Gates, name: &str, a: &[i32], b: &[i32], c: &[i32], told: &mut Told)
    requires first { All (Names (length gates.old.nodes)) a.now }
    requires second { All (Names (length gates.old.nodes)) b.now }
    requires third { All (Names (length gates.old.nodes)) c.now }
{
    match name {
        "input" => tell_input(gates, told),
        "nodes" => told.number(i128::from(gates.nodes())),
        "node" => tell_node(gates, a, told),
        "and" | "xor" | "mux" => tell_gate(gates, name, a, told),
        "choice" => tell_choice(gates, a, b, c, told),
        "up" => tell_word(shift(told.alloc(), gates, a, true, 1), told),
        _ => tell_pair(gates, name, a, b, told),
    }
}

/// What a step answers.
fn tell_step(gates: &mut Gates, step: &str, told: &mut Told) {
    let alloc = told.alloc();
    let (name, words) = step.split_once(' ').unwrap_or((step, ""));
    let (first, more) = words.split_once(':').unwrap_or((words, ""));
    let (second, third) = more.split_once(':').unwrap_or((more, ""));
    let Ok(a) = word(gates, first, alloc) else {
        return told.lose();
    };
    let Ok(b) = word(gates, second, alloc) else {
        return told.lose();
    };
    let Ok(c) = word(gates, third, alloc) else {
        return told.lose();
    };
    tell_made(gates, name, a.as_slice(), b.as_slice(), c.as_slice(), told);
}

/// What each step of a circuit with so many gates at most answers, one after the other.
pub fn tell_circuit(limit: &str, steps: &str, told: &mut Told) {
    let limit = first_number(limit);
    if limit > 1_000_000 {
        return;
    }
    match make(told.alloc(), limit) {
        Ok(made) => {
            let mut gates = made;
            let mut is_first = true;
            for step in steps.split(',') {
                if !is_first {
                    told.text(", ");
                }
                tell_step(&mut gates, step.trim(), told);
                is_first = false;
            }
        }
        Err(_) => told.lose(),
    }
}
