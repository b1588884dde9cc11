//! What stands in registers and operands, as rows say it.
use crate::reading::{function, number, type_of};
use pv_eval::{Operand, Spot, Target};
use pv_rows_form::Told;
use pv_stl_run::{Joining, Logic, Nesting, Registers};
use pv_word::Ty;
use std::alloc::{AllocError, Global};

/// Registers and the values of x, v and w, and what else a row says.
#[derive(Clone, Copy)]
pub struct State {
    pub registers: Registers,
    pub values: [Option<i64>; 3],
    pub ty: Ty,
    pub jumps: bool,
    pub ends: bool,
}

/// As at a block's start.
pub fn fresh() -> State {
    State {
        registers: Registers::fresh(),
        values: [None; 3],
        ty: Ty::Int,
        jumps: false,
        ends: false,
    }
}

fn bit(text: &str) -> Option<bool> {
    match text {
        "1" => Some(true),
        "0" => Some(false),
        _ => None,
    }
}

fn value(text: &str) -> Option<i64> {
    if text == "-" {
        None
    } else {
        Some(number(text))
    }
}

/// The nesting of a text such as `A:110`.
fn nesting(text: &str) -> Nesting {
    let (word, bits) = text.split_once(':').unwrap_or((text, ""));
    let checked = bits.as_bytes().first() == Some(&b'1');
    let rlo = match bits.as_bytes().get(1) {
        Some(b'1') => Some(true),
        Some(b'0') => Some(false),
        _ => None,
    };
    Nesting {
        outer: Logic {
            checked,
            rlo,
            kept_or: bits.as_bytes().get(2) == Some(&b'1'),
        },
        junction: function(word),
    }
}

fn with_nestings(state: &mut State, text: &str) {
    state.registers.depth = 0;
    if text.is_empty() {
        return;
    }
    for part in text.split(',') {
        let open = state.registers.depth as usize;
        if open < 7 {
            state.registers.nestings[open] = nesting(part);
            state.registers.depth = open as u32 + 1;
        }
    }
}

fn with_codes(state: &mut State, text: &str) {
    let of = |byte: Option<&u8>| match byte {
        Some(b'1') => Some(true),
        Some(b'0') => Some(false),
        _ => None,
    };
    state.registers.codes.cc1 = of(text.as_bytes().first());
    state.registers.codes.cc0 = of(text.as_bytes().get(1));
}

/// The state with what a word says.
fn with(state: &mut State, word: &str) {
    let (name, text) = word.split_once('=').unwrap_or((word, ""));
    match name {
        "x" => state.values[0] = value(text),
        "v" => match text.split_once(':') {
            Some((ty, v)) => {
                state.ty = type_of(ty);
                state.values[1] = value(v);
            }
            None => state.values[1] = value(text),
        },
        "a1" => state.registers.accu1 = value(text),
        "a2" => state.registers.accu2 = value(text),
        "fc" => state.registers.logic.checked = text == "1",
        "rlo" => state.registers.logic.rlo = bit(text),
        "or" => state.registers.logic.kept_or = text == "1",
        "ov" => state.registers.codes.ov = bit(text),
        "cc" => with_codes(state, text),
        "st" => with_nestings(state, text),
        _ => {}
    }
}

/// The state with what words say.
pub fn with_all(state: State, words: &str) -> State {
    let mut out = state;
    for word in words.split(' ') {
        with(&mut out, word);
    }
    out
}

fn tell_bit(bit: Option<bool>, told: &mut Told) {
    match bit {
        Some(true) => told.text("1"),
        Some(false) => told.text("0"),
        None => told.text("-"),
    }
}

pub fn tell_value(value: Option<i64>, told: &mut Told) {
    match value {
        Some(number) => told.number(i128::from(number)),
        None => told.text("-"),
    }
}

fn tell_nesting(nesting: &Nesting, told: &mut Told) {
    told.text(match nesting.junction.joining {
        Joining::And => "A",
        Joining::Or => "O",
        Joining::Xor => "X",
    });
    told.text(if nesting.junction.negates { "N:" } else { ":" });
    tell_bit(Some(nesting.outer.checked), told);
    tell_bit(nesting.outer.rlo, told);
    tell_bit(Some(nesting.outer.kept_or), told);
}

fn tell_nestings(registers: &Registers, told: &mut Told) {
    let mut between = "";
    for (i, nesting) in registers.nestings.iter().enumerate() {
        if i < registers.depth as usize {
            told.text(between);
            tell_nesting(nesting, told);
            between = ",";
        }
    }
}

fn tell_registers(registers: &Registers, told: &mut Told) {
    told.text("a1=");
    tell_value(registers.accu1, told);
    told.text(" a2=");
    tell_value(registers.accu2, told);
    told.text(" fc=");
    tell_bit(Some(registers.logic.checked), told);
    told.text(" rlo=");
    tell_bit(registers.logic.rlo, told);
    told.text(" or=");
    tell_bit(Some(registers.logic.kept_or), told);
    told.text(" ov=");
    tell_bit(registers.codes.ov, told);
    told.text(" cc=");
    tell_bit(registers.codes.cc1, told);
    tell_bit(registers.codes.cc0, told);
    told.text(" st=");
    tell_nestings(registers, told);
}

/// All of a state but the type.
pub fn tell_state(state: &State, told: &mut Told) {
    tell_registers(&state.registers, told);
    told.text(" x=");
    tell_value(state.values[0], told);
    told.text(" v=");
    tell_value(state.values[1], told);
    told.text(" w=");
    tell_value(state.values[2], told);
    told.text(if state.jumps { " jumps" } else { "" });
    told.text(if state.ends { " ends" } else { "" });
}

/// The operands x : BOOL, v and w of the type.
pub fn targets(alloc: Global, ty: Ty) -> Result<Vec<Target>, AllocError> {
    let mut out = Vec::new(alloc);
    for spot in [
        Spot::Brief(Ty::Bool, 0),
        Spot::Brief(ty, 1),
        Spot::Brief(ty, 2),
    ] {
        out.push(Target::of(alloc, &[], Operand::At(spot))?)?;
    }
    Ok(out)
}
