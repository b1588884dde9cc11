//! Runs of bodies.

use crate::reading::action_of;
use crate::states::{targets, tell_value};
use pv_place::Place;
use pv_rows_form::Told;
use pv_stl_run::{Goal, Going, Instr, Stop, Turn};
use pv_word::Ty;
use std::alloc::{AllocError, Global};

/// The instruction of a part, without its label.
fn unlabelled(part: &str) -> &str {
    match part.split_once(": ") {
        Some((_, text)) => text,
        None => part,
    }
}

fn has_label(part: &str, label: &str) -> bool {
    match part.split_once(": ") {
        Some((name, _)) => name == label,
        None => false,
    }
}

/// The label of a part, or nothing.
fn label_at(parts: &str, from: usize) -> &str {
    for (k, part) in parts.split(';').enumerate() {
        if k == from {
            return match part.split_once(": ") {
                Some((name, _)) => name,
                None => "",
            };
        }
    }
    ""
}

/// What a part has behind its word, or nothing.
fn operand_of(part: &str) -> &str {
    match unlabelled(part).split_once(' ') {
        Some((_, operand)) => operand,
        None => "",
    }
}

/// Whether this part or one behind it jumps to the label.
fn is_jumped_to(parts: &str, from: usize, label: &str) -> bool {
    for (k, part) in parts.split(';').enumerate() {
        if k >= from && operand_of(part) == label {
            return true;
        }
    }
    false
}

fn begins_range(parts: &str, at: usize) -> bool {
    let label = label_at(parts, at);
    !label.is_empty() && is_jumped_to(parts, at, label)
}

fn short(k: usize) -> u32 {
    u32::try_from(k).unwrap_or(u32::MAX)
}

/// Where a jump of this number to the label goes.
fn goal_of(parts: &str, from: usize, label: &str) -> Goal {
    let mut back = usize::MAX;
    for (k, part) in parts.split(';').enumerate() {
        if has_label(part, label) {
            if k > from {
                return Goal::Ahead(k);
            }
            back = k;
        }
    }
    Goal::Back(back)
}

fn code_of(alloc: Global, parts: &str) -> Result<Vec<Instr>, AllocError> {
    let mut out = Vec::new(alloc);
    for (k, part) in parts.split(';').enumerate() {
        let text = unlabelled(part);
        let (word, operand) = text.split_once(' ').unwrap_or((text, ""));
        let place = Place {
            file: 0,
            offset: short(k),
        };
        out.push(Instr {
            action: action_of(word, operand, Ty::Int, goal_of(parts, k, operand)),
            place,
            range: if begins_range(parts, k) {
                Some(place)
            } else {
                None
            },
        })?;
    }
    Ok(out)
}

/// How a body ends; its calls do nothing.
fn run(
    code: &[Instr],
    bound: u32,
    alloc: Global,
    values: &mut [Option<i64>],
) -> Result<Result<(), Stop>, AllocError> {
    let operands = targets(alloc, Ty::Int)?;
    let mut turns = [Turn { at: 0, left: 0 }; 4];
    let mut nothing = [0_i64; 1];
    let mut none: [i64; 0] = [];
    let mut going = match Going::begin(code, bound, &mut turns) {
        Ok(going) => going,
        Err(stop) => return Ok(Err(stop)),
    };
    for call in 0..9 {
        match going.go(
            code,
            bound,
            operands.as_slice(),
            &[],
            0,
            &mut turns,
            &mut none,
            values,
            &mut nothing,
        ) {
            Ok(Some(_)) => match going.behind_call(code, bound, &mut turns) {
                Ok(true) => {}
                Ok(false) => return Ok(Ok(())),
                Err(stop) => return Ok(Err(stop)),
            },
            Ok(None) => return Ok(Ok(())),
            Err(stop) => return Ok(Err(stop)),
        }
    }
    Ok(Ok(()))
}

/// The values of x, v and w behind a body's end; `over` with the number of the label's instruction, or a trap with the instruction's number,
/// from 0. Before the body stand the loop bound and the values, of which `-` is none.
pub fn tell_body(before: &str, parts: &str, told: &mut Told) {
    let (bound, more) = before.split_once(' ').unwrap_or((before, ""));
    let mut values = [None; 3];
    for (k, part) in more.split(' ').enumerate() {
        if k < 3 {
            values[k] = part.parse::<i64>().ok();
        }
    }
    let Ok(code) = code_of(told.alloc(), parts) else {
        return told.lose();
    };
    let bound = bound.parse::<u32>().unwrap_or(9);
    match run(code.as_slice(), bound, told.alloc(), &mut values) {
        Ok(Ok(())) => tell_values(&values, told),
        Ok(Err(Stop::Over(place))) => {
            told.text("over ");
            told.number(i128::from(place.offset));
        }
        Ok(Err(Stop::Trap(trap))) => {
            told.text("trap ");
            told.number(i128::from(trap.place.offset));
        }
        Err(_) => told.lose(),
    }
}

fn tell_values(values: &[Option<i64>; 3], told: &mut Told) {
    let mut between = "";
    for value in values {
        told.text(between);
        tell_value(*value, told);
        between = " ";
    }
}
