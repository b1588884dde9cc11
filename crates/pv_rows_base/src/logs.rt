//! Logs of a proof: their lines both ways, and the checker.
ghost use Rattle.std.specs.Prelude.{◌≤◌};

use crate::clauses::{first_number, formula_of};
use pv_cnf::{ClauseView, Formula};
use pv_log::{Checker, Log, LogView, LratFault, read_line, write_line};
use pv_rows_form::Told;
use std::alloc::Global;

fn tell_numbers(numbers: &[u32], told: &mut Told) {
    told.text(":");
    for number in numbers {
        told.text(" ");
        told.number(i128::from(*number));
    }
}

/// A line's id, literals and hints, and whether it is written as it was read; or the first byte at fault.
pub fn tell_line(bytes: &[u8], told: &mut Told) {
    match read_line(told.alloc(), bytes) {
        Ok(line) => {
            told.number(i128::from(line.id));
            tell_numbers(line.lits.as_slice(), told);
            tell_numbers(line.hints.as_slice(), told);
            match write_line(told.alloc(), &line) {
                Ok(written) if written.as_slice() == bytes => {}
                Ok(_) => told.text(" written otherwise"),
                Err(_) => told.lose(),
            }
        }
        Err(fault) => told.words(&fault),
    }
}

/// The log of a text, which has commas between its lines.
fn log_of(alloc: Global, said: &str) -> Result<Log, LratFault> {
    let mut log = Log::new(alloc);
    for text in said.split(',') {
        if !text.is_empty() && log.lines() < 1_000_000 {
            log.push(read_line(alloc, text.trim().as_bytes())?)?;
        }
    }
    Ok(log)
}

/// What the checker says of a log; each line new besides, where that is asked.
fn tell_check(formula: &Formula, checker: &mut Checker, log: &Log, new: bool, told: &mut Told)
    requires { formula.now.variables ≤ checker.old }
{
    if new {
        match checker.check_new(told.alloc(), formula, log) {
            Ok(verdict) => told.words(&verdict),
            Err(_) => told.lose(),
        }
    } else {
        told.words(&checker.check(formula, log));
    }
}

/// What a checker for so many variables says of a log against a formula. The checker's number stands before the formula.
pub fn tell_verdict(given: &str, new: bool, said: &str, told: &mut Told) {
    let (number, rest) = given.split_once(' ').unwrap_or((given, ""));
    let variables = first_number(number);
    let Some(formula) = formula_of(rest, told) else {
        return;
    };
    if variables >= 1_000_000 || formula.variables() > variables {
        return;
    }
    let log = match log_of(told.alloc(), said) {
        Ok(log) => log,
        Err(fault) => return told.words(&fault),
    };
    match Checker::make(told.alloc(), variables) {
        Ok(made) => {
            let mut checker = made;
            tell_check(&formula, &mut checker, &log, new, told);
        }
        Err(_) => told.lose(),
    }
}
