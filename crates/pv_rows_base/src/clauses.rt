//! Formulas, and the solver. A literal is twice its variable, and one more where it is the complement; clauses have commas between them,
//! and `-` is one without literals.
ghost use Rattle.std.specs.Prelude.{◌≡◌, true, false, ◌-◌, length, slice_index_or};
ghost use Rattle.std.specs.Option.{is_none};

use pv_cnf::{ClauseView, Clauses, Formula, PushFault, Values, flip, holds, to_dimacs};
use pv_log::{Checker, LogView};
use pv_rows_form::Told;
use pv_solver::{Answer, Solver};
use std::alloc::{AllocError, Global};

/// The numbers of a text, with blanks between them.
pub fn numbers(alloc: Global, said: &str) -> Result<Vec<u32>, AllocError> {
    let mut list = Vec::new(alloc);
    for word in said.split(' ') {
        if let Ok(number) = word.parse::<u32>() {
            list.push(number)?;
        }
    }
    Ok(list)
}

/// The number that a text begins with.
pub fn first_number(said: &str) -> u32 {
    let (front, _) = said.split_once(' ').unwrap_or((said, ""));
    front.parse::<u32>().unwrap_or(0)
}

/// Pushes a clause.
fn push(formula: &mut Formula, said: &str, alloc: Global) -> Result<(), PushFault> {
    let lits = numbers(alloc, said)?;
    if formula.count() >= 1_000_000 {
        return Err(PushFault::NoMemory);
    }
    formula.push(lits.as_slice())
}

/// Pushes the clauses of a text, and tells each refusal.
fn push_all(formula: &mut Formula, said: &str, told: &mut Told) {
    let alloc = told.alloc();
    for clause in said.split(',') {
        if !clause.is_empty() {
            if let Err(fault) = push(formula, clause.trim(), alloc) {
                told.words(&fault);
                told.text(", ");
            }
        }
    }
}

/// The formula of a text: how many variables it has, and behind a `|` its clauses.
pub fn formula_of(said: &str, told: &mut Told) -> Option<Formula> {
    let (front, clauses) = said.split_once('|').unwrap_or((said, ""));
    let variables = first_number(front);
    if variables >= 1_000_000 {
        return None;
    }
    match Formula::make(told.alloc(), variables) {
        Ok(made) => {
            let mut formula = made;
            push_all(&mut formula, clauses, told);
            Some(formula)
        }
        Err(_) => {
            told.lose();
            None
        }
    }
}

/// A formula's clauses: refusals first, then the text in DIMACS.
pub fn tell_formula(given: &str, said: &str, told: &mut Told) {
    if let Some(made) = formula_of(given, told) {
        let mut formula = made;
        push_all(&mut formula, said, told);
        match to_dimacs(told.alloc(), &formula) {
            Ok(text) => told.bytes(text.as_slice()),
            Err(_) => told.lose(),
        }
    }
}

/// The complement of a literal.
pub fn tell_flip(said: &str, told: &mut Told) {
    told.number(i128::from(flip(first_number(said))));
}

/// The value of variable v at place v - 1.
#[derive(Drop)]
pub struct Bits<'a>(pub &'a [bool]);

impl<'a> Values for Bits<'a> {
    ghost assigned = { λ bits. length bits.0.now };

    ghost truth = { λ bits v. slice_index_or bits.0.now (v - 1) false };

    fn value(&self, v: u32) -> bool {
        self.0[v as usize - 1]
    }
}

/// The bits of a text, `1` for true.
pub fn bits_of(alloc: Global, said: &str) -> Result<Vec<bool>, AllocError> {
    let mut bits = Vec::new(alloc);
    for byte in said.as_bytes() {
        bits.push(*byte == b'1')?;
    }
    Ok(bits)
}

/// Whether a formula holds under values, `1` for true, from the first variable on.
pub fn tell_values(given: &str, said: &str, told: &mut Told) {
    let Ok(bits) = bits_of(told.alloc(), said) else {
        return told.lose();
    };
    if let Some(formula) = formula_of(given, told) {
        if formula.variables() as usize <= bits.len() {
            told.words(&holds(&formula, &Bits(bits.as_slice())));
        }
    }
}

/// Pushes a clause to a solver that hasn't answered.
fn push_to(solver: &mut Solver, said: &str, alloc: Global) -> Result<(), PushFault>
    requires { is_none solver.old.outcome ≡ true }
    ensures { is_none solver.new.outcome ≡ true }
{
    let lits = numbers(alloc, said)?;
    if solver.count() >= 1_000_000 {
        return Err(PushFault::NoMemory);
    }
    solver.push(lits.as_slice())
}

/// Pushes the clauses of a text, up to the first that is refused.
fn fill(solver: &mut Solver, said: &str, alloc: Global) -> Result<(), PushFault>
    requires { is_none solver.old.outcome ≡ true }
{
    for clause in said.split(',') {
        if !clause.is_empty() {
            push_to(solver, clause.trim(), alloc)?;
        }
    }
    Ok(())
}

/// What the checker says of the solver's lines.
fn tell_lines(solver: &Solver, told: &mut Told) {
    told.text(" ");
    told.number(i128::from(solver.lines()));
    told.text(" ");
    let variables = solver.variables();
    if variables < 1_000_000 {
        match Checker::make(told.alloc(), variables) {
            Ok(made) => {
                let mut checker = made;
                told.words(&checker.check(solver, solver));
            }
            Err(_) => told.lose(),
        }
    }
}

/// What a solver answers, how many lines there are then, and what the checker says of them; of values, whether the clauses hold. Then the
/// second answer, where it isn't the first one.
fn tell_answer(solver: &mut Solver, told: &mut Told) {
    let first = solver.solve();
    let again = solver.solve();
    told.words(&first);
    tell_lines(solver, told);
    if let Answer::Sat = again {
        told.text(if holds(solver, solver) {
            " holds"
        } else {
            " fails"
        });
    }
    if first != again {
        told.text(" and then ");
        told.words(&again);
    }
}

/// What a solver answers to clauses, of so many variables, words and lemmas; or the first refusal.
pub fn tell_solver(limits: &str, clauses: &str, told: &mut Told) {
    let (variables, rest) = limits.split_once(' ').unwrap_or((limits, ""));
    let (words, lemmas) = rest.split_once(' ').unwrap_or((rest, ""));
    let words = words.parse::<u64>().unwrap_or(0);
    let lemmas = first_number(lemmas);
    if words > 1_000_000 || lemmas == 0 {
        return;
    }
    match Solver::make(told.alloc(), first_number(variables), words, lemmas) {
        Ok(made) => {
            let mut solver = made;
            match fill(&mut solver, clauses, told.alloc()) {
                Ok(()) => tell_answer(&mut solver, told),
                Err(fault) => told.words(&fault),
            }
        }
        Err(fault) => told.words(&fault),
    }
}
