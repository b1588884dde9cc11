//! Decisions of the oracle of the rows.
ghost use Rattle.std.specs.Prelude.{◌≡◌, ◌-◌, ◌<◌, ◌≤◌, ◌^◌, length, IfOk};
ghost use Rattle.pv_kind.specs.declared.told.TheConstants.{LAST_QUERY};

use crate::countdown::Countdown;
use crate::toy::Toy;
use pv_cert::{Chain, Proofs};
use pv_cnf::{Clauses, Formula, PushFault};
use pv_kind::{Decision, End, LAST_QUERY, Limits, Oracle, OracleFault, decide};
use pv_log::{LogView, Numbers};
use pv_rows_form::Told;
use std::alloc::{AllocError, Global};
use std::str::SplitWhitespace;

/// A clause and its opposite.
const OPPOSITE: [&[u32]; 2] = [&[2], &[3]];

/// All clauses of two literals over two variables: with those 4 + 4 * 5 = 24 words. One decision makes one false; the lemma has a
/// literal and two hints, so 7 words.
const TWO: [&[u32]; 4] = [&[2, 4], &[2, 5], &[3, 4], &[3, 5]];

/// All clauses of three literals over three variables, which take more than one lemma.
const THREE: [&[u32]; 8] = [
    &[2, 4, 6],
    &[2, 4, 7],
    &[2, 5, 6],
    &[2, 5, 7],
    &[3, 4, 6],
    &[3, 4, 7],
    &[3, 5, 6],
    &[3, 5, 7],
];

/// What a decision is made of.
#[derive(Clone, Copy)]
struct Given {
    /// The number at the start of the countdown, and its greatest number.
    start: u32,
    most: u32,
    /// How many abstracted cells there are, and whether the circuit passes the limit with fewer than two.
    cells: u32,
    limited: bool,
    /// The variables, and from which number on the formula is a hard one.
    variables: u32,
    hard_from: u32,
    limits: Limits,
}

fn next_number(words: &mut SplitWhitespace<'_>) -> u32 {
    words.next().unwrap_or("").parse::<u32>().unwrap_or(0)
}

/// What a row gives, number by number; the circuit has a limit where the fourth is 1.
fn read_given(said: &str) -> Given {
    let mut words = said.split_whitespace();
    Given {
        start: next_number(&mut words),
        most: next_number(&mut words),
        cells: next_number(&mut words),
        limited: next_number(&mut words) == 1,
        variables: next_number(&mut words),
        hard_from: next_number(&mut words),
        limits: Limits {
            depth: next_number(&mut words),
            lemmas: next_number(&mut words),
            words: u64::from(next_number(&mut words)),
        },
    }
}

/// A formula of these clauses.
fn formula(alloc: Global, variables: u32, clauses: &[&[u32]]) -> Result<Formula, PushFault>
    requires variables { variables < 2 ^ 31 }
    requires clauses { length clauses.now < 2 ^ 32 - 1 }
    ensures { IfOk result (λ f. f.variables ≡ variables) }
{
    let mut formula = Formula::make(alloc, variables)?;
    for lits in clauses {
        formula.push(lits)?;
    }
    Ok(formula)
}

/// The cells from 0 on.
fn cells(alloc: Global, count: u32) -> Result<Numbers, AllocError> {
    let mut cells = Numbers::new(alloc);
    for cell in 0..count {
        cells.push(cell)?;
    }
    Ok(cells)
}

/// The oracle of a row.
fn toy(alloc: Global, row: Given, hard: &[&[u32]]) -> Result<Toy, PushFault>
    requires start { row.start ≤ row.most }
    requires variables { row.variables < 2 ^ 31 }
    requires clauses { length hard.now < 2 ^ 32 - 1 }
{
    Ok(Toy {
        alloc,
        machine: Countdown {
            start: row.start,
            most: row.most,
        },
        none: Formula::make(alloc, row.variables)?,
        easy: formula(alloc, row.variables, &OPPOSITE)?,
        hard: formula(alloc, row.variables, hard)?,
        hard_from: row.hard_from,
        limited: row.limited,
        chain: Chain {
            constants: false,
            havoc: cells(alloc, row.cells)?,
            cone: false,
        },
    })
}

/// How many lines the last log has.
fn last_lines(proofs: &Proofs) -> u32 {
    match proofs.as_slice().last() {
        Some(proof) => proof.log.lines(),
        None => 0,
    }
}

fn tell_at(kind: &str, number: u64, told: &mut Told) {
    told.text(kind);
    told.number(i128::from(number));
}

/// How a decision ends, with its number if it has one.
fn tell_end(end: &End, told: &mut Told) {
    match end {
        End::Proved(k) => tell_at("proved at ", u64::from(*k), told),
        End::Failed(n, _) => tell_at("failed at ", u64::from(*n), told),
        End::Depth(_) => told.text("depth"),
        End::SpentLemmas => told.text("lemmas"),
        End::SpentRegion(need, None) => tell_at("words ", *need, told),
        End::SpentRegion(need, Some(_)) => tell_at("words with a lemma ", *need, told),
    }
}

/// How a decision ends, how many proofs there are and how many lines the last one has.
fn tell_decision(decision: &Decision, told: &mut Told) {
    tell_end(&decision.end, told);
    told.text("; proofs ");
    told.number(decision.proofs.as_slice().len() as i128);
    told.text(", lines ");
    told.number(i128::from(last_lines(&decision.proofs)));
}

/// What is decided with an oracle, and how many cells are abstracted in the end.
fn tell_decided(toy: &mut Toy, limits: &Limits, told: &mut Told)
    requires depth { limits.now.depth ≤ LAST_QUERY }
    requires lemmas { 1 ≤ limits.now.lemmas }
    requires words { limits.now.words ≤ 250000000 }
{
    match decide(told.alloc(), toy, limits) {
        Ok(decision) => tell_decision(&decision, told),
        Err(OracleFault::Gates) => told.text("gates"),
        Err(OracleFault::NoMemory) => told.lose(),
    }
    told.text("; cells ");
    told.number(toy.chain().havoc.as_slice().len() as i128);
}

fn tell_with(row: Given, hard: &[&[u32]], told: &mut Told) {
    let limits = row.limits;
    let fit = limits.depth <= LAST_QUERY && limits.lemmas >= 1 && limits.words <= 250000000;
    if !fit || row.start > row.most || row.variables >= 1 << 31 || hard.len() >= 99 {
        return told.text("no such row");
    }
    match toy(told.alloc(), row, hard) {
        Ok(made) => {
            let mut toy = made;
            tell_decided(&mut toy, &limits, told);
        }
        Err(fault) => told.words(&fault),
    }
}

/// What is decided of a row's numbers, where the hard formula is one of two variables, or of three.
pub fn tell_row(said: &str, hard: &str, told: &mut Told) {
    match hard {
        "two" => tell_with(read_given(said), &TWO, told),
        _ => tell_with(read_given(said), &THREE, told),
    }
}
