//! The Boolean programs of the cases.
ghost use Rattle.std.specs.Prelude.{◌≡◌, ◌≤◌, length, IfOk};
ghost use Rattle.pv_bool.specs.Tree.{term_tree, load, negation, IsTermOver};

use pv_bool::{Assignment, Bit, BitRole, Program, Term};
use std::alloc::{AllocError, Global};

fn and(alloc: Global, left: Term, right: Term) -> Result<Term, AllocError>
    requires left { IsTermOver 3 (term_tree left) }
    requires right { IsTermOver 3 (term_tree right) }
    ensures { IfOk result (λ t. IsTermOver 3 (term_tree t)) }
{
    Ok(Term::And(Box::new(alloc, left)?, Box::new(alloc, right)?))
}

fn or(alloc: Global, left: Term, right: Term) -> Result<Term, AllocError>
    requires left { IsTermOver 3 (term_tree left) }
    requires right { IsTermOver 3 (term_tree right) }
    ensures { IfOk result (λ t. IsTermOver 3 (term_tree t)) }
{
    Ok(Term::Or(Box::new(alloc, left)?, Box::new(alloc, right)?))
}

fn not(alloc: Global, term: Term) -> Result<Term, AllocError>
    requires { IsTermOver 3 (term_tree term) }
    ensures { IfOk result (λ t. IsTermOver 3 (term_tree t)) }
{
    Ok(Term::Not(Box::new(alloc, term)?))
}

fn negated(alloc: Global, bit: u32) -> Result<Term, AllocError>
    ensures { IfOk result (λ t. term_tree t ≡ negation (load bit)) }
{
    Ok(Term::Not(Box::new(alloc, Term::Load(bit))?))
}

fn input() -> Bit {
    Bit {
        role: BitRole::Input,
        start: false,
    }
}

fn kept() -> Bit {
    Bit {
        role: BitRole::Kept,
        start: false,
    }
}

/// `run := (start OR run) AND NOT stop;` over start, stop and run.
fn latch(alloc: Global, holds: Term) -> Result<Program, AllocError>
    requires { IsTermOver 3 (term_tree holds) }
    ensures { IfOk result (λ p. length p.bits.items ≤ 4) }
{
    let bits = Vec::from_slice(alloc, &[input(), input(), kept()])?;
    let on = or(alloc, Term::Load(0), Term::Load(2))?;
    let off = not(alloc, Term::Load(1))?;
    let value = and(alloc, on, off)?;
    let mut body = Vec::new(alloc);
    body.push(Assignment { target: 2, value })?;
    Ok(Program { bits, body, holds })
}

/// The latch, and `NOT (run AND stop)`.
fn stopped_latch(alloc: Global) -> Result<Program, AllocError>
    ensures { IfOk result (λ p. length p.bits.items ≤ 4) }
{
    let met = and(alloc, Term::Load(2), Term::Load(1))?;
    let holds = not(alloc, met)?;
    latch(alloc, holds)
}

/// The latch, and `NOT run`.
fn idle_latch(alloc: Global) -> Result<Program, AllocError>
    ensures { IfOk result (λ p. length p.bits.items ≤ 4) }
{
    let holds = not(alloc, Term::Load(2))?;
    latch(alloc, holds)
}

/// `c := b; b := a; a := x;` over x, a, b and c, and `NOT c`.
fn delay(alloc: Global) -> Result<Program, AllocError>
    ensures { IfOk result (λ p. length p.bits.items ≤ 4) }
{
    let bits = Vec::from_slice(alloc, &[input(), kept(), kept(), kept()])?;
    let mut body = Vec::new(alloc);
    body.push(Assignment {
        target: 3,
        value: Term::Load(2),
    })?;
    body.push(Assignment {
        target: 2,
        value: Term::Load(1),
    })?;
    body.push(Assignment {
        target: 1,
        value: Term::Load(0),
    })?;
    let holds = negated(alloc, 3)?;
    Ok(Program { bits, body, holds })
}

/// The program of this name.
pub fn program_of(alloc: Global, name: &str) -> Result<Program, AllocError>
    ensures { IfOk result (λ p. length p.bits.items ≤ 4) }
{
    match name {
        "latch" => stopped_latch(alloc),
        "idle" => idle_latch(alloc),
        _ => delay(alloc),
    }
}
