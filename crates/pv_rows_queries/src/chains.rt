//! Programs of many gates.
ghost use Rattle.std.specs.Prelude.{◌≡◌, ◌≤◌, length, map, All, IfOk, OnOk};
ghost use Rattle.pv_bool.specs.Tree.{assignment_tree, IsAssignmentOver};

use pv_bool::{Assignment, Bit, BitRole, Program, Term};
use pv_bool_steps::ProgramSteps;
use pv_gate::GateFault;
use pv_queries::Built;
use pv_rows_form::Told;
use std::alloc::{AllocError, Global};

/// `run := go AND run;`, which takes a gate each time, since the operand is another each time.
fn assignment(alloc: Global) -> Result<Assignment, AllocError>
    ensures { IfOk result (λ a. IsAssignmentOver 2 (assignment_tree a)) }
{
    let go = Box::new(alloc, Term::Load(0))?;
    let run = Box::new(alloc, Term::Load(1))?;
    Ok(Assignment {
        target: 1,
        value: Term::And(go, run),
    })
}

/// So many times the assignment.
fn body(alloc: Global, count: u32) -> Result<Vec<Assignment>, AllocError>
    ensures { IfOk result (λ body. All (IsAssignmentOver 2) (map assignment_tree body.items)) }
{
    let mut body = Vec::new(alloc);
    for _turn in 0..count {
        body.push(assignment(alloc)?)?;
    }
    Ok(body)
}

fn bit(role: BitRole) -> Bit {
    Bit { role, start: false }
}

/// A program over go and run whose circuit has so many gates.
fn chain(alloc: Global, gates: u32) -> Result<Program, AllocError>
    ensures { IfOk result (λ p. length p.bits.items ≤ 2) }
{
    let bits = Vec::from_slice(alloc, &[bit(BitRole::Input), bit(BitRole::Kept)])?;
    let body = body(alloc, gates)?;
    Ok(Program {
        bits,
        body,
        holds: Term::Load(1),
    })
}

fn tell_built(program: &Program, told: &mut Told)
    requires { length program.now.bits.items ≤ 2 }
{
    let Ok(steps) = ProgramSteps::new(told.alloc(), program) else {
        return told.lose();
    };
    match Built::build(told.alloc(), &steps) {
        Ok(_) => told.text("built"),
        Err(GateFault::Limit) => told.text("limit"),
        Err(GateFault::NoMemory) => told.lose(),
    }
}

/// Whether a circuit of so many gates is built.
pub fn tell_gates(count: &str, told: &mut Told) {
    let count = count.trim().parse::<u32>().unwrap_or(0);
    match chain(told.alloc(), count) {
        Ok(program) => {
            tell_built(&program, told);
            drop(program);
        }
        Err(_) => told.lose(),
    }
}
