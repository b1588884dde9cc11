//! A solver, on a formula worked out by hand.
ghost use Rattle.std.specs.Prelude.{◌≡◌, ◌<◌, ◌≤◌, ◌^◌, true};
ghost use Rattle.std.specs.Option.{is_none};
ghost use Rattle.pv_solver.specs.Answers.{assigned_of};

use pv_cnf::{ClauseView, Clauses, PushFault, Values};
use pv_solver::{Answer, Solver};
use std::test::Fail;

/// Adds a clause, as long as there are few.
fn add(to: &mut Solver, lits: &[u32]) -> Result<(), PushFault>
    requires { is_none to.old.outcome ≡ true }
    ensures { is_none to.new.outcome ≡ true }
{
    if to.count() > 1000000 {
        return Err(PushFault::NoMemory);
    }
    to.push(lits)
}

/// Adds 'not i, or i + 1' for the odd i below a number, rising, and for the even ones, falling, and then variable 1.
fn add_chain(to: &mut Solver, last: u32) -> Result<(), PushFault>
    requires last { last < 2 ^ 30 }
    requires takes { is_none to.old.outcome ≡ true }
{
    for i in 1..last {
        if i % 2 == 1 {
            add(to, &[2 * i + 1, 2 * i + 2])?;
        }
    }
    for k in 1..last {
        let i = last - k;
        if i % 2 == 0 {
            add(to, &[2 * i + 1, 2 * i + 2])?;
        }
    }
    add(to, &[2])
}

/// How many of the first variables are true.
fn trues(of: &Solver, upto: u32) -> u32
    requires { upto ≤ assigned_of of.now }
{
    for v in 0..upto {
        if !of.value(v + 1) {
            return v;
        }
    }
    upto
}

/// How many of the first variables are true, where the answer is Sat.
fn trues_after(of: &mut Solver) -> Option<u32> {
    let variables = of.variables();
    match of.solve() {
        Answer::Sat => Some(trues(of, variables)),
        _ => None,
    }
}

// The words are exactly enough: two for each variable, five for each clause of two literals, four for the last one.
#[test]
fn a_chain_is_solved(rt: HostRuntime) -> Result<(), Fail> {
    let mut solver = Solver::make(rt.alloc(), 400000, 2799999, 1)?;
    add_chain(&mut solver, 400000)?;
    assert_eq!(rt; trues_after(&mut solver), Some(400000));
    Ok(())
}
