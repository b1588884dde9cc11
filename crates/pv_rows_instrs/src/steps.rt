//! Single steps of instructions, as `docs/SEMANTICS.md` has them.
use crate::reading::instr_of;
use crate::states::{State, fresh, targets, tell_state, with_all};
use pv_eval::Trap;
use pv_rows_form::Told;
use pv_stl_run::{Goal, Next, step};
use std::alloc::{AllocError, Global};

/// Where a row's jump goes.
const GOAL: Goal = Goal::Ahead(7);

/// The state behind an instruction, or the trap.
fn behind(alloc: Global, text: &str, before: State) -> Result<Result<State, Trap>, AllocError> {
    let instr = instr_of(text, before.ty, GOAL, 1);
    let mut after = before;
    let operands = targets(alloc, before.ty)?;
    let mut nothing = [0_i64; 1];
    let mut none: [i64; 0] = [];
    let next = step(
        &mut after.registers,
        &instr,
        operands.as_slice(),
        &[],
        0,
        &mut none,
        &mut after.values,
        &mut nothing,
    );
    match next {
        Ok(Next::Onward) => {}
        Ok(Next::To(_)) => after.jumps = true,
        Ok(Next::Left) => {
            // no register is left of a block that has ended
            after.registers = before.registers;
            after.ends = true;
        }
        Err(trap) => return Ok(Err(trap)),
    }
    Ok(Ok(after))
}

/// The state behind an instruction, of this one before it; or the trap.
pub fn tell_step(text: &str, before: &str, told: &mut Told) {
    match behind(told.alloc(), text, with_all(fresh(), before)) {
        Ok(Ok(after)) => tell_state(&after, told),
        Ok(Err(trap)) => {
            told.text("trap ");
            told.words(&trap.kind);
        }
        Err(_) => told.lose(),
    }
}
