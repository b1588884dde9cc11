//! Programs as sources of step circuits.
ghost use Rattle.std.specs.Prelude.{◌≡◌, ◌≤◌, length, replicate, IfOk};
ghost use Rattle.pv_word.specs.declared.types.Ty.TheVariants.{Bool as A_bool};
ghost use Rattle.pv_bool.specs.Scans.{state_len, input_len};
ghost use Rattle.pv_bool_steps.specs.Bits.{AreFew};

use pv_bool::{Bit, Program};
use pv_circuit::{Starts, StepCircuit, StepSource};
use pv_gate::{GateFault, MAX_INPUTS};
use pv_step::{circuit, starts};
use pv_word::Ty;
use std::alloc::{AllocError, Global};

/// A program with the types of its values, each of which is a BOOL.
#[derive(Drop)]
pub struct ProgramSteps<'a> {
    /// The program.
    pub program: &'a Program,
    state: Vec<Ty>,
    input: Vec<Ty>,
    ghost few: { AreFew program.now.bits.items },
    ghost state_types: { state.items ≡ replicate (state_len program.now.bits.items) A_bool },
    ghost input_types: { input.items ≡ replicate (input_len program.now.bits.items) A_bool },
}

/// How many values a state has.
fn kept_count(bits: &[Bit]) -> usize
    ensures { result ≡ state_len bits.now }
{
    let mut count = 0;
    for bit in bits {
        if bit.role.is_kept() {
            count += 1;
        }
    }
    count
}

/// How many values an input has.
fn taken_count(bits: &[Bit]) -> usize
    ensures { result ≡ input_len bits.now }
{
    let mut count = 0;
    for bit in bits {
        if bit.role.is_input() {
            count += 1;
        }
    }
    count
}

/// So many times BOOL.
fn bools(alloc: Global, count: usize) -> Result<Vec<Ty>, AllocError>
    ensures { IfOk result (λ types. types.items ≡ replicate count A_bool) }
{
    let types = vec![in alloc; Ty::Bool; count]?;
    Ok(types)
}

impl<'a> ProgramSteps<'a> {
    /// The program, of at most `MAX_INPUTS` bits.
    pub fn new(alloc: Global, program: &'a Program) -> Result<ProgramSteps<'a>, AllocError>
        requires { length program.now.bits.items ≤ MAX_INPUTS }
        ensures { IfOk result (λ steps. steps.program.now ≡ program.now) }
    {
        let state = bools(alloc, kept_count(&program.bits))?;
        let input = bools(alloc, taken_count(&program.bits))?;
        Ok(ProgramSteps {
            program,
            state,
            input,
        })
    }
}

impl<'a> StepSource for ProgramSteps<'a> {
    ghost use Rattle.pv_bool.specs.Programs.{program_tree};
    ghost use Rattle.pv_bool.specs.Machine.{machine_of};
    ghost use Rattle.pv_step.specs.Circuits.{circuit_of};
    ghost use Rattle.pv_step.specs.Steps.{form_of, starts_of};
    ghost use Rattle.pv_bool_steps.specs.Laws.{circuit_kept, steps_done};

    ghost machine = { λ p. machine_of (program_tree p.program.now) };

    ghost step = { λ p. circuit_of (program_tree p.program.now) };

    ghost form = { λ p. form_of (program_tree p.program.now) };

    ghost start = { λ p. starts_of (program_tree p.program.now) };

    fn circuit(&self, alloc: Global, limit: u32) -> Result<StepCircuit, GateFault> {
        circuit(alloc, self.program, limit)
    }

    fn starts(&self, alloc: Global) -> Result<Starts, AllocError> {
        starts(alloc, self.program)
    }

    fn state_types(&self) -> &[Ty] {
        self.state.as_slice()
    }

    fn input_types(&self) -> &[Ty] {
        self.input.as_slice()
    }

    ghost kept = { λ p. circuit_kept (program_tree p.program.now) p.program.now.own };

    ghost steps = { λ p. steps_done (program_tree p.program.now) p.program.now.own };
}
