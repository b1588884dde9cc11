//! A source of circuits that is made by hand.
ghost use Rattle.std.specs.Prelude.{◌≡◌, ◌++◌, false, IfOk, OnOk, replicate};
ghost use Rattle.pv_bool.specs.Tree.{term_tree};
ghost use Rattle.pv_bool.specs.Programs.{program_tree};
ghost use Rattle.pv_rows_queries.specs.Words.{words_program, words_starts};

use pv_bool::{Bit, BitRole, Program, Term};
use pv_circuit::{Start, Starts, StepCircuit, StepSource};
use pv_gate::GateFault;
use pv_step::circuit;
use pv_word::Ty;
use std::alloc::{AllocError, Global};

/// The types of a state: a word, and a parameter.
pub const STATE: [Ty; 2] = [Ty::Int, Ty::Int];

/// The types of an input: a bit, and a word.
pub const INPUT: [Ty; 2] = [Ty::Bool, Ty::Int];

/// A machine whose state is a word that begins with -32768 and a parameter. A scan leaves both as they are, and fails where the bit of
/// its input is 1.
#[derive(Clone, Copy, Drop)]
pub struct Words;

/// So many bits of a role.
fn bits(alloc: Global, role: BitRole, count: usize) -> Result<Vec<Bit>, AllocError>
    ensures { IfOk result (λ v. v.items ≡ replicate count (record { role = role; start = false })) }
{
    let bits = vec![in alloc; Bit { role, start: false }; count]?;
    Ok(bits)
}

/// The bits of a state and of an input.
fn all_bits(alloc: Global) -> Result<Vec<Bit>, AllocError>
    ensures { IfOk result (λ v. v.items ≡ words_program.bits) }
{
    let mut all = bits(alloc, BitRole::Kept, 32)?;
    let input = bits(alloc, BitRole::Input, 17)?;
    all.extend_from_slice(input.as_slice())?;
    Ok(all)
}

/// `NOT` of the input's first bit.
fn holds(alloc: Global) -> Result<Term, AllocError>
    ensures { IfOk result (λ t. term_tree t ≡ words_program.holds) }
{
    Ok(Term::Not(Box::new(alloc, Term::Load(32))?))
}

/// A program of these bits that assigns none.
fn program(alloc: Global) -> Result<Program, AllocError>
    ensures { IfOk result (λ p. program_tree p ≡ words_program) }
{
    let bits = all_bits(alloc)?;
    let holds = holds(alloc)?;
    Ok(Program {
        bits,
        body: Vec::new(alloc),
        holds,
    })
}

/// Adds so many bits that begin so.
fn push_times(starts: &mut Starts, start: Start, count: u32) -> Result<(), AllocError>
    ensures { OnOk result (starts.new ≡ starts.old ++ replicate count start) }
{
    for _bit in 0..count {
        starts.push(start)?;
    }
    Ok(())
}

impl StepSource for Words {
    ghost use Rattle.pv_step.specs.Circuits.{circuit_of};
    ghost use Rattle.pv_rows_queries.specs.Words.{words_machine, words_form, words_starts, words_program};
    ghost use Rattle.pv_rows_queries.specs.WordSteps.{words_kept, words_steps};

    ghost machine = { λ w. words_machine };

    ghost step = { λ w. circuit_of words_program };

    ghost form = { λ w. words_form };

    ghost start = { λ w. words_starts };

    fn circuit(&self, alloc: Global, limit: u32) -> Result<StepCircuit, GateFault> {
        let program = program(alloc)?;
        circuit(alloc, &program, limit)
    }

    fn starts(&self, alloc: Global) -> Result<Starts, AllocError> {
        let mut starts = Starts::new(alloc);
        push_times(&mut starts, Start::Begins(false), 15)?;
        push_times(&mut starts, Start::Begins(true), 1)?;
        push_times(&mut starts, Start::Free, 16)?;
        Ok(starts)
    }

    fn state_types(&self) -> &[Ty] {
        &STATE
    }

    fn input_types(&self) -> &[Ty] {
        &INPUT
    }

    ghost kept = { λ w. words_kept };

    ghost steps = { λ w. words_steps };
}
