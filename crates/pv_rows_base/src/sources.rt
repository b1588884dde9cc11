//! Boolean programs as sources of step circuits.
ghost use Rattle.std.specs.Prelude.{◌≤◌, length};

use crate::clauses::first_number;
use crate::programs::program_of;
use pv_bool::Program;
use pv_bool_steps::ProgramSteps;
use pv_circuit::StepSource;
use pv_gate::{GateFault, MAX_GATES};
use pv_rows_form::Told;
use pv_word::Ty;

fn tell_types(name: &str, types: &[Ty], told: &mut Told) {
    told.text(name);
    for ty in types {
        told.text(" ");
        told.words(ty);
    }
}

/// How the bits of a state begin.
fn tell_starts<S: StepSource>(source: &S, told: &mut Told) {
    match source.starts(told.alloc()) {
        Ok(starts) => {
            for start in starts.as_slice() {
                told.text(" ");
                told.words(start);
            }
        }
        Err(_) => told.lose(),
    }
}

/// How many nodes the circuit has, or that it has too many gates.
fn tell_nodes<S: StepSource>(source: &S, limit: u32, told: &mut Told)
    requires { limit ≤ MAX_GATES }
{
    match source.circuit(told.alloc(), limit) {
        Ok(c) => told.number(i128::from(c.gates.nodes())),
        Err(GateFault::Limit) => told.text("limit"),
        Err(GateFault::NoMemory) => told.lose(),
    }
}

/// The types of the values of a state and of an input, how the state's bits begin, and the circuit of so
/// many gates at most.
fn tell_parts<S: StepSource>(source: &S, limit: u32, told: &mut Told)
    requires { limit ≤ MAX_GATES }
{
    tell_types("state", source.state_types(), told);
    tell_types(", input", source.input_types(), told);
    told.text(", start");
    tell_starts(source, told);
    told.text(", nodes ");
    tell_nodes(source, limit, told);
}

fn tell_program(program: &Program, limit: u32, told: &mut Told)
    requires bits { length program.now.bits.items ≤ 4 }
    requires limit { limit ≤ MAX_GATES }
{
    match ProgramSteps::new(told.alloc(), program) {
        Ok(source) => tell_parts(&source, limit, told),
        Err(_) => told.lose(),
    }
}

/// What the program of this name has as a source of step circuits.
pub fn tell_source(name: &str, limit: &str, told: &mut Told) {
    let limit = first_number(limit);
    if limit > 1_000_000 {
        return;
    }
    match program_of(told.alloc(), name) {
        Ok(program) => tell_program(&program, limit, told),
        Err(_) => told.lose(),
    }
}
