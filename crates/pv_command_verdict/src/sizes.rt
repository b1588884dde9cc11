//! How large what is decided may be.
ghost use Rattle.std.specs.Prelude.{◌≡◌, IfOk, length, nat_lt, string_bytes};
ghost use Rattle.pv_sizes.specs.declared.count.TheConstants.{MAX_EDGES};
ghost use Rattle.pv_command_verdict.specs.Sizes as sizes;

use pv_bool::Program;
use pv_sizes::MAX_EDGES;
use std::alloc::{AllocError, Global};

/// Whether a program has more assignments than an automaton may have edges.
pub fn has_too_many_edges(program: &Program) -> bool
    ensures { result ≡ nat_lt MAX_EDGES (length program.now.body.items) }
{
    MAX_EDGES < program.body.len() as u64
}

/// The fault line of a block with too many edges.
pub fn edges_line(alloc: Global) -> Result<String, AllocError>
    ensures { IfOk result (λ text. string_bytes text ≡ sizes.edges_line) }
{
    String::from_str(alloc, "plcv: TooLarge edges 200000\n")
}

/// The fault line of a circuit with too many gates.
pub fn gates_line(alloc: Global) -> Result<String, AllocError>
    ensures { IfOk result (λ text. string_bytes text ≡ sizes.gates_line) }
{
    String::from_str(alloc, "plcv: TooLarge gates 1000000\n")
}
