//! The calls of machines and reductions, through their bounds.
ghost use Rattle.std.specs.Prelude.{◌≡◌, length, IfOk};
ghost use Rattle.pv_machine.specs.Machines.{IsState, IsInput};

use pv_machine::{Machine, Reduction};
use std::alloc::AllocError;

/// How many values a state has.
pub fn size_of_state<M: Machine>(machine: &M) -> usize
    ensures { result ≡ length (M.machine machine.now).state }
{
    machine.state_len()
}

/// How many values an input has.
pub fn size_of_input<M: Machine>(machine: &M) -> usize
    ensures { result ≡ length (M.machine machine.now).input }
{
    machine.input_len()
}

/// Whether the reduction is exact.
pub fn is_exact<R: Reduction>(reduction: &R) -> bool
    ensures { result ≡ R.is_exact reduction.now }
{
    reduction.exact()
}

/// An input of the source for one of the target.
pub fn pulled<R: Reduction>(reduction: &R, input: &[i128]) -> Result<Vec<i128>, AllocError>
    requires { IsInput (R.to reduction.now) input.now }
    ensures { IfOk result (λ v. v.items ≡ (R.maps reduction.now).pull input.now) }
{
    reduction.pull(input)
}

/// A state of the source for one of the target.
pub fn embedded<R: Reduction>(reduction: &R, state: &[i128]) -> Result<Vec<i128>, AllocError>
    requires { IsState (R.to reduction.now) state.now }
    ensures { IfOk result (λ v. v.items ≡ (R.maps reduction.now).embed state.now) }
{
    reduction.embed(state)
}
