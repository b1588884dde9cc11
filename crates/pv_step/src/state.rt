//! How the bits of a program's state begin.
ghost use Rattle.std.specs.Prelude.{◌≡◌, map, IfOk};
ghost use Rattle.pv_bool.specs.Programs.{program_tree};
ghost use Rattle.pv_bool.specs.Scans.{start};
ghost use Rattle.pv_circuit.specs.declared.start.Start.TheVariants.{Begins};
ghost use Rattle.pv_step.specs.Steps.{starts_of};

use pv_bool::{Bit, Program};
use pv_circuit::{Start, Starts};
use std::alloc::{AllocError, Global};

/// How the kept ones of the bits begin.
fn begins(alloc: Global, bits: &[Bit]) -> Result<Starts, AllocError>
    ensures { IfOk result (λ starts. starts ≡ map (λ b. Begins b) (start bits.now)) }
{
    let mut starts = Starts::new(alloc);
    for bit in bits {
        if bit.role.is_kept() {
            starts.push(Start::Begins(bit.start))?;
        }
    }
    Ok(starts)
}

/// How each bit of a program's state begins, in the order of its circuit: with its start value, which
/// scans then change.
pub fn starts(alloc: Global, program: &Program) -> Result<Starts, AllocError>
    ensures { IfOk result (λ starts. starts ≡ starts_of (program_tree program.now)) }
{
    begins(alloc, &program.bits)
}
