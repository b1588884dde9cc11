//! The bytes of areas that have cells, as names are found by them.
ghost use Rattle.std.specs.Prelude.{◌≡◌, IfOk, map};
ghost use Rattle.pv_tree.specs.View.{operand_tree};
ghost use Rattle.pv_mean.specs.AreaBytes as areas;
ghost use Rattle.pv_mean.specs.ProjectSizes.{project_tree};
ghost use Rattle.pv_bytes.specs.Lent.{bytes_tree};
ghost use Rattle.pv_cells.specs.Named.{wide_bytes};

use pv_bytes::{AreaBytes, Bytes};
use pv_tree::{Operand, Project};
use std::alloc::{AllocError, Global};

/// The numbers of each area's bytes that have cells, from 0 to 65,535, rising and each once; in 64 bits, as addresses have them.
#[derive(Drop)]
pub(crate) struct NamedBytes {
    inputs: Vec<u64>,
    outputs: Vec<u64>,
    flags: Vec<u64>,
}

/// The same numbers in 64 bits.
fn widened(alloc: Global, numbers: &[u32]) -> Result<Vec<u64>, AllocError>
    ensures { IfOk result (λ v. v.items ≡ numbers.now) }
{
    numbers.iter().map(|n| u64::from(*n)).collect(alloc)
}

impl NamedBytes {
    /// Those that a project's sources, its symbols or one of the operands name.
    pub(crate) fn of(
        alloc: Global,
        project: &Project,
        named: &[Operand],
    ) -> Result<NamedBytes, AllocError>
        ensures { IfOk result (λ b. wide_bytes b
            ≡ areas.bytes_of (project_tree project.now) (map operand_tree named.now)) }
    {
        let bytes = Bytes::of(alloc, project, named)?;
        let inputs = widened(alloc, bytes.inputs.as_slice())?;
        let outputs = widened(alloc, bytes.outputs.as_slice())?;
        let flags = widened(alloc, bytes.flags.as_slice())?;
        Ok(NamedBytes {
            inputs,
            outputs,
            flags,
        })
    }

    /// They, lent.
    pub(crate) fn areas(&self) -> AreaBytes<'_>
        ensures { bytes_tree result ≡ wide_bytes self.now }
    {
        AreaBytes {
            inputs: self.inputs.as_slice(),
            outputs: self.outputs.as_slice(),
            flags: self.flags.as_slice(),
        }
    }
}
