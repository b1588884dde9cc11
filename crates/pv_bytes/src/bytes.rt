//! The bytes of the three areas that a project and patterns name.
ghost use Rattle.std.specs.Prelude.{◌≡◌, IfOk, map};
ghost use Rattle.pv_tree.specs.View.{operand_tree};
ghost use Rattle.pv_mean.specs.AreaBytes as areas;
ghost use Rattle.pv_mean.specs.ProjectSizes.{project_tree};
ghost use Rattle.pv_bytes.specs.NamedBytes.{bytes_tree};

use crate::named::named_bytes;
use pv_tree::{Area, Operand, Project};
use std::alloc::{AllocError, Global};

/// The numbers of each area's bytes that have cells, from 0 to 65,535, rising and each once.
#[derive(Drop)]
pub struct Bytes {
    pub inputs: Vec<u32>,
    pub outputs: Vec<u32>,
    pub flags: Vec<u32>,
}

impl Bytes {
    /// Those that a project's sources, its symbols or one of the operands name.
    pub fn of(alloc: Global, project: &Project, named: &[Operand]) -> Result<Bytes, AllocError>
        ensures { IfOk result (λ b. bytes_tree b
            ≡ areas.bytes_of (project_tree project.now) (map operand_tree named.now)) }
    {
        let inputs = named_bytes(alloc, project, named, Area::I)?;
        let outputs = named_bytes(alloc, project, named, Area::Q)?;
        let flags = named_bytes(alloc, project, named, Area::M)?;
        Ok(Bytes {
            inputs,
            outputs,
            flags,
        })
    }
}
