//! The replay of a project: its program made, and what runs it scan by scan.
ghost use Rattle.std.specs.Prelude.{◌≡◌, IfErr, IfOk, Some, false, slice_get};
ghost use Rattle.pv_mean.specs.Sources.{Source};
ghost use Rattle.pv_mean.specs.ProjectSizes.{project_tree};
ghost use Rattle.pv_replay.specs.Replays.{HasStarts, IsReplayOf, cells_of, is_ready, view_of};
ghost use Rattle.pv_cells.specs.Named.{wide_bytes};
ghost use Rattle.pv_laws_room.specs.Reached.{IsRun};
ghost use Rattle.pv_program.specs.Spelled.{AreSpelled, IsRunWith};
ghost use Rattle.pv_program.specs.declared.fault.ProgramFault.TheVariants.{NoMemory};

use crate::fault::ProgramFault;
use crate::project::program_of;
use pv_cells::Table;
use pv_mean::CaseView;
use pv_replay::Replay;
use pv_tree::Project;
use std::alloc::{AllocError, Global};

/// The replay of a project that is entered at the view's block, with the table of this entry, to which the view was put. It isn't ready
/// before an image is given. It fails as [`program_of`] does.
pub fn make<'a>(
    alloc: Global,
    project: &Project,
    view: &'a CaseView,
    table: &'a Table,
) -> Result<Replay<'a>, ProgramFault>
    ensures of { IfOk result (λ r. (source : Source) → project_tree project.now ≡ source.project
        → slice_get source.project.blocks view.now.entry ≡ Some source.entry
        → wide_bytes table.now.bytes ≡ source.bytes → table.now.cells.items ≡ source.cells
        → source.bound ≡ view.now.loop_bound → HasStarts source → IsReplayOf source r) }
    ensures lent { IfOk result (λ r. (cells_of r ≡ table.now.cells.items) × (view_of r ≡ view.now)) }
    ensures ready { IfOk result (λ r. is_ready r ≡ false) }
    ensures room { (source : Source) → project_tree project.now ≡ source.project
        → slice_get source.project.blocks view.now.entry ≡ Some source.entry
        → wide_bytes table.now.bytes ≡ source.bytes → IsRun source → AreSpelled source.project
        → IfErr result (λ e. e ≡ NoMemory) }
{
    let cells = table.cells();
    let bytes = table.bytes();
    let program = program_of(alloc, project, view.entry, bytes, cells, view.loop_bound)?;
    let replay = Replay::of(alloc, program, view, cells)?;
    Ok(replay)
}

/// The replay of a project that is run, whose blocks tokens spell, as [`make`] has it, which only fails for want of memory.
pub fn replay_of<'a>(
    alloc: Global,
    project: &Project,
    view: &'a CaseView,
    table: &'a Table,
) -> Result<Replay<'a>, AllocError>
    requires { IsRunWith project.now view.now table.now }
    ensures of { IfOk result (λ r. (source : Source) → project_tree project.now ≡ source.project
        → slice_get source.project.blocks view.now.entry ≡ Some source.entry
        → wide_bytes table.now.bytes ≡ source.bytes → table.now.cells.items ≡ source.cells
        → source.bound ≡ view.now.loop_bound → HasStarts source → IsReplayOf source r) }
    ensures lent { IfOk result (λ r. (cells_of r ≡ table.now.cells.items) × (view_of r ≡ view.now)) }
    ensures ready { IfOk result (λ r. is_ready r ≡ false) }
{
    match make(alloc, project, view, table) {
        Ok(replay) => Ok(replay),
        Err(ProgramFault::NoMemory) => Err(AllocError),
        Err(ProgramFault::TooLarge) => unreachable!(),
    }
}
