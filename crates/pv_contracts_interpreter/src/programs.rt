//! Contract tests of `pv_run`, `pv_replay` and `pv_program`.
ghost use Rattle.pv_bytes.specs.Lent.{bytes_tree};
ghost use Rattle.pv_cells.specs.Named.{wide_bytes};
ghost use Rattle.pv_laws_room.specs.Reached.{IsRun};
ghost use Rattle.pv_mean.specs.Cells.{most_calls};
ghost use Rattle.pv_mean.specs.Frames.{image_ranges, input_ranges, param_ranges, visible_ranges};
ghost use Rattle.pv_mean.specs.ProjectSizes.{project_tree};
ghost use Rattle.pv_mean.specs.Runs.{start};
ghost use Rattle.pv_mean.specs.Scans.{scan_from};
ghost use Rattle.pv_mean.specs.Sources.{Source};
ghost use Rattle.pv_place.specs.Ranges.{AreWithin};
ghost use Rattle.pv_program.specs.Spelled.{AreSpelled, IsRunWith};
ghost use Rattle.pv_program.specs.declared.fault.ProgramFault.TheVariants.{NoMemory};
ghost use Rattle.pv_replay.specs.Ends.{is_done};
ghost use Rattle.pv_replay.specs.Replays.{HasStarts, IsReplayOf, IsScanned, begin_of, cells_of, end_of, image_of, is_ready, view_of};
ghost use Rattle.pv_run.specs.Code.{IsProgram};
ghost use Rattle.pv_run.specs.Ends.{end_in};
ghost use Rattle.std.specs.Prelude.{IfErr, IfOk, Some, false, length, slice_get, true, ◌&&◌, ◌*◌, ◌+◌, ◌≡◌, ◌≤◌};

use pv_bytes::AreaBytes;
use pv_cells::Table;
use pv_mean::{CaseView, Cell};
use pv_program::ProgramFault;
use pv_replay::{Replay, ScanEnd};
use pv_run::{Program, Stop};
use pv_stl_run::Turn;
use pv_tree::Project;
use std::alloc::{AllocError, Global};

/// [`Program::run`].
pub fn run(
    program: &Program,
    visible: &mut [i64],
    brief: &mut [Option<i64>],
    turns: &mut [Turn],
    scratch: &mut [i64],
) -> Result<(), Stop>
    requires brief { (most_calls + 1) * program.now.widest ≤ length brief.old }
    requires turns { (most_calls + 1) * program.now.ranges ≤ length turns.old }
    requires scratch { program.now.scratch ≤ length scratch.old }
    ensures { (source : Source) → IsProgram source program.now
        → end_in (λ done. visible.new) result ≡ (scan_from source most_calls visible.old).end }
{
    program.run(visible, brief, turns, scratch)
}

/// [`Replay::of`].
pub fn replay_of<'a>(
    alloc: Global,
    program: Program,
    view: &'a CaseView,
    cells: &'a [Cell],
) -> Result<Replay<'a>, AllocError>
    requires bound { program.bound ≡ view.now.loop_bound }
    requires entry { program.entry ≡ view.now.entry }
    ensures of { IfOk result (λ r. (source : Source) → source.cells ≡ cells.now
        → HasStarts source → IsProgram source program → IsReplayOf source r) }
    ensures lent { IfOk result (λ r. (cells_of r ≡ cells.now) × (view_of r ≡ view.now)) }
    ensures ready { IfOk result (λ r. is_ready r ≡ false) }
{
    Replay::of(alloc, program, view, cells)
}

/// [`Replay::start`].
pub fn start(replay: &mut Replay, params: &[i128])
    ensures image { (source : Source) → IsReplayOf source replay.old
        → AreWithin (param_ranges source.cells) params.now
        → image_of replay.new ≡ start source params.now }
    ensures ready { is_ready replay.new ≡ true }
    ensures told { (begin_of replay.new ≡ begin_of replay.old) × (end_of replay.new ≡ end_of replay.old) }
    ensures lent { (cells_of replay.new ≡ cells_of replay.old) × (view_of replay.new ≡ view_of replay.old) }
    ensures of { (source : Source) → IsReplayOf source replay.old → IsReplayOf source replay.new }
{
    replay.start(params)
}

/// [`Replay::set_image`].
pub fn set_image(replay: &mut Replay, image: &[i128])
    ensures image { (source : Source) → IsReplayOf source replay.old
        → AreWithin (image_ranges source.cells) image.now → image_of replay.new ≡ image.now }
    ensures ready { is_ready replay.new ≡ true }
    ensures told { (begin_of replay.new ≡ begin_of replay.old) × (end_of replay.new ≡ end_of replay.old) }
    ensures lent { (cells_of replay.new ≡ cells_of replay.old) × (view_of replay.new ≡ view_of replay.old) }
    ensures of { (source : Source) → IsReplayOf source replay.old → IsReplayOf source replay.new }
{
    replay.set_image(image)
}

/// [`Replay::scan`].
pub fn scan(replay: &mut Replay, input: &[i128]) -> ScanEnd
    ensures scan { (source : Source) → IsReplayOf source replay.old → is_ready replay.old ≡ true
        → AreWithin (input_ranges source.cells) input.now
        → IsScanned source replay.old replay.new input.now result }
    ensures range { (source : Source) → IsReplayOf source replay.old
        → AreWithin (image_ranges source.cells) (image_of replay.old)
        → AreWithin (input_ranges source.cells) input.now
        → AreWithin (visible_ranges source.cells) (begin_of replay.new) }
    ensures stopped { is_done result ≡ false
        → (image_of replay.new ≡ image_of replay.old) × (end_of replay.new ≡ end_of replay.old) }
    ensures ready { is_ready replay.new ≡ (is_ready replay.old && is_done result) }
    ensures lent { (cells_of replay.new ≡ cells_of replay.old) × (view_of replay.new ≡ view_of replay.old) }
    ensures of { (source : Source) → IsReplayOf source replay.old → IsReplayOf source replay.new }
{
    replay.scan(input)
}

/// [`pv_program::program_of`].
pub fn program_of(
    alloc: Global,
    project: &Project,
    entry: u32,
    bytes: AreaBytes,
    cells: &[Cell],
    bound: u32,
) -> Result<Program, ProgramFault>
    ensures bound { IfOk result (λ p. p.bound ≡ bound) }
    ensures entry { IfOk result (λ p. p.entry ≡ entry) }
    ensures is { (source : Source) → project_tree project.now ≡ source.project
        → slice_get source.project.blocks entry ≡ Some source.entry
        → bytes_tree bytes.entry ≡ source.bytes → cells.now ≡ source.cells → bound ≡ source.bound
        → IfOk result (IsProgram source) }
    ensures room { (source : Source) → project_tree project.now ≡ source.project
        → slice_get source.project.blocks entry ≡ Some source.entry
        → bytes_tree bytes.entry ≡ source.bytes → IsRun source → AreSpelled source.project
        → IfErr result (λ e. e ≡ NoMemory) }
{
    pv_program::program_of(alloc, project, entry, bytes, cells, bound)
}

/// [`pv_program::make`].
pub fn make<'a>(
    alloc: Global,
    project: &Project,
    view: &'a CaseView,
    table: &'a Table,
) -> Result<Replay<'a>, ProgramFault>
    ensures of { IfOk result (λ r. (source : Source) → project_tree project.now ≡ source.project
        → slice_get source.project.blocks view.now.entry ≡ Some source.entry
        → wide_bytes table.now.bytes ≡ source.bytes → table.now.cells.items ≡ source.cells
        → source.bound ≡ view.now.loop_bound → HasStarts source → IsReplayOf source r) }
    ensures lent { IfOk result (λ r. (cells_of r ≡ table.now.cells.items) × (view_of r ≡ view.now)) }
    ensures ready { IfOk result (λ r. is_ready r ≡ false) }
    ensures room { (source : Source) → project_tree project.now ≡ source.project
        → slice_get source.project.blocks view.now.entry ≡ Some source.entry
        → wide_bytes table.now.bytes ≡ source.bytes → IsRun source → AreSpelled source.project
        → IfErr result (λ e. e ≡ NoMemory) }
{
    pv_program::make(alloc, project, view, table)
}

/// [`pv_program::replay_of`].
pub fn replay_of_run<'a>(
    alloc: Global,
    project: &Project,
    view: &'a CaseView,
    table: &'a Table,
) -> Result<Replay<'a>, AllocError>
    requires { IsRunWith project.now view.now table.now }
    ensures of { IfOk result (λ r. (source : Source) → project_tree project.now ≡ source.project
        → slice_get source.project.blocks view.now.entry ≡ Some source.entry
        → wide_bytes table.now.bytes ≡ source.bytes → table.now.cells.items ≡ source.cells
        → source.bound ≡ view.now.loop_bound → HasStarts source → IsReplayOf source r) }
    ensures lent { IfOk result (λ r. (cells_of r ≡ table.now.cells.items) × (view_of r ≡ view.now)) }
    ensures ready { IfOk result (λ r. is_ready r ≡ false) }
{
    pv_program::replay_of(alloc, project, view, table)
}
