//! A project's entered block, ready to be run scan by scan.
ghost use Rattle.std.specs.Prelude.{◌≡◌, ◌≤◌, ◌+◌, ◌*◌, ◌&&◌, length, not, true, false, IfOk, All};
ghost use Rattle.pv_mean.specs.Cells.{most_calls};
ghost use Rattle.pv_mean.specs.Frames.{is_brief, image_len};
ghost use Rattle.pv_replay.specs.Images.{IsLong, roles_of, stored_count};

use crate::end::ScanEnd;
use crate::image;
use pv_mean::{CaseView, Cell};
use pv_place::Role;
use pv_run::{MOST_CALLS, Program};
use pv_stl_run::Turn;
use std::alloc::{AllocError, Global};

/// The runs of a project by a case: what is stored from scan to scan, and the visible cells of the last scan.
#[derive(Drop)]
pub struct Replay<'a> {
    view: &'a CaseView,
    cells: &'a [Cell],
    program: Program,
    /// The roles of the visible cells.
    roles: Vec<Role>,
    image: Vec<i64>,
    /// The visible cells at the last scan's beginning and end.
    begin: Vec<i128>,
    end: Vec<i128>,
    /// The visible cells at work, the brief cells and the turns of ranges of the blocks that call each other, and the values of an
    /// expression.
    values: Vec<i64>,
    brief: Vec<Option<i64>>,
    turns: Vec<Turn>,
    scratch: Vec<i64>,
    ready: bool,
    ghost stored: { length image.items ≡ stored_count roles.items },
    ghost imaged: { length image.items ≡ image_len cells.now },
    ghost visible: { length values.items ≡ length roles.items },
    ghost beginning: { length begin.items ≡ length values.items },
    ghost ending: { length end.items ≡ length values.items },
    ghost long_beginning: { All IsLong begin.items },
    ghost long_ending: { All IsLong end.items },
    ghost room: { (most_calls + 1) * program.widest ≤ length brief.items },
    ghost turning: { (most_calls + 1) * program.ranges ≤ length turns.items },
    ghost space: { program.scratch ≤ length scratch.items },
}

/// Whether cells of this role have a value for the whole of a scan.
fn is_visible(role: Role) -> bool
    ensures { result ≡ not (is_brief role) }
{
    match role {
        Role::Input | Role::Param | Role::Kept => true,
        Role::Brief => false,
    }
}

/// The roles of the visible cells, in the order of the table.
fn visible_roles(alloc: Global, cells: &[Cell]) -> Result<Vec<Role>, AllocError>
    ensures { IfOk result (λ roles. roles.items ≡ roles_of cells.now) }
{
    cells
        .iter()
        .filter(|cell| is_visible(cell.role))
        .map(|cell| cell.role)
        .collect(alloc)
}

/// How many of the visible cells are stored from scan to scan.
fn count_stored(roles: &[Role]) -> usize
    ensures { result ≡ stored_count roles.now }
{
    roles.iter().filter(|role| role.is_stored()).count()
}

/// The brief cells of eight blocks, of which none has more than these.
fn brief_cells(alloc: Global, widest: usize) -> Result<Vec<Option<i64>>, AllocError>
    ensures { IfOk result (λ brief. (most_calls + 1) * widest ≤ length brief.items) }
{
    match widest.checked_mul(MOST_CALLS as usize + 1) {
        Some(room) => vec![in alloc; None; room],
        None => Err(AllocError),
    }
}

/// The turns of ranges of eight blocks, of which none has more ranges than these.
fn turns_of_ranges(alloc: Global, ranges: usize) -> Result<Vec<Turn>, AllocError>
    ensures { IfOk result (λ turns. (most_calls + 1) * ranges ≤ length turns.items) }
{
    match ranges.checked_mul(MOST_CALLS as usize + 1) {
        Some(room) => vec![in alloc; Turn { at: 0, left: 0 }; room],
        None => Err(AllocError),
    }
}

impl<'a> Replay<'a> {
    ghost use Rattle.pv_place.specs.Ranges.{AreWithin};
    ghost use Rattle.pv_mean.specs.Sources.{Source};
    ghost use Rattle.pv_mean.specs.Frames.{param_ranges, image_ranges, input_ranges, visible_ranges};
    ghost use Rattle.pv_mean.specs.Runs.{start};
    ghost use Rattle.pv_run.specs.Code.{IsProgram};
    ghost use Rattle.pv_replay.specs.Ends.{scan_end, is_done};
    ghost use Rattle.pv_replay.specs.Replays.{IsReplayOf, IsScanned, HasStarts, image_of, begin_of, end_of, is_ready, cells_of, view_of};

    /// The replay of a program on these cells. The program enters the view's block, and loops have the view's bound. It isn't ready
    /// before an image is given.
    pub fn of(
        alloc: Global,
        program: Program,
        view: &'a CaseView,
        cells: &'a [Cell],
    ) -> Result<Replay<'a>, AllocError>
        requires bound { program.bound ≡ view.now.loop_bound }
        requires entry { program.entry ≡ view.now.entry }
        ensures of { IfOk result (λ r. (source : Source) → source.cells ≡ cells.now
            → HasStarts source → IsProgram source program → IsReplayOf source r) }
        ensures lent { IfOk result (λ r. (cells_of r ≡ cells.now) × (view_of r ≡ view.now)) }
        ensures ready { IfOk result (λ r. is_ready r ≡ false) }
    {
        let roles = visible_roles(alloc, cells)?;
        let image = vec![in alloc; 0; count_stored(&roles)]?;
        let begin = vec![in alloc; 0; roles.len()]?;
        let end = vec![in alloc; 0; roles.len()]?;
        let values = vec![in alloc; 0; roles.len()]?;
        let brief = brief_cells(alloc, program.widest)?;
        let turns = turns_of_ranges(alloc, program.ranges)?;
        let scratch = vec![in alloc; 0; program.scratch]?;
        Ok(Replay {
            view,
            cells,
            program,
            roles,
            image,
            begin,
            end,
            values,
            brief,
            turns,
            scratch,
            ready: false,
        })
    }

    /// Begins a run: each kept cell has its start value, and the parameters that no binding gives a value have these, in the order
    /// of the table, each in its range. Ready from then on.
    pub fn start(&mut self, params: &[i128])
        ensures image { (source : Source) → IsReplayOf source self.old
            → AreWithin (param_ranges source.cells) params.now
            → image_of self.new ≡ start source params.now }
        ensures ready { is_ready self.new ≡ true }
        ensures told { (begin_of self.new ≡ begin_of self.old) × (end_of self.new ≡ end_of self.old) }
        ensures lent { (cells_of self.new ≡ cells_of self.old) × (view_of self.new ≡ view_of self.old) }
        ensures of { (source : Source) → IsReplayOf source self.old → IsReplayOf source self.new }
    {
        image::start(self.cells, params, &mut self.image);
        self.ready = true;
    }

    /// Goes on from these values of the kept cells and the parameters, in the order of the table, each in its range. Ready from then
    /// on.
    pub fn set_image(&mut self, image: &[i128])
        ensures image { (source : Source) → IsReplayOf source self.old
            → AreWithin (image_ranges source.cells) image.now → image_of self.new ≡ image.now }
        ensures ready { is_ready self.new ≡ true }
        ensures told { (begin_of self.new ≡ begin_of self.old) × (end_of self.new ≡ end_of self.old) }
        ensures lent { (cells_of self.new ≡ cells_of self.old) × (view_of self.new ≡ view_of self.old) }
        ensures of { (source : Source) → IsReplayOf source self.old → IsReplayOf source self.new }
    {
        image::narrow(image, &mut self.image);
        self.ready = true;
    }

    /// One scan, with these values of the input cells, in the order of the table, each in its range. It is for a replay that is ready,
    /// which stays so after a scan that is done; after a trap or a loop that is over its bound it isn't, until an image is given, and
    /// what is stored is as before.
    pub fn scan(&mut self, input: &[i128]) -> ScanEnd
        ensures scan { (source : Source) → IsReplayOf source self.old → is_ready self.old ≡ true
            → AreWithin (input_ranges source.cells) input.now
            → IsScanned source self.old self.new input.now result }
        ensures range { (source : Source) → IsReplayOf source self.old
            → AreWithin (image_ranges source.cells) (image_of self.old)
            → AreWithin (input_ranges source.cells) input.now
            → AreWithin (visible_ranges source.cells) (begin_of self.new) }
        ensures stopped { is_done result ≡ false
            → (image_of self.new ≡ image_of self.old) × (end_of self.new ≡ end_of self.old) }
        ensures ready { is_ready self.new ≡ (is_ready self.old && is_done result) }
        ensures lent { (cells_of self.new ≡ cells_of self.old) × (view_of self.new ≡ view_of self.old) }
        ensures of { (source : Source) → IsReplayOf source self.old → IsReplayOf source self.new }
    {
        image::begin(&self.roles, &self.image, input, &mut self.values);
        image::widen(&self.values, &mut self.begin);
        let ran = self.program.run(
            &mut self.values,
            &mut self.brief,
            &mut self.turns,
            &mut self.scratch,
        );
        match ran {
            Ok(()) => {
                image::widen(&self.values, &mut self.end);
                image::keep(&self.roles, &self.values, &mut self.image);
                ScanEnd::Done
            }
            Err(stop) => {
                self.ready = false;
                ScanEnd::of(stop)
            }
        }
    }

    /// The visible cells at the last scan's beginning, in the order of the table; before there is one no clause says what they are.
    pub fn begin(&self) -> &[i128]
        ensures told { result.now ≡ begin_of self.now }
        ensures long { All IsLong result.now }
    {
        &self.begin
    }

    /// The visible cells at the end of the last scan that was done, in the order of the table; before there is one no clause says what
    /// they are.
    pub fn end(&self) -> &[i128]
        ensures told { result.now ≡ end_of self.now }
        ensures long { All IsLong result.now }
    {
        &self.end
    }

    /// Whether a scan may follow: an image was given, and each scan since then was done.
    pub fn ready(&self) -> bool
        ensures { result ≡ is_ready self.now }
    {
        self.ready
    }

    /// The cell table that the replay was made with.
    pub fn cells(&self) -> &'a [Cell]
        ensures { result.now ≡ cells_of self.now }
    {
        self.cells
    }

    /// What the case says of it.
    pub fn view(&self) -> &'a CaseView
        ensures { result.now ≡ view_of self.now }
    {
        self.view
    }
}
