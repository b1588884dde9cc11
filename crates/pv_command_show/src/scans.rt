//! The scans of a replay, told one by one.
ghost use Rattle.std.specs.Prelude.{◌≡◌, ◌++◌, List, codes, true, None, All, IfOk, OnOk, take};
ghost use Rattle.std.specs.Fmt.{decimal};
ghost use Rattle.std.specs.List.{AllByRecursion};
ghost use Rattle.pv_place.specs.Ranges.{AreWithin};
ghost use Rattle.pv_mean.specs.Sources.{Source};
ghost use Rattle.pv_mean.specs.Frames.{input_ranges};
ghost use Rattle.pv_mean.specs.Scans.{scan};
ghost use Rattle.pv_mean.specs.Runs.{run_from};
ghost use Rattle.pv_pattern.specs.Patterns.{Pattern as A_pattern};
ghost use Rattle.pv_pattern.specs.Found.{IsPatternOf};
ghost use Rattle.pv_pattern.specs.Terms.{IsStored};
ghost use Rattle.pv_program.specs.Spelled.{IsRunWith};
ghost use Rattle.pv_replay.specs.Replays.{HasStarts, IsReplayOf, image_of, begin_of, end_of, is_ready, cells_of};
ghost use Rattle.pv_command_replay.specs.Handed.{SubjectData, source_in, IsSubject};
ghost use Rattle.pv_command_replay.specs.Judged.{IsSourceOf, HasValuesOf};
ghost use Rattle.pv_command_show.specs.Texts.{input_lines, other_lines, scan_text, scans_text, told_inputs, shown_scans};
ghost use Rattle.pv_command_show.specs.Steps.{term_lines, seen_by, seen_in, GoesSo};

use crate::lines::{push_cells, push_pattern};
use itoa::Buffer;
use pv_cells::Table;
use pv_claims::{CellValues, Trace};
use pv_command_replay::{End, Subject};
use pv_mean::{CaseView, Cell};
use pv_pattern::Pattern;
use pv_program::replay_of;
use pv_replay::{Replay, ScanEnd};
use pv_tree::Project;
use std::alloc::{AllocError, Global};

/// The visible cells at the beginning and the end of the scan before, if there is one.
#[derive(Drop)]
struct Before {
    is_some: bool,
    begin: Vec<i128>,
    end: Vec<i128>,
}

/// Makes the values these.
fn copy(values: &mut Vec<i128>, from: &[i128]) -> Result<(), AllocError>
    ensures { OnOk result (values.new.items ≡ from.now) }
{
    values.clear();
    values.extend_from_slice(from)?;
    Ok(())
}

impl Before {
    fn keep(&mut self, begin: &[i128], end: &[i128]) -> Result<(), AllocError>
        ensures { OnOk result (seen_in self.new ≡ seen_by true begin.now end.now) }
    {
        copy(&mut self.begin, begin)?;
        copy(&mut self.end, end)?;
        self.is_some = true;
        Ok(())
    }

    /// Appends the lines of a scan's inputs to a text.
    fn push_inputs(
        &self,
        text: &mut Vec<u8>,
        cells: &[Cell],
        begin: &[i128],
    ) -> Result<(), AllocError>
        ensures { OnOk result (text.new.items ≡ text.old.items ++ input_lines cells.now (seen_in self.now) begin.now) }
    {
        if self.is_some {
            push_cells(text, true, false, cells, &self.begin, begin)
        } else {
            push_cells(text, true, true, cells, begin, begin)
        }
    }

    /// Appends the lines of the other cells at a scan's end to a text.
    fn push_others(
        &self,
        text: &mut Vec<u8>,
        cells: &[Cell],
        begin: &[i128],
        end: &[i128],
    ) -> Result<(), AllocError>
        ensures { OnOk result (text.new.items ≡ text.old.items ++ other_lines cells.now (seen_in self.now) begin.now end.now) }
    {
        if self.is_some {
            push_cells(text, false, false, cells, &self.end, end)
        } else {
            push_cells(text, false, false, cells, begin, end)
        }
    }

    /// Appends the lines of a scan that is done, after its inputs, to a text.
    fn push_done(
        &self,
        text: &mut Vec<u8>,
        cells: &[Cell],
        pattern: &Pattern,
        begin: &[i128],
        end: &[i128],
    ) -> Result<(), AllocError>
        requires begun { All IsStored begin.now }
        requires ended { All IsStored end.now }
        ensures { OnOk result (text.new.items ≡ text.old.items
            ++ (other_lines cells.now (seen_in self.now) begin.now end.now ++ term_lines pattern.now begin.now end.now)) }
    {
        self.push_others(text, cells, begin, end)?;
        push_pattern(text, pattern, begin, end)
    }
}

/// Appends a scan's first line to a text.
fn push_number(text: &mut Vec<u8>, number: u64) -> Result<(), AllocError>
    ensures { OnOk result (text.new.items ≡ text.old.items ++ (codes "scan " ++ (decimal number ++ codes "\n"))) }
{
    let mut buffer = Buffer::new();
    text.extend_from_slice(b"scan ")?;
    text.extend_from_slice(buffer.format(number).as_bytes())?;
    text.push(b'\n')?;
    Ok(())
}

/// Appends the lines of the last scan's inputs to a text.
fn push_given(text: &mut Vec<u8>, replay: &Replay, before: &Before) -> Result<(), AllocError>
    ensures { OnOk result (text.new.items
        ≡ text.old.items ++ input_lines (cells_of replay.now) (seen_in before.now) (begin_of replay.now)) }
{
    before.push_inputs(text, replay.cells(), replay.begin())
}

/// Appends the lines of the last scan, which is done, to a text.
fn push_whole(
    text: &mut Vec<u8>,
    replay: &Replay,
    pattern: &Pattern,
    before: &Before,
) -> Result<(), AllocError>
    ensures { OnOk result (text.new.items ≡ text.old.items
        ++ (input_lines (cells_of replay.now) (seen_in before.now) (begin_of replay.now)
        ++ (other_lines (cells_of replay.now) (seen_in before.now) (begin_of replay.now) (end_of replay.now)
        ++ term_lines pattern.now (begin_of replay.now) (end_of replay.now)))) }
{
    push_given(text, replay, before)?;
    before.push_done(text, replay.cells(), pattern, replay.begin(), replay.end())
}

/// Does the next scan and appends its lines to a text; whether it is done.
fn push_scan(
    text: &mut Vec<u8>,
    replay: &mut Replay,
    pattern: &Pattern,
    before: &mut Before,
    number: u64,
    input: &[i128],
) -> Result<bool, AllocError>
    ensures told { IfOk result (λ done. (source : Source) (p : A_pattern) → IsReplayOf source replay.old
        → is_ready replay.old ≡ true → IsPatternOf source pattern.now p
        → AreWithin (input_ranges source.cells) input.now
        → text.new.items ≡ text.old.items
        ++ scan_text source p number (seen_in before.old) (scan source (image_of replay.old) input.now)) }
    ensures on { IfOk result (λ done. (source : Source) → IsReplayOf source replay.old
        → is_ready replay.old ≡ true → AreWithin (input_ranges source.cells) input.now
        → GoesSo done source replay.old replay.new (seen_in before.new) input.now) }
    ensures of { (source : Source) → IsReplayOf source replay.old → IsReplayOf source replay.new }
{
    push_number(text, number)?;
    match replay.scan(input) {
        ScanEnd::Done => {
            push_whole(text, replay, pattern, before)?;
            before.keep(replay.begin(), replay.end())?;
            Ok(true)
        }
        ScanEnd::Trap(..) => {
            push_given(text, replay, before)?;
            Ok(false)
        }
        ScanEnd::Over(_) => {
            push_given(text, replay, before)?;
            Ok(false)
        }
    }
}

/// Appends the lines of the scans with these inputs to a text, of a replay that is ready, up to the first that isn't done.
fn push_scans(
    alloc: Global,
    text: &mut Vec<u8>,
    replay: &mut Replay,
    pattern: &Pattern,
    inputs: &[CellValues],
) -> Result<(), AllocError>
    ensures { OnOk result ((source : Source) (p : A_pattern) → IsReplayOf source replay.old
        → is_ready replay.old ≡ true → IsPatternOf source pattern.now p
        → AllByRecursion (AreWithin (input_ranges source.cells)) inputs.now
        → text.new.items ≡ text.old.items
        ++ scans_text source p 1 None (run_from source (image_of replay.old) inputs.now)) }
{
    let mut before = Before {
        is_some: false,
        begin: Vec::new(alloc),
        end: Vec::new(alloc),
    };
    for (done, input) in inputs.iter().enumerate() {
        let goes_on = push_scan(
            text,
            replay,
            pattern,
            &mut before,
            done as u64 + 1,
            input.as_slice(),
        )?;
        if !goes_on {
            return Ok(());
        }
    }
    Ok(())
}

/// The first so many inputs, as far as there are any.
fn first_inputs(inputs: &[CellValues], count: u64) -> &[CellValues]
    ensures { result.now ≡ take count inputs.now }
{
    if count < inputs.len() as u64 {
        &inputs[..count as usize]
    } else {
        inputs
    }
}

/// The inputs of the scans that are told.
fn told(end: End, inputs: &[CellValues]) -> &[CellValues]
    ensures { result.now ≡ told_inputs end inputs.now }
{
    match end {
        End::Kept { .. } => inputs,
        End::Broken { scan, .. } => first_inputs(inputs, scan),
        End::Over { scan, .. } => first_inputs(inputs, scan),
        End::Reached { scan } => first_inputs(inputs, scan),
        End::NotReached { .. } => inputs,
    }
}

/// The lines of the scans of a trace whose replay ends so.
fn shown(
    alloc: Global,
    project: &Project,
    view: &CaseView,
    table: &Table,
    pattern: &Pattern,
    trace: &Trace,
    end: End,
) -> Result<Vec<u8>, AllocError>
    requires { IsRunWith project.now view.now table.now }
    ensures { IfOk result (λ text. (source : Source) (p : A_pattern)
        → IsSourceOf source project.now view.now table.now → HasStarts source
        → IsPatternOf source pattern.now p → HasValuesOf source trace.now
        → text.items ≡ shown_scans source p trace.now end) }
{
    let mut replay = replay_of(alloc, project, view, table)?;
    replay.start(trace.params.as_slice());
    let mut text = Vec::new(alloc);
    push_scans(
        alloc,
        &mut text,
        &mut replay,
        pattern,
        told(end, trace.inputs.as_slice()),
    )?;
    Ok(text)
}

/// The lines of the scans of a trace on the subject, whose replay ends so.
pub(crate) fn scans_of(
    alloc: Global,
    subject: &Subject,
    trace: &Trace,
    end: End,
) -> Result<Vec<u8>, AllocError>
    requires { IsRunWith subject.now.project subject.now.view subject.now.table }
    ensures { IfOk result (λ text. (s : SubjectData) → IsSubject subject.now s
        → HasStarts (source_in s) → HasValuesOf (source_in s) trace.now
        → text.items ≡ shown_scans (source_in s) s.pattern trace.now end) }
{
    shown(
        alloc,
        &subject.project,
        &subject.view,
        &subject.table,
        &subject.pattern,
        trace,
        end,
    )
}
