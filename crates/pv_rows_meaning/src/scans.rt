//! Scans of a project, step by step.
use crate::cells::{fits, view_of};
use crate::patterns::{table_of, values};
use crate::reading::{project_of, said};
use pv_cells::Table;
use pv_mean::CaseView;
use pv_program::make;
use pv_replay::{Replay, ScanEnd};
use pv_rows_form::{Row, Told};
use pv_tree::Project;

/// Values with blanks between them.
fn tell_values(list: &[i128], told: &mut Told) {
    let mut between = "";
    for value in list {
        told.text(between);
        told.number(*value);
        between = " ";
    }
}

/// The visible cells at a scan's end, or what stops it with the place.
fn tell_end(replay: &Replay<'_>, end: ScanEnd, told: &mut Told) {
    match end {
        ScanEnd::Done => tell_values(replay.end(), told),
        ScanEnd::Trap(kind, place) => {
            told.words(&kind);
            told.text(" ");
            told.number(i128::from(place.offset));
        }
        ScanEnd::Over(place) => {
            told.text("Over ");
            told.number(i128::from(place.offset));
        }
    }
}

/// Does a step: `start` with the parameters' values, `image` with the values that are stored, `scan` with the input; `begin` and `end` tell
/// the visible cells' values at the last scan's beginning, and at the end of the last one that was done.
fn tell_step(replay: &mut Replay<'_>, text: &str, told: &mut Told) {
    let (word, rest) = text.split_once(' ').unwrap_or((text, ""));
    let numbers = values(rest, told);
    match word {
        "start" => replay.start(numbers.as_slice()),
        "image" => replay.set_image(numbers.as_slice()),
        "begin" => tell_values(replay.begin(), told),
        "end" => tell_values(replay.end(), told),
        _ => {
            let end = replay.scan(numbers.as_slice());
            tell_end(replay, end, told);
        }
    }
}

/// The word where a scan may follow, and else `!`.
fn tell_ready(replay: &Replay<'_>, word: &str, told: &mut Told) {
    if replay.ready() {
        told.text(word);
    } else {
        told.text("!");
    }
}

/// What each step tells, and where no scan may follow `!`.
fn tell_steps(replay: &mut Replay<'_>, steps: &str, told: &mut Told) {
    tell_ready(replay, "ready", told);
    for text in steps.split(';') {
        told.text("; ");
        tell_step(replay, text.trim(), told);
        tell_ready(replay, "", told);
    }
}

fn tell_made(project: &Project, view: &CaseView, table: &Table, steps: &str, told: &mut Told) {
    match make(told.alloc(), project, view, table) {
        Ok(made) => {
            let mut replay = made;
            tell_steps(&mut replay, steps, told);
        }
        Err(fault) => told.words(&fault),
    }
}

fn tell_over(project: &Project, view: &CaseView, steps: &str, told: &mut Told) {
    if let Some(made) = table_of(project, view.entry, &[], told) {
        let mut table = made;
        if fits(view, table.cells().len()) {
            table.set_params(view);
            tell_made(project, view, &table, steps, told);
        }
    }
}

/// What the row's steps tell of its project.
pub fn tell_scans(row: Row<'_>, told: &mut Told) {
    let view = view_of(row, told);
    let steps = said(row, "steps", told);
    if let Some(project) = project_of(row, told) {
        tell_over(&project, &view, steps.as_str(), told);
        drop(project);
    }
}
