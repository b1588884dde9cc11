//! Rows, each judged by a case of a program.
ghost use Rattle.std.specs.Prelude.{◌≤◌, length};

use crate::programs::program_of;
use pv_bool::Program;
use pv_bool_judged::{MAX_CASE_GATES, ProgramCase, Setting};
use pv_judge::judge_bytes;
use pv_kind::LAST_QUERY;
use pv_rows_form::{Calls, Row, Told, last, numbers};
use pv_valid::{Fault, Judged, Verdict};

/// What may stand at the beginning of a line that is no row.
pub const NAMES: [&str; 7] = ["#", "program", "case", "front", "back", "marks", "goal"];

/// What answers a row: the certificate that it has is judged.
pub struct Judging;

/// The number in this place of a list; 0 where it is shorter.
fn number_at(numbers: &[u64], n: usize) -> u64 {
    match numbers.get(n) {
        Some(number) => *number,
        None => 0,
    }
}

/// A number that 32 bits hold, or the greatest one.
fn small(number: u64) -> u32 {
    u32::try_from(number).unwrap_or(u32::MAX)
}

/// What a part says of the case: the depth, the lemmas, the words and the gates, whether there is a goal, and whether there are marks.
fn setting(row: Row<'_>, told: &mut Told) -> Setting {
    let alloc = told.alloc();
    let said = numbers(alloc, row.head, "case", row.text).unwrap_or(Vec::new(alloc));
    let list = said.as_slice();
    Setting {
        goal: last(row.head, "goal").is_some(),
        looks_back: last(row.head, "marks").is_some(),
        depth: small(number_at(list, 0)),
        lemmas: small(number_at(list, 1)),
        words: number_at(list, 2),
        gates: small(number_at(list, 3)),
    }
}

fn tell_verdict(verdict: &Verdict, told: &mut Told) {
    told.text("valid: ");
    told.words(&verdict.claim);
    if let Some(ending) = verdict.ending {
        told.text(", ");
        told.words(&ending);
    }
}

fn tell_judged<J: Judged>(case: &mut J, bytes: &[u8], told: &mut Told) {
    match judge_bytes(told.alloc(), case, bytes) {
        Ok(verdict) => tell_verdict(&verdict, told),
        Err(Fault::Line { line, kind }) => {
            told.number(i128::from(line));
            told.text(" ");
            told.text(kind.name());
        }
        Err(Fault::TooManyGates) => told.text("too many gates"),
        Err(Fault::NoMemory) => told.lose(),
    }
}

fn tell_case(program: &Program, setting: Setting, bytes: &[u8], told: &mut Told)
    requires { length program.now.bits.items ≤ 4 }
{
    if setting.depth > LAST_QUERY || setting.gates > MAX_CASE_GATES {
        return told.text("no such case");
    }
    match ProgramCase::new(told.alloc(), program, setting) {
        Ok(made) => {
            let mut case = made;
            tell_judged(&mut case, bytes, told);
        }
        Err(_) => told.lose(),
    }
}

/// The certificate of a row: what its part has in front, the row's own text, and what its part has behind.
fn certificate(row: Row<'_>, told: &mut Told) -> Vec<u8> {
    let mut text = row.setting("front", told);
    let mut own = row.bytes(0, told);
    let mut back = row.setting("back", told);
    if text.append(&mut own).is_err() || text.append(&mut back).is_err() {
        told.lose();
    }
    text
}

impl Calls for Judging {
    fn answer(&self, row: Row<'_>, told: &mut Told) {
        let setting = setting(row, told);
        let text = certificate(row, told);
        let name = last(row.head, "program").unwrap_or("");
        match program_of(told.alloc(), name) {
            Ok(program) => tell_case(&program, setting, text.as_slice(), told),
            Err(_) => told.lose(),
        }
    }
}
