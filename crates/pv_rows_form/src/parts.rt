//! Parts with their rows, each answered by a line.
use crate::settings::{is_setting, last};
use crate::telling::Told;
use crate::text::{expanded, field};
use std::alloc::Global;
use std::io;

/// A row, and the lines before it in its part that are no rows.
#[derive(Clone, Copy)]
pub struct Row<'a> {
    pub head: &'a str,
    pub text: &'a str,
}

/// The bytes that a text means for a row.
fn meant(text: &str, row: &str, told: &mut Told) -> Vec<u8> {
    let alloc = told.alloc();
    match expanded(alloc, text, row) {
        Ok(bytes) => bytes,
        Err(_) => {
            told.lose();
            Vec::new(alloc)
        }
    }
}

impl<'a> Row<'a> {
    /// The bytes that its field of this number, from 0, means. A row without the field has none.
    pub fn bytes(&self, number: u8, told: &mut Told) -> Vec<u8> {
        meant(field(self.text, number), "", told)
    }

    /// The bytes that the last setting of this name means for it, or none.
    pub fn setting(&self, name: &str, told: &mut Told) -> Vec<u8> {
        meant(last(self.head, name).unwrap_or(""), self.text, told)
    }
}

/// What answers rows.
pub trait Calls {
    /// Tells what is answered to a row.
    fn answer(&self, row: Row<'_>, told: &mut Told);
}

/// Tells a row's part, its number in the part, and what is answered to it.
fn show_row(
    rt: &impl Print,
    alloc: Global,
    name: &str,
    number: u32,
    row: Row<'_>,
    calls: &impl Calls,
) -> io::Result<()> {
    let mut told = Told::new(alloc);
    calls.answer(row, &mut told);
    let line = told.line();
    println!(rt; "{name} {number}: {line}")
}

/// Says so where a line is no setting.
fn check_setting(rt: &impl Print, name: &str, line: &str, settings: &[&str]) -> io::Result<()> {
    if is_setting(line, settings) {
        return Ok(());
    }
    println!(rt; "{name}: no such setting: {line}")
}

/// Shows the rows of a part, whose first line is its name.
fn show_part(
    rt: &impl Print,
    alloc: Global,
    part: &str,
    settings: &[&str],
    calls: &impl Calls,
) -> io::Result<()> {
    let (name, lines) = part.split_once('\n').unwrap_or((part, ""));
    let mut head = String::new(alloc);
    let mut number = 0u32;
    for line in lines.split('\n') {
        if let Some(text) = line.strip_prefix("row") {
            number = number.saturating_add(1);
            let row = Row {
                head: head.as_str(),
                text,
            };
            show_row(rt, alloc, name, number, row, calls)?;
        } else {
            check_setting(rt, name, line, settings)?;
            head.push_str(line)?;
            head.push_str("\n")?;
        }
    }
    Ok(())
}

/// Prints what is answered to each row of a text, a line a row. Each part begins with a line `part NAME`, and a line that isn't empty and
/// begins neither with `row` nor with the name of a setting is told.
pub fn show_all(
    rt: &impl Print,
    alloc: Global,
    text: &str,
    settings: &[&str],
    calls: &impl Calls,
) -> io::Result<()> {
    for (i, part) in text.split("\npart ").enumerate() {
        if i > 0 {
            show_part(rt, alloc, part, settings, calls)?;
        }
    }
    Ok(())
}
