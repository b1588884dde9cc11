//! Lines of cells and of a pattern's expressions.
ghost use Rattle.std.specs.Prelude.{◌≡◌, ◌++◌, pos, not, All, OnOk, slice_index_or};
ghost use Rattle.pv_mean.specs.Frames.{is_brief, visible_cells};
ghost use Rattle.pv_pattern.specs.Terms.{IsStored};
ghost use Rattle.pv_report.specs.Reports.{value_line};
ghost use Rattle.pv_command_show.specs.Texts.{is_sort, front_of, is_told, cell_line, cell_lines, truth_text, truth_line};
ghost use Rattle.pv_command_show.specs.Steps.{term_lines};

use itoa::Buffer;
use pv_mean::Cell;
use pv_pattern::Pattern;
use pv_place::Role;
use std::alloc::AllocError;

/// The value of this number; 0 after the last one.
fn value_at(values: &[i128], n: usize) -> i128
    ensures { result ≡ slice_index_or values.now n (pos 0) }
{
    match values.get(n) {
        Some(v) => *v,
        None => 0,
    }
}

/// Whether cells of this role have a value for the whole of a scan.
fn is_visible(role: Role) -> bool
    ensures { result ≡ not (is_brief role) }
{
    match role {
        Role::Input | Role::Param | Role::Kept => true,
        Role::Brief => false,
    }
}

/// Whether the cell is an input, or another one.
fn is_sort(inputs: bool, cell: &Cell) -> bool
    ensures { result ≡ is_sort inputs cell.now }
{
    if inputs {
        cell.role.is_input()
    } else {
        !cell.role.is_input()
    }
}

/// Whether a cell of the sort has a line: where each is told, and where its value is another than it was.
fn is_told(inputs: bool, each: bool, cell: &Cell, was: i128, is: i128) -> bool
    ensures { result ≡ is_told inputs each cell.now was is }
{
    is_sort(inputs, cell) && (each || was != is)
}

fn push_front(text: &mut Vec<u8>, inputs: bool) -> Result<(), AllocError>
    ensures { OnOk result (text.new.items ≡ text.old.items ++ front_of inputs) }
{
    if inputs {
        text.extend_from_slice(b"in ")?;
    }
    Ok(())
}

/// Appends the line of a cell's value to a text.
fn push_line(text: &mut Vec<u8>, inputs: bool, cell: &Cell, value: i128) -> Result<(), AllocError>
    ensures { OnOk result (text.new.items ≡ text.old.items ++ value_line (front_of inputs) cell.now value) }
{
    let mut buffer = Buffer::new();
    push_front(text, inputs)?;
    text.extend_from_slice(cell.path.bytes())?;
    text.extend_from_slice(b" = ")?;
    text.extend_from_slice(buffer.format(value).as_bytes())?;
    text.push(b'\n')?;
    Ok(())
}

/// Appends the cell's line to a text, if it has one.
fn push_cell(
    text: &mut Vec<u8>,
    inputs: bool,
    each: bool,
    cell: &Cell,
    was: i128,
    is: i128,
) -> Result<(), AllocError>
    ensures { OnOk result (text.new.items ≡ text.old.items ++ cell_line inputs each cell.now was is) }
{
    if is_told(inputs, each, cell, was, is) {
        push_line(text, inputs, cell, is)?;
    }
    Ok(())
}

/// Appends the lines of the visible cells of a sort to a text: of all of them where each is told, else of those whose values differ from
/// the earlier ones.
pub(crate) fn push_cells(
    text: &mut Vec<u8>,
    inputs: bool,
    each: bool,
    cells: &[Cell],
    earlier: &[i128],
    values: &[i128],
) -> Result<(), AllocError>
    ensures { OnOk result (text.new.items
        ≡ text.old.items ++ cell_lines inputs each (visible_cells cells.now) 0 earlier.now values.now) }
{
    let mut next = 0;
    for cell in cells {
        if is_visible(cell.role) {
            let was = value_at(earlier, next);
            let is = value_at(values, next);
            push_cell(text, inputs, each, cell, was, is)?;
            next += 1;
        }
    }
    Ok(())
}

fn truth_name(truth: bool) -> &'static str
    ensures { result.now ≡ truth_text truth }
{
    if truth { " = 1\n" } else { " = 0\n" }
}

/// Appends to a text whether an expression is true.
fn push_truth(text: &mut Vec<u8>, letter: &[u8], truth: bool) -> Result<(), AllocError>
    ensures { OnOk result (text.new.items ≡ text.old.items ++ truth_line letter.now truth) }
{
    text.extend_from_slice(letter)?;
    text.extend_from_slice(truth_name(truth).as_bytes())?;
    Ok(())
}

/// Appends to a text whether the pattern's expressions are true, by the visible cells at a scan's beginning and end.
pub(crate) fn push_pattern(
    text: &mut Vec<u8>,
    pattern: &Pattern,
    begin: &[i128],
    end: &[i128],
) -> Result<(), AllocError>
    requires begun { All IsStored begin.now }
    requires ended { All IsStored end.now }
    ensures { OnOk result (text.new.items ≡ text.old.items ++ term_lines pattern.now begin.now end.now) }
{
    match pattern {
        Pattern::Invariant(a) => push_truth(text, b"a", a.is_true(end)),
        Pattern::Forbidden(a) => push_truth(text, b"a", a.is_true(end)),
        Pattern::Implication(a, b) => {
            push_truth(text, b"a", a.is_true(end))?;
            push_truth(text, b"b", b.is_true(end))
        }
        Pattern::Within(a, b) => {
            push_truth(text, b"a", a.is_true(begin))?;
            push_truth(text, b"b", b.is_true(end))
        }
        Pattern::Between(a, b, c) => {
            push_truth(text, b"a", a.is_true(end))?;
            push_truth(text, b"b", b.is_true(end))?;
            push_truth(text, b"c", c.is_true(end))
        }
        Pattern::Reach(a) => push_truth(text, b"a", a.is_true(end)),
    }
}
