//! For each location from where edges may lead to it, by the loops around it that begin before it.
//!
//! One pass over loops that stand outermost first: the ranges that are still open lie on a stack, the innermost on top.
ghost use Rattle.std.specs.Prelude.{◌≡◌, ◌++◌, ◌∷◌, ◌≤◌, [], List, IfOk, OnOk, length, map, reverse};
ghost use Rattle.pv_flow.specs.Automata.{Loop as Plain};
ghost use Rattle.pv_flow.specs.Windows.{AreFilled, AreSwept, Enters, HaveWindows, Opens, Sweeps, closed, goes_on, is_ended, lets, top_of, window_at};
ghost use Rattle.pv_flow.specs.View.{loop_of};

use crate::parts::Loop;
use std::alloc::{AllocError, Global};

/// The locations from the first to the last.
#[derive(Clone, Copy)]
pub(crate) struct Range {
    pub first: u32,
    pub last: u32,
}

/// Whether the location lies in the window; where there is none, each does.
pub(crate) fn lets(window: Option<Range>, location: u32) -> bool
    ensures { result ≡ lets window location }
{
    match window {
        Some(range) => range.first <= location && location <= range.last,
        None => true,
    }
}

/// The window of this location, if there is one.
pub(crate) fn window_at(windows: &[Option<Range>], location: u32) -> Option<Range>
    ensures { result ≡ window_at windows.now location }
{
    let n = location as usize;
    if n < windows.len() { windows[n] } else { None }
}

/// What lies on top.
fn top_of(stack: &[Range]) -> Option<Range>
    ensures { result ≡ top_of (reverse stack.now) }
{
    match stack.last() {
        Some(range) => Some(*range),
        None => None,
    }
}

/// Whether the range on top ends before the location.
fn is_ended(stack: &[Range], location: usize) -> bool
    ensures { result ≡ is_ended location (reverse stack.now) }
{
    match stack.last() {
        Some(range) => (range.last as usize) < location,
        None => false,
    }
}

/// Takes off what ends before the location.
fn close(stack: &mut Vec<Range>, location: usize)
    ensures { reverse stack.new.items ≡ closed location (reverse stack.old.items) }
{
    while is_ended(stack.as_slice(), location) {
        let _ended = stack.pop();
    }
}

/// The window of the next location.
fn push_window(windows: &mut Vec<Option<Range>>, stack: &mut Vec<Range>) -> Result<(), AllocError>
    ensures stack { OnOk result (reverse stack.new.items ≡ closed (length windows.old.items) (reverse stack.old.items)) }
    ensures windows { OnOk result (windows.new.items ≡ windows.old.items ++ top_of (closed (length windows.old.items) (reverse stack.old.items)) ∷ []) }
{
    close(stack, windows.len());
    let window = top_of(stack.as_slice());
    windows.push(window)?;
    Ok(())
}

/// The windows of so many locations, if there aren't as many.
fn fill(
    windows: &mut Vec<Option<Range>>,
    stack: &mut Vec<Range>,
    count: usize,
) -> Result<(), AllocError>
    ensures filled { OnOk result (AreFilled (reverse stack.old.items) windows.old.items count (reverse stack.new.items) windows.new.items) }
    ensures count { OnOk result (count ≤ length windows.new.items) }
{
    while windows.len() < count {
        push_window(windows, stack)?;
    }
    Ok(())
}

/// Whether the loop isn't empty, and begins no earlier than those before it.
fn goes_on(range: &Loop, count: usize) -> bool
    ensures { result ≡ goes_on (loop_of range.now) count }
{
    range.first <= range.last && count <= range.first as usize + 1
}

/// Opens the loop, if it ends within what is open where it begins.
fn lay(stack: &mut Vec<Range>, range: &Loop) -> Result<bool, AllocError>
    ensures { IfOk result (λ laid. Opens laid (loop_of range.now) (reverse stack.old.items) (reverse stack.new.items)) }
{
    close(stack, range.first as usize);
    if !lets(top_of(stack.as_slice()), range.last) {
        return Ok(false);
    }
    stack.push(Range {
        first: range.first,
        last: range.last,
    })?;
    Ok(true)
}

/// Goes through one loop more, if it may stand behind those before it.
fn enter(
    windows: &mut Vec<Option<Range>>,
    stack: &mut Vec<Range>,
    range: &Loop,
) -> Result<bool, AllocError>
    ensures { (loops : List Plain) → AreSwept loops (reverse stack.old.items) windows.old.items
        → IfOk result (λ enters. Enters enters loops (loop_of range.now) (reverse stack.new.items) windows.new.items) }
{
    if !goes_on(range, windows.len()) {
        return Ok(false);
    }
    fill(windows, stack, range.first as usize + 1)?;
    lay(stack, range)
}

/// Goes through all loops, if each may stand behind those before it.
fn sweep(
    windows: &mut Vec<Option<Range>>,
    stack: &mut Vec<Range>,
    loops: &[Loop],
) -> Result<bool, AllocError>
    requires windows { windows.old.items ≡ [] }
    requires stack { stack.old.items ≡ [] }
    ensures { IfOk result (λ sweeps. Sweeps sweeps (map loop_of loops.now) (reverse stack.new.items) windows.new.items) }
{
    for range in loops {
        if !enter(windows, stack, range)? {
            return Ok(false);
        }
    }
    Ok(true)
}

/// The windows of so many locations, by loops each of which may stand behind those before it; whether they are such.
pub(crate) fn windows_of(
    alloc: Global,
    windows: &mut Vec<Option<Range>>,
    loops: &[Loop],
    count: usize,
) -> Result<bool, AllocError>
    requires { windows.old.items ≡ [] }
    ensures { IfOk result (λ swept. HaveWindows swept (map loop_of loops.now) count windows.new.items) }
{
    let mut stack = Vec::new(alloc);
    let swept = sweep(windows, &mut stack, loops)?;
    fill(windows, &mut stack, count)?;
    Ok(swept)
}
