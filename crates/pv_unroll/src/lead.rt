//! Where a copy of an edge leads: the place of the first copy of its kind, and what the turns take that stand before it.
ghost use Rattle.std.specs.Prelude.{◌≡◌, ◌==◌, map, slice_get};
ghost use Rattle.pv_flow.specs.View.{loop_of};
ghost use Rattle.pv_unroll.specs.Leading.{is_of, limit_of, is_past, goes_round, next_turn, on_top, through, lead_from, turning_at};
ghost use Rattle.pv_unroll.specs.Seen.{table_seen};

use crate::endings::Ending;
use crate::numbers::{number_at, plus, times};
use pv_flow::{Edge, Loop};

/// A loop that holds the copy: its number, and which turn it is, from 0 on.
#[derive(Clone, Copy)]
pub(crate) struct Open {
    pub(crate) range: usize,
    pub(crate) turn: u64,
}

/// What is known of all locations, loops and edges.
#[derive(Clone, Copy)]
pub(crate) struct Table<'a> {
    pub(crate) loops: &'a [Loop],
    pub(crate) edges: &'a [Edge],
    /// What each location ends.
    pub(crate) endings: &'a [Ending],
    /// The place of the first copy of each location.
    pub(crate) firsts: &'a [u64],
    /// What a turn of each loop takes.
    pub(crate) turns: &'a [u64],
    /// The first place where each loop's bound is gone over.
    pub(crate) overs: &'a [u64],
    /// Of each edge the loop whose turn it starts, numbers being one more, and 0 for none.
    pub(crate) turned: &'a [u64],
    /// Of each location its first edge, numbers being one more, and 0 for none.
    pub(crate) heads: &'a [u64],
    /// Of each edge the next of its location.
    pub(crate) nexts: &'a [u64],
    /// How many turns each loop takes.
    pub(crate) bound: u64,
    pub(crate) locations: u32,
}

/// From where an edge leads where, and the number of the loop whose turn it starts.
#[derive(Clone, Copy)]
pub(crate) struct Way {
    pub(crate) from: u32,
    pub(crate) to: u32,
    pub(crate) turning: Option<usize>,
}

/// To the copy at a place, or to where a bound is gone over.
#[derive(Clone, Copy)]
pub(crate) enum Lead {
    On(u64),
    Over(u64),
}

/// Whether it is the loop of this number.
fn is_of(turning: Option<usize>, range: usize) -> bool
    ensures { result ≡ is_of turning range }
{
    match turning {
        Some(turning) => turning == range,
        None => false,
    }
}

/// In which turn an edge that starts a turn goes over the loop's bound, numbers being one more.
fn limit_of(range: &Loop, from: u32, bound: u64) -> u64
    ensures { result ≡ limit_of (loop_of range.now) from bound }
{
    if !range.entry_turn && range.first == from {
        plus(bound, 1)
    } else {
        bound
    }
}

/// Whether taking the edge in this turn starts a turn too many.
fn is_past(range: &Loop, around: Open, way: Way, bound: u64) -> bool
    ensures { result ≡ is_past (loop_of range.now) around way bound }
{
    is_of(way.turning, around.range) && limit_of(range, way.from, bound) <= plus(around.turn, 1)
}

/// Whether it leads to the loop's next turn.
fn goes_round(range: &Loop, around: Open, way: Way) -> bool
    ensures { result ≡ goes_round (loop_of range.now) around way }
{
    if range.entry_turn {
        is_of(way.turning, around.range)
    } else {
        range.first == way.to
    }
}

/// To which turn it leads.
fn next_turn(range: &Loop, around: Open, way: Way) -> u64
    ensures { result ≡ next_turn (loop_of range.now) around way }
{
    if goes_round(range, around, way) {
        plus(around.turn, 1)
    } else {
        around.turn
    }
}

/// What the loop's turns take before the one to which it leads, if it stays in the loop.
fn on_top(table: &Table, range: &Loop, around: Open, way: Way) -> u64
    ensures { result ≡ on_top (table_seen table.now) (loop_of range.now) around way }
{
    if range.first <= way.to && way.to <= range.last {
        times(
            next_turn(range, around, way),
            number_at(table.turns, around.range),
        )
    } else {
        0
    }
}

/// Past a loop around the copy: what comes on top, or where its bound is gone over.
fn through(table: &Table, around: Open, way: Way, sum: u64) -> Lead
    ensures { result ≡ through (table_seen table.now) (slice_get (map loop_of table.now.loops.now) around.range) around way sum }
{
    match table.loops.get(around.range) {
        Some(range) => {
            if is_past(range, around, way, table.bound) {
                Lead::Over(plus(number_at(table.overs, around.range), sum))
            } else {
                Lead::On(plus(sum, on_top(table, range, around, way)))
            }
        }
        None => Lead::On(sum),
    }
}

/// Where a copy of the edge leads, in the turns of these loops, outermost first.
pub(crate) fn lead_of(table: &Table, nest: &[Open], way: Way) -> Lead
    ensures { result ≡ lead_from (table_seen table.now) nest.now way 0 }
{
    let mut sum = 0;
    for around in nest {
        match through(table, *around, way, sum) {
            Lead::On(more) => sum = more,
            Lead::Over(place) => return Lead::Over(place),
        }
    }
    Lead::On(plus(number_at(table.firsts, way.to as usize), sum))
}

/// The loop whose turn the edge of this number starts.
pub(crate) fn turning_at(turned: &[u64], number: usize) -> Option<usize>
    ensures { result ≡ turning_at turned.now number }
{
    match number_at(turned, number) {
        0 => None,
        range => Some((range - 1) as usize),
    }
}
