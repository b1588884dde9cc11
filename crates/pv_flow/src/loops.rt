//! Whether loops are as they should be: their edges are there, they nest, and they are entered at their first location.
ghost use Rattle.std.specs.Prelude.{◌≡◌, ◌&&◌, true, IfOk, map, nat_lt};
ghost use Rattle.std.specs.List.{list_all};
ghost use Rattle.pv_flow.specs.Faults.{has_locations, has_loops};
ghost use Rattle.pv_flow.specs.Windows.{AreNested, calls_enter, edges_enter, ranges_nest, turns_lie, windows_let};
ghost use Rattle.pv_flow.specs.View.{loop_of, parts_of};

use crate::parts::{CallEdge, Edge, Loop, Parts};
use crate::windows::{Range, lets, window_at, windows_of};
use std::alloc::{AllocError, Global};

fn turns_are_there(turns: &[u32], edges: usize) -> bool
    ensures { result ≡ list_all (λ e. nat_lt e edges) turns.now }
{
    turns.iter().all(|e| (*e as usize) < edges)
}

/// Whether the turn edges of all loops are there.
fn turns_lie(parts: &Parts) -> bool
    ensures { result ≡ turns_lie parts.now }
{
    let edges = parts.edges.len();
    parts
        .loops
        .iter()
        .all(|range| turns_are_there(range.turns.as_slice(), edges))
}

/// Whether each loop ends within those around its first location.
fn ranges_nest(windows: &[Option<Range>], loops: &[Loop]) -> bool
    ensures { result ≡ ranges_nest windows.now loops.now }
{
    loops
        .iter()
        .all(|range| lets(window_at(windows, range.first), range.last))
}

/// Whether each edge enters loops at their first locations.
fn edges_enter(windows: &[Option<Range>], edges: &[Edge]) -> bool
    ensures { result ≡ edges_enter windows.now edges.now }
{
    edges
        .iter()
        .all(|edge| lets(window_at(windows, edge.to), edge.from))
}

fn calls_enter(windows: &[Option<Range>], calls: &[CallEdge]) -> bool
    ensures { result ≡ calls_enter windows.now calls.now }
{
    calls
        .iter()
        .all(|call| lets(window_at(windows, call.to), call.from))
}

fn loops_lie(parts: &Parts, windows: &[Option<Range>]) -> bool
    ensures { result ≡ (turns_lie parts.now && ranges_nest windows.now parts.now.loops.items) }
{
    turns_lie(parts) && ranges_nest(windows, parts.loops.as_slice())
}

fn all_enter(parts: &Parts, windows: &[Option<Range>]) -> bool
    ensures { result ≡ (edges_enter windows.now parts.now.edges.items && calls_enter windows.now parts.now.calls.items) }
{
    edges_enter(windows, parts.edges.as_slice()) && calls_enter(windows, parts.calls.as_slice())
}

fn windows_let(parts: &Parts, windows: &[Option<Range>]) -> bool
    ensures { result ≡ windows_let parts.now windows.now }
{
    loops_lie(parts, windows) && all_enter(parts, windows)
}

fn judged(swept: bool, parts: &Parts, windows: &Vec<Option<Range>>) -> bool
    ensures { result ≡ (swept && windows_let parts.now windows.now.items) }
{
    swept && windows_let(parts, windows.as_slice())
}

/// Whether all loops are as they should be. It takes time by the numbers of locations, edges and loops.
pub(crate) fn has_loops(alloc: Global, parts: &Parts) -> Result<bool, AllocError>
    requires locations { has_locations (parts_of parts.now) ≡ true }
    requires nested { has_loops (parts_of parts.now) ≡ true → AreNested (map loop_of parts.now.loops.items) }
    ensures { IfOk result (λ found. found ≡ has_loops (parts_of parts.now)) }
{
    let mut windows = Vec::new(alloc);
    let swept = windows_of(
        alloc,
        &mut windows,
        parts.loops.as_slice(),
        parts.locations as usize,
    )?;
    Ok(judged(swept, parts, &windows))
}
