//! Whether the locations are there that parts name.
ghost use Rattle.std.specs.Prelude.{◌≡◌, ◌&&◌, nat_lt};
ghost use Rattle.std.specs.List.{list_all};
ghost use Rattle.pv_flow.specs.Faults.{has_locations};
ghost use Rattle.pv_flow.specs.Checks.{ways_lie, ends_lie, locations_lie};
ghost use Rattle.pv_flow.specs.View.{parts_of};

use crate::parts::{CallEdge, Edge, Loop, OverEnd, Parts, TrapEnd};

fn lie_below(a: u32, b: u32, n: u32) -> bool
    ensures { result ≡ (nat_lt a n && nat_lt b n) }
{
    a < n && b < n
}

fn edges_lie(edges: &[Edge], n: u32) -> bool
    ensures { result ≡ list_all (λ edge. nat_lt edge.from n && nat_lt edge.to n) edges.now }
{
    edges.iter().all(|edge| lie_below(edge.from, edge.to, n))
}

fn calls_lie(calls: &[CallEdge], n: u32) -> bool
    ensures { result ≡ list_all (λ call. nat_lt call.from n && nat_lt call.to n) calls.now }
{
    calls.iter().all(|call| lie_below(call.from, call.to, n))
}

fn loops_lie(loops: &[Loop], n: u32) -> bool
    ensures { result ≡ list_all (λ range. nat_lt range.first n && nat_lt range.last n) loops.now }
{
    loops
        .iter()
        .all(|range| lie_below(range.first, range.last, n))
}

fn traps_lie(traps: &[TrapEnd], n: u32) -> bool
    ensures { result ≡ list_all (λ end. nat_lt end.location n) traps.now }
{
    traps.iter().all(|end| end.location < n)
}

fn overs_lie(overs: &[OverEnd], n: u32) -> bool
    ensures { result ≡ list_all (λ end. nat_lt end.location n) overs.now }
{
    overs.iter().all(|end| end.location < n)
}

/// Whether edges, call edges and loops name locations of the parts.
fn ways_lie(parts: &Parts) -> bool
    ensures { result ≡ ways_lie parts.now }
{
    let n = parts.locations;
    edges_lie(parts.edges.as_slice(), n)
        && calls_lie(parts.calls.as_slice(), n)
        && loops_lie(parts.loops.as_slice(), n)
}

/// Whether ends do.
fn ends_lie(parts: &Parts) -> bool
    ensures { result ≡ ends_lie parts.now }
{
    let n = parts.locations;
    parts.done < n && traps_lie(parts.traps.as_slice(), n) && overs_lie(parts.overs.as_slice(), n)
}

fn locations_lie(parts: &Parts) -> bool
    ensures { result ≡ locations_lie parts.now }
{
    ways_lie(parts) && ends_lie(parts)
}

/// Whether each location that the parts name is one of theirs.
pub(crate) fn has_locations(parts: &Parts) -> bool
    ensures { result ≡ has_locations (parts_of parts.now) }
{
    locations_lie(parts)
}
