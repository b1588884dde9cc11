//! The checks of a spot: their guards and deeds, and then their edges and ends.
ghost use Rattle.std.specs.Prelude.{◌≡◌, ◌<◌, ◌≤◌, ◌+◌, ◌*◌, ◌∷◌, [], ◌++◌, length, map, IfOk, OnOk};
ghost use Rattle.pv_layer.specs.Standing.{checks_below};
ghost use Rattle.pv_layer.specs.Making.{both_node, not_node, guard_nodes, last_none, deed_seen, trap_deeds, trap_edges, trap_ends};

use crate::tables::{add_both, add_deed, add_not};
use crate::types::Check;
use pv_flow::{Deed, Edge, Node, TrapEnd};
use smallvec::SmallVec;
use std::alloc::{AllocError, Global};

/// Whether the terms are among so many that the checks name.
pub(crate) fn checks_lie(checks: &[Check], terms: usize) -> bool
    ensures { result ≡ checks_below terms checks.now }
{
    checks.iter().all(|check| (check.fails as usize) < terms)
}

/// The guards of one check's edge and of what follows it: the number of the term that none so far fails.
fn add_guard(nodes: &mut Vec<Node>, none: u32, fails: u32) -> Result<u32, AllocError>
    requires { length nodes.old.items + 3 ≤ 4294967295 }
    ensures number { IfOk result (λ n. n ≡ length nodes.old.items + 2) }
    ensures list { OnOk result (nodes.new.items
        ≡ nodes.old.items ++ both_node fails none ∷ not_node fails ∷ both_node none (length nodes.old.items + 1) ∷ []) }
{
    let _ = add_both(nodes, fails, none)?;
    let clear = add_not(nodes, fails)?;
    add_both(nodes, none, clear)
}

/// The guards of all checks, and the deeds of their edges: the number of the term that none of them fails.
pub(crate) fn add_guards(
    alloc: Global,
    nodes: &mut Vec<Node>,
    deeds: &mut Vec<Deed>,
    none: u32,
    checks: &[Check],
) -> Result<u32, AllocError>
    requires nodes { length nodes.old.items + 3 * length checks.now ≤ 4294967295 }
    requires deeds { length deeds.old.items + length checks.now ≤ 4294967295 }
    ensures number { IfOk result (λ n. n ≡ last_none (length nodes.old.items) none checks.now) }
    ensures list { OnOk result (nodes.new.items ≡ nodes.old.items ++ guard_nodes (length nodes.old.items) none checks.now) }
    ensures deeds { OnOk result (map deed_seen deeds.new.items
        ≡ map deed_seen deeds.old.items ++ trap_deeds (length nodes.old.items) checks.now) }
    ensures count { OnOk result (length deeds.new.items ≡ length deeds.old.items + length checks.now) }
{
    let mut last = none;
    for check in checks {
        let guard = nodes.len() as u32;
        let _ = add_deed(deeds, guard, SmallVec::new(alloc))?;
        last = add_guard(nodes, last, check.fails)?;
    }
    Ok(last)
}

/// The edges of the checks, from this location, and their ends: the first lies at this trap and has this deed.
pub(crate) fn add_traps(
    edges: &mut Vec<Edge>,
    traps: &mut Vec<TrapEnd>,
    from: u32,
    trap: u32,
    deed: u32,
    checks: &[Check],
) -> Result<(), AllocError>
    requires traps { trap + length checks.now ≤ 4294967295 }
    requires deeds { deed + length checks.now ≤ 4294967295 }
    ensures edges { OnOk result (edges.new.items ≡ edges.old.items ++ trap_edges from trap deed checks.now) }
    ensures size { OnOk result (length edges.new.items ≡ length edges.old.items + length checks.now) }
    ensures ends { OnOk result (traps.new.items ≡ traps.old.items ++ trap_ends trap checks.now) }
{
    let mut location = trap;
    let mut number = deed;
    for check in checks {
        edges.push(Edge {
            from,
            to: location,
            deed: number,
        })?;
        traps.push(TrapEnd {
            location,
            kind: check.kind,
            place: check.place,
        })?;
        location += 1;
        number += 1;
    }
    Ok(())
}
