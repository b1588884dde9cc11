//! How many edges begin at a location, and how many of them stand before each.
ghost use Rattle.std.specs.Prelude.{◌≡◌, ◌≤◌, length, replicate, IfOk, IfErr};
ghost use Rattle.pv_call_tables.specs.Wanted.{MOST, IsMemory};
ghost use Rattle.pv_call_tables.specs.Ranks.{counted, ranks_by};

use crate::fault::Wanting;
use crate::numbers::{number_at, raise_at};
use pv_flow::Edge;
use std::alloc::Global;

/// How many edges begin at each location.
pub fn counts(alloc: Global, edges: &[Edge], locations: u32) -> Result<Vec<u32>, Wanting>
    ensures found { IfOk result (λ found. found.items ≡ counted (replicate locations 0) edges.now) }
    ensures short { length edges.now ≤ MOST → IfErr result IsMemory }
{
    let mut found = vec![in alloc; 0; locations as usize]?;
    for edge in edges {
        raise_at(&mut found, edge.from as usize)?;
    }
    Ok(found)
}

/// Of each edge how many others of its location stand before it.
pub fn ranks(alloc: Global, edges: &[Edge], locations: u32) -> Result<Vec<u32>, Wanting>
    ensures found { IfOk result (λ found. found.items ≡ ranks_by (replicate locations 0) edges.now) }
    ensures short { length edges.now ≤ MOST → IfErr result IsMemory }
{
    let mut counts = vec![in alloc; 0; locations as usize]?;
    let mut found = Vec::with_capacity(alloc, edges.len())?;
    for edge in edges {
        found.push(number_at(counts.as_slice(), edge.from as usize))?;
        raise_at(&mut counts, edge.from as usize)?;
    }
    Ok(found)
}
