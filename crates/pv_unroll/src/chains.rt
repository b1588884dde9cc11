//! The edges of each location, in the order of their numbers, as chains through a table.
ghost use Rattle.std.specs.Prelude.{◌≡◌, suc, replicate, slice_get, IfOk};
ghost use Rattle.pv_unroll.specs.Chains.{chained, chained_by, chains_of, counted};
ghost use Rattle.pv_unroll.specs.Seen.{chains_seen};

use crate::numbers::{number_at, raise_at, set_at};
use pv_flow::Edge;
use std::alloc::{AllocError, Global};

/// Numbers of edges are one more here, and 0 stands for none: of each location its first edge, of each edge the next of its location.
#[derive(Drop)]
pub(crate) struct Chains {
    pub(crate) heads: Vec<u64>,
    pub(crate) nexts: Vec<u64>,
}

impl Chains {
    /// Puts an edge before those of its location; `head` is one more than its number.
    fn put(&mut self, number: usize, head: u64, from: u32)
        requires { head ≡ suc number }
        ensures { chains_seen self.new ≡ chained number from (chains_seen self.old) }
    {
        let from = from as usize;
        let next = number_at(self.heads.as_slice(), from);
        set_at(&mut self.nexts, number, next);
        set_at(&mut self.heads, from, head);
    }

    /// Puts the edge of this number, if there is one, before those of its location.
    fn put_one(&mut self, edges: &[Edge], number: usize, head: u64)
        requires { head ≡ suc number }
        ensures { chains_seen self.new ≡ chained_by number (slice_get edges.now number) (chains_seen self.old) }
    {
        match edges.get(number) {
            Some(edge) => self.put(number, head, edge.from),
            None => {}
        }
    }
}

/// The chains of these edges.
pub(crate) fn chains_of(
    alloc: Global,
    edges: &[Edge],
    locations: usize,
) -> Result<Chains, AllocError>
    ensures { IfOk result (λ found. chains_seen found ≡ chains_of locations edges.now) }
{
    let mut found = Chains {
        heads: vec![in alloc; 0; locations]?,
        nexts: vec![in alloc; 0; edges.len()]?,
    };
    let mut number = edges.len();
    while number > 0 {
        let head = number as u64;
        number -= 1;
        found.put_one(edges, number, head);
    }
    Ok(found)
}

/// How many edges begin at each location.
pub(crate) fn counts(
    alloc: Global,
    edges: &[Edge],
    locations: usize,
) -> Result<Vec<u64>, AllocError>
    ensures { IfOk result (λ found. found.items ≡ counted (replicate locations 0) edges.now) }
{
    let mut found = vec![in alloc; 0; locations]?;
    for edge in edges {
        raise_at(&mut found, edge.from as usize);
    }
    Ok(found)
}
