//! What begins at each location, in the order of its numbers, as chains through a table.
ghost use Rattle.std.specs.Prelude.{◌≡◌, suc, map, length, slice_index_or, slice_set, IfOk};
ghost use Rattle.pv_call_tables.specs.Chains.{chained, chains_of, along, from_of, first_of};
ghost use Rattle.pv_call_tables.specs.Seen.{chains_seen};

use crate::numbers::number_at;
use pv_flow::{Edge, Loop};
use std::alloc::{AllocError, Global};

/// Numbers are one more here, and 0 stands for none: of each location the first that begins there, of each the next of its location.
#[derive(Drop)]
pub struct Chains {
    heads: Vec<u64>,
    nexts: Vec<u64>,
}

/// The number at an index, and 0 past the end.
fn link_at(links: &[u64], index: usize) -> u64
    ensures { result ≡ slice_index_or links.now index 0 }
{
    if index < links.len() { links[index] } else { 0 }
}

/// Sets the number at an index, if there is one.
fn set_link(links: &mut [u64], index: usize, n: u64)
    ensures { links.new ≡ slice_set links.old index n }
{
    if index < links.len() {
        links[index] = n;
    }
}

impl Chains {
    /// Puts the one of this number before those of its location; `head` is one more than the number.
    fn put(&mut self, number: usize, head: u64, from: u32)
        requires { head ≡ suc number }
        ensures { chains_seen self.new ≡ chained number from (chains_seen self.old) }
    {
        let from = from as usize;
        let next = link_at(self.heads.as_slice(), from);
        set_link(&mut self.nexts, number, next);
        set_link(&mut self.heads, from, head);
    }

    /// The numbers of what begins at the location.
    pub fn numbers(&self, alloc: Global, l: usize) -> Result<Vec<usize>, AllocError>
        ensures { IfOk result (λ made. made.items
            ≡ along self.now.nexts.items (length self.now.nexts.items) (slice_index_or self.now.heads.items l 0)) }
    {
        let mut made = Vec::new(alloc);
        let nexts = self.nexts.as_slice();
        let head = link_at(self.heads.as_slice(), l);
        let mut left = head;
        for _ in 0..self.nexts.len() {
            if left == 0 {
                return Ok(made);
            }
            let number = (left - 1) as usize;
            made.push(number)?;
            left = link_at(nexts, number);
        }
        Ok(made)
    }
}

/// The chains of what begins at these locations.
fn chains_of(alloc: Global, froms: &[u32], locations: u32) -> Result<Chains, AllocError>
    ensures { IfOk result (λ found. chains_seen found ≡ chains_of locations froms.now) }
{
    let mut found = Chains {
        heads: vec![in alloc; 0; locations as usize]?,
        nexts: vec![in alloc; 0; froms.len()]?,
    };
    let mut number = froms.len();
    while number > 0 {
        let head = number as u64;
        number -= 1;
        found.put(number, head, number_at(froms, number));
    }
    Ok(found)
}

fn froms_of(alloc: Global, edges: &[Edge]) -> Result<Vec<u32>, AllocError>
    ensures { IfOk result (λ made. made.items ≡ map from_of edges.now) }
{
    let mut made = Vec::with_capacity(alloc, edges.len())?;
    for edge in edges {
        made.push(edge.from)?;
    }
    Ok(made)
}

fn firsts_of(alloc: Global, loops: &[Loop]) -> Result<Vec<u32>, AllocError>
    ensures { IfOk result (λ made. made.items ≡ map first_of loops.now) }
{
    let mut made = Vec::with_capacity(alloc, loops.len())?;
    for range in loops {
        made.push(range.first)?;
    }
    Ok(made)
}

/// The edges by the locations where they begin.
pub fn edge_chains(alloc: Global, edges: &[Edge], locations: u32) -> Result<Chains, AllocError>
    ensures { IfOk result (λ found. chains_seen found ≡ chains_of locations (map from_of edges.now)) }
{
    let froms = froms_of(alloc, edges)?;
    chains_of(alloc, froms.as_slice(), locations)
}

/// The loops by their first locations.
pub fn loop_chains(alloc: Global, loops: &[Loop], locations: u32) -> Result<Chains, AllocError>
    ensures { IfOk result (λ found. chains_seen found ≡ chains_of locations (map first_of loops.now)) }
{
    let firsts = firsts_of(alloc, loops)?;
    chains_of(alloc, firsts.as_slice(), locations)
}
