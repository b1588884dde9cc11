//! Contract tests of the tables of blocks whose calls become copies, `pv_call_tables`.
//!
//! Each public call whose clauses are no equation of what it answers stands here once more, with the library's clauses, by the call itself.
//! An edit of `must-fail` gives a wrong answer in its place.
#![tactic(auto)]

ghost use Rattle.std.specs.Prelude.{◌≡◌, ◌+◌, ◌≤◌, ℕ, length, replicate, IfOk, OnOk, IfErr};
ghost use Rattle.pv_call_tables.specs.Drawing.{edges_by, traps_by, overs_by, next_after};
ghost use Rattle.pv_call_tables.specs.Ranks.{counted, ranks_by};
ghost use Rattle.pv_call_tables.specs.Wanted.{MOST, IsBeyond, IsMemory};
ghost use Rattle.pv_call_tables.specs.declared.fault.Wanting.{Wanting};
ghost use Rattle.pv_call_tables.specs.Widths.{text_at, drawn_at, summed, sums_below};

use pv_call_tables::{Called, Drawn, Outline, Wanting};
use pv_flow::{Edge, OverEnd, TrapEnd};
use std::alloc::Global;

/// [`pv_call_tables::add`].
pub fn add(a: u32, b: u32) -> Result<u32, Wanting>
    ensures sum { IfOk result (λ n. n ≡ a + b) }
    ensures large { IfErr result (IsBeyond (a + b)) }
{
    pv_call_tables::add(a, b)
}

/// [`pv_call_tables::number_of`].
pub fn number_of(n: usize) -> Result<u32, Wanting>
    ensures number { IfOk result (λ m. m ≡ n) }
    ensures fits { OnOk result (n ≤ 4294967295) }
    ensures large { IfErr result (IsBeyond n) }
{
    pv_call_tables::number_of(n)
}

/// [`pv_call_tables::counts`].
pub fn counts(alloc: Global, edges: &[Edge], locations: u32) -> Result<Vec<u32>, Wanting>
    ensures found { IfOk result (λ found. found.items ≡ counted (replicate locations 0) edges.now) }
    ensures short { length edges.now ≤ MOST → IfErr result IsMemory }
{
    pv_call_tables::counts(alloc, edges, locations)
}

/// [`pv_call_tables::ranks`].
pub fn ranks(alloc: Global, edges: &[Edge], locations: u32) -> Result<Vec<u32>, Wanting>
    ensures found { IfOk result (λ found. found.items ≡ ranks_by (replicate locations 0) edges.now) }
    ensures short { length edges.now ≤ MOST → IfErr result IsMemory }
{
    pv_call_tables::ranks(alloc, edges, locations)
}

/// [`pv_call_tables::text_size`].
pub fn text_size(outline: &Outline, texts: &[u32], locations: u32) -> Result<u32, Wanting>
    ensures size { IfOk result (λ n. n ≡ summed (text_at outline.now.ends.now outline.now.calls.now texts.now) locations) }
    ensures short { summed (text_at outline.now.ends.now outline.now.calls.now texts.now) locations ≤ MOST → IfErr result IsMemory }
{
    pv_call_tables::text_size(outline, texts, locations)
}

/// [`pv_call_tables::starts`].
pub fn starts(
    alloc: Global,
    outline: &Outline,
    texts: &[u32],
    locations: u32,
) -> Result<Vec<u32>, Wanting>
    ensures starts { IfOk result (λ made. made.items
        ≡ sums_below (text_at outline.now.ends.now outline.now.calls.now texts.now) locations) }
    ensures short { summed (text_at outline.now.ends.now outline.now.calls.now texts.now) locations ≤ MOST → IfErr result IsMemory }
{
    pv_call_tables::starts(alloc, outline, texts, locations)
}

/// [`pv_call_tables::drawn_before`].
pub fn drawn_before(
    alloc: Global,
    outline: &Outline,
    called: &Called,
    locations: u32,
) -> Result<Vec<u32>, Wanting>
    ensures drawn { IfOk result (λ made. made.items ≡ sums_below
        (drawn_at outline.now.ends.now outline.now.calls.now called.now.sizes.now called.now.counts.now called.now.outs) locations) }
    ensures short { summed (drawn_at outline.now.ends.now outline.now.calls.now called.now.sizes.now called.now.counts.now called.now.outs) locations ≤ MOST → IfErr result IsMemory }
{
    pv_call_tables::drawn_before(alloc, outline, called, locations)
}

/// [`pv_call_tables::edges_of`].
pub fn edges_of(alloc: Global, drawn: &[Drawn], first: u32) -> Result<Vec<Edge>, Wanting>
    ensures made { IfOk result (λ made. made.items ≡ edges_by first drawn.now) }
    ensures short { next_after first drawn.now ≤ MOST → IfErr result IsMemory }
{
    pv_call_tables::edges_of(alloc, drawn, first)
}

/// [`pv_call_tables::traps_of`].
pub fn traps_of(alloc: Global, drawn: &[Drawn], first: u32) -> Result<Vec<TrapEnd>, Wanting>
    ensures made { IfOk result (λ made. made.items ≡ traps_by first drawn.now) }
    ensures short { next_after first drawn.now ≤ MOST → IfErr result IsMemory }
{
    pv_call_tables::traps_of(alloc, drawn, first)
}

/// [`pv_call_tables::overs_of`].
pub fn overs_of(alloc: Global, drawn: &[Drawn], first: u32) -> Result<Vec<OverEnd>, Wanting>
    ensures made { IfOk result (λ made. made.items ≡ overs_by first drawn.now) }
    ensures short { next_after first drawn.now ≤ MOST → IfErr result IsMemory }
{
    pv_call_tables::overs_of(alloc, drawn, first)
}

/// [`pv_call_tables::behind`].
pub fn behind(drawn: &[Drawn], first: u32) -> Result<u32, Wanting>
    ensures number { IfOk result (λ n. n ≡ next_after first drawn.now) }
    ensures short { next_after first drawn.now ≤ MOST → IfErr result IsMemory }
{
    pv_call_tables::behind(drawn, first)
}

/// The clause of [`pv_call_tables::add`] leaves no fault to a sum that has 32 bits.
pub fn sums_that_fit_are_made()
    ensures { (a b : ℕ) (fault : Wanting) → a + b ≤ MOST → IsBeyond (a + b) fault → ⊥ }
{}
