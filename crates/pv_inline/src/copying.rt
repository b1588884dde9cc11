//! The copies of blocks, each location with what stands behind it.
ghost use Rattle.std.specs.Prelude.{◌≡◌, ◌≤◌, ℕ, IfOk, IfErr, Some, length, map, slice_get, slice_index_or};
ghost use Rattle.pv_call_tables.specs.Wanted.{IsMemory};
ghost use Rattle.pv_inline.specs.Numbers.{MOST};
ghost use Rattle.pv_inline.specs.Short.{IsShort};
ghost use Rattle.pv_flow.specs.View.{loop_of};
ghost use Rattle.pv_inline.specs.Walking.{number, aim, edge_drawn, drawn_more, one_drawn, all_drawn, turn, loop_made, looped, one_looped, all_looped, numbers_at, tables_copied, edge_in_made, out_drawn};
ghost use Rattle.pv_inline.specs.Seen.{copy_seen, making_seen};

use crate::making::{Making, PLAIN};
use crate::table::Table;
use pv_call_tables::{
    Aim, Drawn, Standing, Wanting, add, call_at, number_at, number_of, of_call, standing_at,
};
use pv_call_terms::{Places, add_deeds, add_resets, add_terms};
use pv_flow::{Edge, Loop, Parts};
use std::alloc::Global;

/// A copy: where its text begins, where it leads once it is done, and how many deeds and edges stand before its own.
#[derive(Clone, Copy)]
pub(crate) struct Body {
    pub start: u32,
    pub out: Option<Aim>,
    pub deeds: u32,
    pub edges: u32,
    /// The first number of a variable that neither its block nor its callers use.
    pub free: u32,
}

/// What a copy is made of.
#[derive(Clone, Copy)]
pub(crate) struct Copying<'a> {
    pub parts: &'a Parts,
    pub table: &'a Table,
    pub places: &'a Places,
    pub body: Body,
}

/// Where location l of the block stands.
pub(crate) fn number(copy: &Copying, l: u32) -> Result<u32, Wanting>
    ensures number { IfOk result (λ n. n ≡ number (copy_seen copy.now) l) }
    ensures short { IsShort (copy_seen copy.now) → IfErr result IsMemory }
{
    add(
        copy.body.start,
        number_at(copy.table.widths.starts.as_slice(), l as usize),
    )
}

/// Of what leads to location l.
pub(crate) fn aim(copy: &Copying, l: u32) -> Result<Aim, Wanting>
    ensures aim { IfOk result (λ a. a ≡ aim (copy_seen copy.now) l) }
    ensures short { IsShort (copy_seen copy.now) → IfErr result IsMemory }
{
    match standing_at(copy.table.marks.ends.as_slice(), l as usize) {
        Standing::Nothing => Ok(Aim::Location(number(copy, l)?)),
        Standing::Done => Ok(Aim::Location(number(copy, l)?)),
        Standing::Trap(kind, place) => Ok(Aim::Trap(kind, place)),
        Standing::Over(place) => Ok(Aim::Over(place)),
    }
}

/// The copy of an edge.
fn edge_drawn(copy: &Copying, edge: Edge) -> Result<Drawn, Wanting>
    ensures drawn { IfOk result (λ d. d ≡ edge_drawn (copy_seen copy.now) edge) }
    ensures short { IsShort (copy_seen copy.now) → (e : ℕ) → slice_get copy.now.parts.now.edges.items e ≡ Some edge
        → IfErr result IsMemory }
{
    Ok(Drawn {
        from: number(copy, edge.from)?,
        aim: aim(copy, edge.to)?,
        deed: add(copy.body.deeds, edge.deed)?,
    })
}

/// Draws the edge of this number, if there is one.
fn draw_one(making: &mut Making, copy: &Copying, e: usize) -> Result<(), Wanting>
    ensures drawn { IfOk result (λ _. making_seen making.new ≡ one_drawn (copy_seen copy.now) (slice_get copy.now.parts.now.edges.items e) (making_seen making.old)) }
    ensures short { IsShort (copy_seen copy.now) → IfErr result IsMemory }
{
    match copy.parts.edges.as_slice().get(e) {
        Some(edge) => making.draw(edge_drawn(copy, *edge)?),
        None => Ok(()),
    }
}

/// Draws the edges of these numbers.
fn draw_all(making: &mut Making, copy: &Copying, numbers: &[usize]) -> Result<(), Wanting>
    ensures drawn { IfOk result (λ _. making_seen making.new ≡ all_drawn (copy_seen copy.now) numbers.now (making_seen making.old)) }
    ensures short { IsShort (copy_seen copy.now) → IfErr result IsMemory }
{
    for e in numbers {
        draw_one(making, copy, *e)?;
    }
    Ok(())
}

/// Draws the edges that begin at location l.
pub(crate) fn draw_edges(
    alloc: Global,
    making: &mut Making,
    copy: &Copying,
    l: u32,
) -> Result<(), Wanting>
    ensures drawn { IfOk result (λ _. making_seen making.new
        ≡ all_drawn (copy_seen copy.now) (numbers_at (copy_seen copy.now).table.edges l) (making_seen making.old)) }
    ensures short { IsShort (copy_seen copy.now) → IfErr result IsMemory }
{
    let numbers = copy.table.begins.edges.numbers(alloc, l as usize)?;
    draw_all(making, copy, numbers.as_slice())
}

/// The number of the copy of edge e.
fn turn(copy: &Copying, e: u32) -> Result<u32, Wanting>
    ensures number { IfOk result (λ n. n ≡ turn (copy_seen copy.now) e) }
    ensures short { IsShort (copy_seen copy.now) → IfErr result IsMemory }
{
    match copy.parts.edges.as_slice().get(e as usize) {
        Some(edge) => {
            let before = number_at(copy.table.widths.drawn.as_slice(), edge.from as usize);
            let first = add(copy.body.edges, before)?;
            add(
                first,
                number_at(copy.table.begins.ranks.as_slice(), e as usize),
            )
        }
        None => Ok(0),
    }
}

fn turns(alloc: Global, copy: &Copying, numbers: &[u32]) -> Result<Vec<u32>, Wanting>
    ensures made { IfOk result (λ made. made.items ≡ map (turn (copy_seen copy.now)) numbers.now) }
    ensures short { IsShort (copy_seen copy.now) → IfErr result IsMemory }
{
    let mut made = Vec::with_capacity(alloc, numbers.len())?;
    for e in numbers {
        made.push(turn(copy, *e)?)?;
    }
    Ok(made)
}

/// The copy of a loop, whose range has the text of what is called at its last location.
fn loop_made(alloc: Global, copy: &Copying, range: &Loop) -> Result<Loop, Wanting>
    ensures made { IfOk result (λ made. loop_of made ≡ loop_made (copy_seen copy.now) (loop_of range.now)) }
    ensures short { IsShort (copy_seen copy.now) → IfErr result IsMemory }
{
    let called = of_call(
        copy.table.widths.texts.as_slice(),
        call_at(copy.table.marks.calls.as_slice(), range.last as usize),
    );
    let first = number(copy, range.first)?;
    let last = add(number(copy, range.last)?, called)?;
    let turns = turns(alloc, copy, range.turns.as_slice())?;
    Ok(Loop {
        first,
        last,
        entry_turn: range.entry_turn,
        turns,
        place: range.place,
    })
}

/// Adds the copy of the loop of this number, if there is one.
fn loop_one(alloc: Global, making: &mut Making, copy: &Copying, i: usize) -> Result<(), Wanting>
    ensures added { IfOk result (λ _. making_seen making.new
        ≡ one_looped (copy_seen copy.now) (slice_get (map loop_of copy.now.parts.now.loops.items) i) (making_seen making.old)) }
    ensures short { IsShort (copy_seen copy.now) → IfErr result IsMemory }
{
    match copy.parts.loops.as_slice().get(i) {
        Some(range) => making.add_loop(loop_made(alloc, copy, range)?),
        None => Ok(()),
    }
}

/// Adds the copies of the loops of these numbers.
fn loop_all(
    alloc: Global,
    making: &mut Making,
    copy: &Copying,
    numbers: &[usize],
) -> Result<(), Wanting>
    ensures added { IfOk result (λ _. making_seen making.new ≡ all_looped (copy_seen copy.now) numbers.now (making_seen making.old)) }
    ensures short { IsShort (copy_seen copy.now) → IfErr result IsMemory }
{
    for i in numbers {
        loop_one(alloc, making, copy, *i)?;
    }
    Ok(())
}

/// Adds the copies of the loops that begin at location l.
pub(crate) fn add_loops(
    alloc: Global,
    making: &mut Making,
    copy: &Copying,
    l: u32,
) -> Result<(), Wanting>
    ensures added { IfOk result (λ _. making_seen making.new
        ≡ all_looped (copy_seen copy.now) (numbers_at (copy_seen copy.now).table.loops l) (making_seen making.old)) }
    ensures short { IsShort (copy_seen copy.now) → IfErr result IsMemory }
{
    let numbers = copy.table.begins.loops.numbers(alloc, l as usize)?;
    loop_all(alloc, making, copy, numbers.as_slice())
}

/// Copies the block's terms and deeds.
pub(crate) fn copy_tables(alloc: Global, making: &mut Making, copy: &Copying) -> Result<(), Wanting>
    ensures copied { IfOk result (λ _. making_seen making.new ≡ tables_copied (copy_seen copy.now) (making_seen making.old)) }
    ensures short { length (making_seen making.old).nodes ≤ MOST → IfErr result IsMemory }
{
    let after = number_of(making.nodes.len())?;
    let nodes = copy.parts.nodes.as_slice();
    let deeds = copy.parts.deeds.as_slice();
    add_terms(&mut making.nodes, copy.places, after, nodes)?;
    add_deeds(alloc, &mut making.deeds, copy.places, after, deeds)?;
    Ok(())
}

/// Draws the edge into a callee from the location of this number.
pub(crate) fn draw_in(
    alloc: Global,
    making: &mut Making,
    copy: &Copying,
    from: u32,
) -> Result<(), Wanting>
    ensures drawn { IfOk result (λ _. making_seen making.new ≡ edge_in_made (copy_seen copy.now) from (making_seen making.old)) }
    ensures short { IsShort (copy_seen copy.now) → length (making_seen making.old).deeds ≤ MOST → IfErr result IsMemory }
{
    let deed = making.next_deed()?;
    let sets = add_resets(alloc, &mut making.nodes, copy.places, copy.parts)?;
    making.add_deed(sets)?;
    making.draw(Drawn {
        from,
        aim: aim(copy, 0)?,
        deed,
    })
}

/// Draws the edge out of location l, where the block is done, if it leads on.
pub(crate) fn draw_out(making: &mut Making, copy: &Copying, l: u32) -> Result<(), Wanting>
    ensures drawn { IfOk result (λ _. making_seen making.new ≡ out_drawn (copy_seen copy.now) l (copy_seen copy.now).out (making_seen making.old)) }
    ensures short { IsShort (copy_seen copy.now) → IfErr result IsMemory }
{
    match copy.body.out {
        Some(aim) => making.draw(Drawn {
            from: number(copy, l)?,
            aim,
            deed: PLAIN,
        }),
        None => Ok(()),
    }
}
