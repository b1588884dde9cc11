//! What the text takes: a pass over the locations, once through each loop, with what each location takes.
//!
//! Of a loop it is known where it ends what one turn takes, and so where its bound is gone over and where what stands behind it begins.
ghost use Rattle.std.specs.Prelude.{◌≡◌, ◌<◌, length, drop, map, slice_get, IfOk, OnOk};
ghost use Rattle.pv_flow.specs.View.{loop_of};
ghost use Rattle.pv_unroll.specs.Sizing.{loop_begun, begun_at, passed, ends_there, last_ending, popped, ended, ended_by, ended_at, once, unsized, sized, top};
ghost use Rattle.pv_unroll.specs.Seen.{sizing_seen, taking_seen};

use crate::numbers::{after, minus, number_at, plus, set_at, times};
use pv_flow::Loop;
use std::alloc::{AllocError, Global};

/// How often a loop turns, and what the location takes where a bound is gone over.
#[derive(Clone, Copy)]
pub(crate) struct Taking {
    pub(crate) turns: u64,
    pub(crate) over: u64,
}

/// A loop that holds the location: its number, and where its first turn begins.
#[derive(Clone, Copy)]
pub(crate) struct Begun {
    pub(crate) range: usize,
    pub(crate) start: u64,
}

/// What is known of the locations and loops so far.
#[derive(Drop)]
pub(crate) struct Sizing {
    /// The loops that hold the location, outermost first.
    pub(crate) begun: Vec<Begun>,
    /// How many loops have begun.
    pub(crate) next: usize,
    /// What stands before the location's first copy.
    pub(crate) here: u64,
    /// What stands before the first copy of each location.
    pub(crate) firsts: Vec<u64>,
    /// What a turn of each loop takes.
    pub(crate) turns: Vec<u64>,
    /// What stands before the first place where each loop's bound is gone over.
    pub(crate) overs: Vec<u64>,
}

/// The last of these.
fn top(begun: &[Begun]) -> Option<Begun>
    ensures { result ≡ top begun.now }
{
    if begun.is_empty() {
        return None;
    }
    Some(begun[begun.len() - 1])
}

/// Whether the loop of this number ends at the location.
fn ends_there(loops: &[Loop], range: usize, at: u32) -> bool
    ensures { result ≡ ends_there (map loop_of loops.now) range at }
{
    match loops.get(range) {
        Some(range) => range.last == at,
        None => false,
    }
}

/// What the first location of a loop takes once more.
fn once(range: &Loop, weights: &[u64]) -> u64
    ensures { result ≡ once weights.now (loop_of range.now) }
{
    if range.entry_turn {
        0
    } else {
        number_at(weights, range.first as usize)
    }
}

impl Sizing {
    /// The next loop begins.
    fn begin(&mut self, loops: &[Loop]) -> Result<(), AllocError>
        requires { self.old.next < length loops.now }
        ensures { OnOk result (sizing_seen self.new ≡ loop_begun (sizing_seen self.old)) }
    {
        self.begun.push(Begun {
            range: self.next,
            start: self.here,
        })?;
        self.next += 1;
        Ok(())
    }

    /// The loops begin that begin at the location.
    fn begin_at(&mut self, loops: &[Loop], at: u32) -> Result<(), AllocError>
        ensures { OnOk result (sizing_seen self.new
            ≡ begun_at at (drop self.old.next (map loop_of loops.now)) (sizing_seen self.old)) }
    {
        while self.next < loops.len() {
            if loops[self.next].first != at {
                return Ok(());
            }
            self.begin(loops)?;
        }
        Ok(())
    }

    /// The location's copy stands here.
    fn pass(&mut self, weight: u64) -> Result<(), AllocError>
        ensures { OnOk result (sizing_seen self.new ≡ passed weight (sizing_seen self.old)) }
    {
        self.firsts.push(self.here)?;
        self.here = plus(self.here, weight);
        Ok(())
    }

    /// The loop ends, after its first turn: the others and where its bound is gone over stand behind.
    fn end(&mut self, range: &Loop, begun: Begun, weights: &[u64], taking: Taking)
        ensures { sizing_seen self.new
            ≡ ended (taking_seen taking) weights.now (loop_of range.now) begun (sizing_seen self.old) }
    {
        let turn = minus(self.here, begun.start);
        let turns = plus(begun.start, times(taking.turns, turn));
        let over = plus(turns, once(range, weights));
        set_at(&mut self.turns, begun.range, turn);
        set_at(&mut self.overs, begun.range, over);
        self.here = plus(over, taking.over);
    }

    /// The loop that began last ends.
    fn leave(&mut self, loops: &[Loop], begun: Begun, weights: &[u64], taking: Taking)
        ensures { sizing_seen self.new ≡ ended_by (taking_seen taking) weights.now
            (slice_get (map loop_of loops.now) begun.range) begun (popped (sizing_seen self.old)) }
    {
        let _ = self.begun.pop();
        match loops.get(begun.range) {
            Some(range) => self.end(range, begun, weights, taking),
            None => {}
        }
    }

    /// The loop that ends at the location and began last, if there is one.
    fn ending(&self, loops: &[Loop], at: u32) -> Option<Begun>
        ensures { result ≡ last_ending (map loop_of loops.now) at (sizing_seen self.now) }
    {
        let begun = top(self.begun.as_slice())?;
        if ends_there(loops, begun.range, at) {
            Some(begun)
        } else {
            None
        }
    }

    /// The loops end that end at the location.
    fn end_at(&mut self, loops: &[Loop], at: u32, weights: &[u64], taking: Taking)
        ensures { sizing_seen self.new ≡ ended_at (taking_seen taking) weights.now (map loop_of loops.now) at
            (length self.old.begun.items) (sizing_seen self.old) }
    {
        while let Some(begun) = self.ending(loops, at) {
            self.leave(loops, begun, weights, taking);
        }
    }
}

/// No location is passed yet.
fn begin_sizing(alloc: Global, loops: usize) -> Result<Sizing, AllocError>
    ensures { IfOk result (λ sizing. sizing_seen sizing ≡ unsized loops) }
{
    Ok(Sizing {
        begun: Vec::new(alloc),
        next: 0,
        here: 0,
        firsts: Vec::new(alloc),
        turns: vec![in alloc; 0; loops]?,
        overs: vec![in alloc; 0; loops]?,
    })
}

/// What the text takes, if each copy of location l takes `weights[l]`.
pub(crate) fn sized(
    alloc: Global,
    loops: &[Loop],
    weights: &[u64],
    taking: Taking,
) -> Result<Sizing, AllocError>
    ensures { IfOk result (λ sizing. sizing_seen sizing ≡ sized (taking_seen taking) (map loop_of loops.now) weights.now) }
{
    let mut sizing = begin_sizing(alloc, loops.len())?;
    let mut at = 0;
    for weight in weights {
        sizing.begin_at(loops, at)?;
        sizing.pass(*weight)?;
        sizing.end_at(loops, at, weights, taking);
        at = after(at);
    }
    Ok(sizing)
}
