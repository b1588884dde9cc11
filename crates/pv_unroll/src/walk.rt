//! The walk along the text: from location to location, back to a loop's first one as long as it has turns, and past it then.
ghost use Rattle.std.specs.Prelude.{◌≡◌, ◌<◌, length, drop, map, nat_lt, slice_get, Some, IfOk, OnOk};
ghost use Rattle.pv_flow.specs.View.{loop_of};
ghost use Rattle.pv_unroll.specs.Walking.{top, ends_here, laid_there, entered, entered_at, last_ending, turned_on, back_to, last_laid, popped, goes_back, after_turn, ended_walk, stepped, walked};
ghost use Rattle.pv_unroll.specs.Seen.{laid_seen, table_seen, walk_seen, state_seen};

use crate::endings::ending_at;
use crate::lay::Laid;
use crate::lead::{Open, Table};
use crate::numbers::{after, number_at, plus};
use pv_flow::Loop;
use std::alloc::{AllocError, Global};

/// Where the walk is.
#[derive(Drop)]
pub(crate) struct Walk {
    /// The loops that hold the location, outermost first.
    pub(crate) nest: Vec<Open>,
    /// How many loops begin before the location, or at it and are open.
    pub(crate) next: usize,
    pub(crate) at: u32,
}

/// The last of these.
fn top(nest: &[Open]) -> Option<Open>
    ensures { result ≡ top nest.now }
{
    if nest.is_empty() {
        return None;
    }
    Some(nest[nest.len() - 1])
}

/// Whether the loop of this number ends at the location.
fn ends_here(loops: &[Loop], range: usize, at: u32) -> bool
    ensures { result ≡ ends_here (map loop_of loops.now) range at }
{
    match loops.get(range) {
        Some(range) => range.last == at,
        None => false,
    }
}

/// Lays a copy of the location in the turns of these loops.
fn lay_there(table: &Table, laid: &mut Laid, nest: &[Open], at: u32) -> Result<(), AllocError>
    ensures { OnOk result (laid_seen laid.new ≡ laid_there (table_seen table.now) nest.now at (laid_seen laid.old)) }
{
    laid.lay_copy(
        table,
        nest,
        ending_at(table.endings, at),
        number_at(table.heads, at as usize),
    )
}

impl Walk {
    /// The next loop is entered.
    fn enter(&mut self, loops: &[Loop]) -> Result<(), AllocError>
        requires { self.old.next < length loops.now }
        ensures { OnOk result (walk_seen self.new ≡ entered (walk_seen self.old)) }
    {
        self.nest.push(Open {
            range: self.next,
            turn: 0,
        })?;
        self.next += 1;
        Ok(())
    }

    /// The loops are entered that begin at the location.
    fn enter_at(&mut self, loops: &[Loop]) -> Result<(), AllocError>
        ensures { OnOk result (walk_seen self.new ≡ entered_at (drop self.old.next (map loop_of loops.now)) (walk_seen self.old)) }
    {
        while self.next < loops.len() {
            if loops[self.next].first != self.at {
                return Ok(());
            }
            self.enter(loops)?;
        }
        Ok(())
    }

    /// The loop that was entered last, if it ends at the location.
    fn ending(&self, loops: &[Loop]) -> Option<Open>
        ensures { result ≡ last_ending (map loop_of loops.now) (walk_seen self.now) }
    {
        let last = top(self.nest.as_slice())?;
        if ends_here(loops, last.range, self.at) {
            Some(last)
        } else {
            None
        }
    }

    /// Back to the first location, in the loop's next turn.
    fn go_back(&mut self, loops: &[Loop], range: &Loop, last: Open) -> Result<(), AllocError>
        requires { last.range < length loops.now }
        ensures { OnOk result (walk_seen self.new ≡ back_to (loop_of range.now) last (walk_seen self.old)) }
    {
        self.nest.push(last)?;
        self.next = last.range + 1;
        self.at = range.first;
        Ok(())
    }

    /// Past the loop: its first location stands once more where entering starts no turn, and then where its bound is gone over.
    fn leave(
        &mut self,
        table: &Table,
        laid: &mut Laid,
        range: &Loop,
        last: Open,
    ) -> Result<(), AllocError>
        ensures walk { OnOk result (walk_seen self.new ≡ walk_seen self.old) }
        ensures laid { OnOk result (laid_seen laid.new
            ≡ last_laid (table_seen table.now) (loop_of range.now) last self.old.nest.items (laid_seen laid.old)) }
    {
        if !range.entry_turn {
            self.nest.push(last)?;
            lay_there(table, laid, self.nest.as_slice(), range.first)?;
            let _ = self.nest.pop();
        }
        laid.lay_over(range.place)
    }

    /// In this turn of the loop, or past it; whether it is in it.
    fn turn_in(
        &mut self,
        table: &Table,
        laid: &mut Laid,
        range: &Loop,
        next: Open,
    ) -> Result<bool, AllocError>
        requires { next.range < length table.now.loops.now }
        ensures back { IfOk result (λ back. back ≡ nat_lt next.turn table.now.bound) }
        ensures state { OnOk result (state_seen self.new laid.new
            ≡ after_turn (table_seen table.now) (Some (loop_of range.now)) next (state_seen self.old laid.old)) }
    {
        if next.turn < table.bound {
            self.go_back(table.loops, range, next)?;
            return Ok(true);
        }
        self.leave(table, laid, range, next)?;
        Ok(false)
    }

    /// The loop that was entered last has its next turn, or is left; whether it has one.
    fn turn(&mut self, table: &Table, laid: &mut Laid, last: Open) -> Result<bool, AllocError>
        ensures back { IfOk result (λ back. back
            ≡ goes_back (table_seen table.now) (slice_get (map loop_of table.now.loops.now) last.range) (turned_on last)) }
        ensures state { OnOk result (state_seen self.new laid.new
            ≡ after_turn (table_seen table.now) (slice_get (map loop_of table.now.loops.now) last.range) (turned_on last)
            (popped (state_seen self.old laid.old))) }
    {
        let _ = self.nest.pop();
        let next = Open {
            range: last.range,
            turn: plus(last.turn, 1),
        };
        match table.loops.get(last.range) {
            Some(range) => self.turn_in(table, laid, range, next),
            None => Ok(true),
        }
    }

    /// On from the location: to the next turn of a loop that ends there, or past those that have none left.
    fn go_on(&mut self, table: &Table, laid: &mut Laid) -> Result<(), AllocError>
        ensures { OnOk result (state_seen self.new laid.new
            ≡ ended_walk (table_seen table.now) (length self.old.nest.items) (state_seen self.old laid.old)) }
    {
        while let Some(last) = self.ending(table.loops) {
            if self.turn(table, laid, last)? {
                return Ok(());
            }
        }
        self.at = after(self.at);
        Ok(())
    }

    /// One location of the text, and on.
    fn step(&mut self, table: &Table, laid: &mut Laid) -> Result<(), AllocError>
        ensures { OnOk result (state_seen self.new laid.new ≡ stepped (table_seen table.now) (state_seen self.old laid.old)) }
    {
        self.enter_at(table.loops)?;
        lay_there(table, laid, self.nest.as_slice(), self.at)?;
        self.go_on(table, laid)
    }
}

/// Lays the whole text, within so many locations of it and of those behind it.
pub(crate) fn walk_text(
    alloc: Global,
    table: &Table,
    laid: &mut Laid,
    steps: u64,
) -> Result<(), AllocError>
    ensures { OnOk result (laid_seen laid.new ≡ walked (table_seen table.now) steps (laid_seen laid.old)) }
{
    let mut walk = Walk {
        nest: Vec::new(alloc),
        next: 0,
        at: 0,
    };
    for _ in 0..steps {
        if walk.at >= table.locations {
            return Ok(());
        }
        walk.step(table, laid)?;
    }
    Ok(())
}
