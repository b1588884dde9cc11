//! What a call hands in and out, in the order of the parameters.
ghost use Rattle.std.specs.Prelude.{◌≡◌, ◌+◌, ◌≤◌, ◌<◌, ◌^◌, length, Option};
ghost use Rattle.pv_tree.specs.Tree.{OperandTree, BlockTree};
ghost use Rattle.pv_mean.specs.Sources.{Source};
ghost use Rattle.pv_mean.specs.Endings.{end_of};
ghost use Rattle.pv_mean.specs.Spots.{read_spot};
ghost use Rattle.pv_mean.specs.Calls.{hand_over};
ghost use Rattle.pv_eval.specs.Means.{activation};
ghost use Rattle.pv_eval.specs.Operands.{spot_of, IsSpot};
ghost use Rattle.pv_eval.specs.Writes.{TypesOf};
ghost use Rattle.pv_run.specs.Code.{slot_spot, GoesTo};
ghost use Rattle.pv_run.specs.Ends.{value_of};
ghost use Rattle.pv_run.specs.Runs.{HandsIn, HandsOut, frame_in, linked_in, linked_end};

use crate::program::{Program, Slot, Span};
use crate::stop::Stop;
use pv_eval::{Room, Spot, read, write_spot};
use pv_place::Place;

/// The spot of a parameter in a block whose instance begins at this cell.
fn slot_spot(slot: Slot, first: u32) -> Spot
    ensures value { spot_of result ≡ slot_spot first slot }
    ensures is { IsSpot result }
{
    match slot {
        Slot::Own(n) => Spot::Visible(first as usize + n as usize),
        Slot::Brief(ty, n) => Spot::Brief(ty, n as usize),
        Slot::Nowhere => Spot::Nowhere,
    }
}

/// The value of a parameter, which traps at the call's place where it has none.
fn read_slot(
    slot: Slot,
    first: u32,
    visible: &[i64],
    inner: &[Option<i64>],
    place: Place,
) -> Result<i64, Stop>
    ensures { value_of result ≡ end_of (read_spot (frame_in visible.now inner.now) place (slot_spot first slot)) }
{
    let room = Room {
        first,
        visible,
        brief: inner,
    };
    match read(&room, slot_spot(slot, first), place) {
        Ok(v) => Ok(v),
        Err(trap) => Err(Stop::Trap(trap)),
    }
}

impl Program {
    /// Values of the caller go to the parameters.
    pub(crate) fn hand_in(
        &self,
        span: Span,
        caller_first: u32,
        first: u32,
        visible: &mut [i64],
        outer: &[Option<i64>],
        inner: &mut [Option<i64>],
        scratch: &mut [i64],
    ) -> Result<(), Stop>
        requires { self.now.scratch ≤ length scratch.old }
        ensures { HandsIn self.now span caller_first first (linked_in visible.old outer.now inner.old) result
            (linked_in visible.new outer.now inner.new) }
    {
        for i in span.first..span.end {
            let Some(inward) = self.inward.get(i) else {
                return Ok(());
            };
            match self.value(inward.value, caller_first, visible, outer, scratch) {
                Ok(v) => {
                    let spot = slot_spot(inward.to, first);
                    write_spot(self.types.as_slice(), visible, inner, spot, v);
                }
                Err(stop) => return Err(stop),
            }
        }
        Ok(())
    }

    /// A value goes to the caller's target of this number, if there is one.
    fn hand_over(
        &self,
        to: Option<usize>,
        v: i64,
        caller_first: u32,
        visible: &mut [i64],
        outer: &mut [Option<i64>],
        inner: &[Option<i64>],
        scratch: &mut [i64],
    ) -> Result<(), Stop>
        requires { self.now.scratch ≤ length scratch.old }
        ensures { (source : Source) (block : BlockTree) (o : Option OperandTree) → TypesOf source self.now.types.items
            → GoesTo source block self.now to o
            → linked_end result (linked_in visible.new outer.new inner.now)
            ≡ end_of (hand_over source (activation block caller_first) o v (linked_in visible.old outer.old inner.now)) }
    {
        match to {
            Some(target) => match self.store(target, v, caller_first, visible, outer, scratch) {
                Ok(_) => Ok(()),
                Err(stop) => Err(stop),
            },
            None => Ok(()),
        }
    }

    /// Parameters go to targets of the caller.
    pub(crate) fn hand_out(
        &self,
        span: Span,
        place: Place,
        caller_first: u32,
        first: u32,
        visible: &mut [i64],
        outer: &mut [Option<i64>],
        inner: &[Option<i64>],
        scratch: &mut [i64],
    ) -> Result<(), Stop>
        requires { self.now.scratch ≤ length scratch.old }
        ensures { HandsOut self.now span place caller_first first (linked_in visible.old outer.old inner.now) result
            (linked_in visible.new outer.new inner.now) }
    {
        for i in span.first..span.end {
            let Some(outward) = self.outward.get(i) else {
                return Ok(());
            };
            match read_slot(outward.from, first, visible, inner, place) {
                Ok(v) => match self.hand_over(
                    outward.to,
                    v,
                    caller_first,
                    visible,
                    outer,
                    inner,
                    scratch,
                ) {
                    Ok(()) => {}
                    Err(stop) => return Err(stop),
                },
                Err(stop) => return Err(stop),
            }
        }
        Ok(())
    }
}
