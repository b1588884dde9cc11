//! Operations at work: one after the other, each leaves its value.
ghost use Rattle.std.specs.Prelude.{◌≡◌, ℤ, List, ◌+ℤ◌, ◌-ℤ◌, ◌*ℤ◌, slice_set, IfSome};
ghost use Rattle.pv_mean.specs.Frames.{Frame};
ghost use Rattle.pv_mean.specs.Spots as m;
ghost use Rattle.std.specs.Int.{w64, int_wrap};
ghost use Rattle.pv_eval.specs.Rooms.{frame_of};
ghost use Rattle.pv_eval.specs.Traps.{tried};
ghost use Rattle.pv_eval.specs.Operands.{spot_of, at, IsSpot};
ghost use Rattle.pv_eval.specs.Ops.{fetched, accessed, cell_number, done, run_ops, left_in, IsAccess, HasSpot, AreOps};

use crate::node::Spot;
use crate::op::{Access, Arg, Deed, Op};
use crate::operator::{one, three, two};
use crate::room::Room;
use crate::spot::{read, spot_in, visible_value};
use crate::trap::Trap;
use pv_place::{Place, TrapKind};

fn value_at(values: &[i64], n: usize) -> i64
    ensures { result ≡ at values.now n }
{
    match values.get(n) {
        Some(v) => *v,
        None => 0,
    }
}

pub(crate) fn fetched(arg: &Arg, values: &[i64], room: &Room) -> i64
    ensures { result ≡ fetched room.now.first (frame_of room.now) values.now arg.now }
{
    match arg {
        Arg::Constant(v) => *v,
        Arg::Value(n) => value_at(values, *n),
        Arg::Visible(n) => visible_value(room, *n),
        Arg::Own(n) => visible_value(room, room.first as usize + *n as usize),
    }
}

/// The spot that is read or assigned.
pub(crate) fn accessed(access: &Access, values: &[i64], room: &Room) -> Spot
    requires { IsAccess access.now }
    ensures value { spot_of result ≡ accessed room.now.first (frame_of room.now) values.now access.now }
    ensures is { IsSpot result }
{
    match access {
        Access::At(spot) => *spot,
        Access::Own(n) => Spot::Visible(room.first as usize + *n as usize),
        Access::Element(part, offset, address) => spot_in(
            *part,
            room.first,
            u64::from(*offset) + fetched(address, values, room).unsigned_abs(),
        ),
    }
}

/// The visible cell that is read or assigned whatever the values are, if one is.
pub(crate) fn cell_of(access: &Access, first: u32) -> Option<usize>
    ensures { IfSome result (λ n. (frame : Frame) (values : List ℤ)
        → accessed first frame values access.now ≡ m.visible n) }
{
    match access {
        Access::At(Spot::Visible(n)) => Some(*n),
        Access::At(_) => None,
        Access::Own(n) => Some(first as usize + *n as usize),
        Access::Element(..) => None,
    }
}

/// So many cells behind the one of this number, as 64 bits have it. Of nodes it fits 32 bits.
fn number_behind(n: i64, i: i64, low: i64, stride: i64) -> i64
    ensures { result ≡ int_wrap w64 ((i -ℤ low) *ℤ stride +ℤ n) }
{
    i.wrapping_sub(low).wrapping_mul(stride).wrapping_add(n)
}

/// The number of an element's cell.
fn cell_number(n: i64, i: i64, low: i64, high: i64, stride: i64, place: Place) -> Result<i64, Trap>
    ensures { tried result ≡ cell_number n i low high stride place }
{
    if low <= i && i <= high {
        Ok(number_behind(n, i, low, stride))
    } else {
        Err(Trap {
            kind: TrapKind::Index,
            place,
        })
    }
}

/// What an operation leaves, by the values that are there.
fn done(deed: &Deed, values: &[i64], room: &Room) -> Result<i64, Trap>
    requires { HasSpot deed.now }
    ensures { tried result ≡ done room.now.first (frame_of room.now) values.now deed.now }
{
    match deed {
        Deed::Read(access, place) => read(room, accessed(access, values, room), *place),
        Deed::One { op, ty, arg } => Ok(one(*op, *ty, fetched(arg, values, room))),
        Deed::Two {
            op,
            ty,
            place,
            left,
            right,
        } => {
            let left = fetched(left, values, room);
            let right = fetched(right, values, room);
            two(*op, *ty, *place, left, right)
        }
        Deed::Three {
            op,
            first,
            second,
            third,
        } => Ok(three(
            *op,
            fetched(first, values, room),
            fetched(second, values, room),
            fetched(third, values, room),
        )),
        Deed::Element {
            from,
            index,
            low,
            high,
            stride,
            place,
        } => {
            let from = fetched(from, values, room);
            let index = fetched(index, values, room);
            cell_number(from, index, *low, *high, *stride, *place)
        }
    }
}

/// Puts a value under a number, if there is room for it.
fn put(values: &mut [i64], n: usize, v: i64)
    ensures { values.new ≡ slice_set values.old n v }
{
    if n < values.len() {
        values[n] = v;
    }
}

/// Runs operations in a frame. Where one traps, no clause says what is left in `values`.
pub(crate) fn run(ops: &[Op], room: &Room, values: &mut [i64]) -> Result<(), Trap>
    requires { AreOps ops.now }
    ensures same { left_in result values.new ≡ run_ops room.now.first (frame_of room.now) ops.now values.old }
{
    for op in ops {
        match done(&op.deed, values, room) {
            Ok(v) => put(values, op.to, v),
            Err(trap) => return Err(trap),
        }
    }
    Ok(())
}
