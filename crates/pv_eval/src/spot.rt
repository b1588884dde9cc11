//! Reads and writes of spots.
ghost use Rattle.std.specs.Prelude.{◌≡◌, ◌+◌, ◌<◌, ◌≤◌, ◌^◌};
ghost use Rattle.pv_word.specs.Types.{pattern_of};
ghost use Rattle.pv_word.specs.declared.types.Ty.TheVariants.{Byte};
ghost use Rattle.pv_mean.specs.Spots.{read_spot, told, number_of_bytes};
ghost use Rattle.pv_mean.specs.Frames.{visible_value, brief_value};
ghost use Rattle.pv_eval.specs.Rooms.{frame_of};
ghost use Rattle.pv_eval.specs.Traps.{tried};
ghost use Rattle.pv_eval.specs.Operands.{spot_of, spot_in, IsSpot};

use crate::node::{Part, Spot};
use crate::operator::{packed, pattern};
use crate::room::Room;
use crate::trap::Trap;
use pv_place::{Place, TrapKind};
use pv_word::Ty;

pub(crate) fn visible_value(room: &Room, n: usize) -> i64
    ensures { result ≡ visible_value (frame_of room.now) n }
{
    match room.visible.get(n) {
        Some(v) => *v,
        None => 0,
    }
}

fn brief_value(room: &Room, place: Place, n: usize) -> Result<i64, Trap>
    ensures { tried result ≡ told (brief_value (frame_of room.now) n) place }
{
    match room.brief.get(n) {
        Some(Some(v)) => Ok(*v),
        _ => Err(Trap {
            kind: TrapKind::Unset,
            place,
        }),
    }
}

/// The byte in a visible cell, as its bits say.
fn byte_value(room: &Room, n: usize) -> u64
    ensures value { result ≡ pattern_of Byte (visible_value (frame_of room.now) n) }
    ensures short { result < 256 }
{
    pattern(Ty::Byte, visible_value(room, n))
}

fn bytes_value(room: &Room, n: u32, count: u32) -> u64
    requires { count ≤ 4 }
    ensures value { result ≡ number_of_bytes (frame_of room.now) n count 0 }
    ensures short { result < 2 ^ 32 }
{
    let mut number: u64 = 0;
    for i in 0..count {
        number = number * 256 + byte_value(room, n as usize + i as usize);
    }
    number
}

/// The value of a spot. The place is that of what is read.
pub fn read(room: &Room, spot: Spot, place: Place) -> Result<i64, Trap>
    requires { IsSpot spot }
    ensures { tried result ≡ read_spot (frame_of room.now) place (spot_of spot) }
{
    match spot {
        Spot::Visible(n) => Ok(visible_value(room, n)),
        Spot::Brief(_, n) => brief_value(room, place, n),
        Spot::Bit(n, b) => Ok(((byte_value(room, n as usize) >> b) % 2) as i64),
        Spot::Bytes(ty, n, count) => Ok(packed(ty, bytes_value(room, n, count))),
        Spot::Fixed(v) => Ok(v),
        Spot::Nowhere => Ok(0),
    }
}

/// The cell of this number.
pub(crate) fn spot_in(part: Part, first: u32, n: u64) -> Spot
    requires few { n < 2 ^ 63 + 2 ^ 33 }
    ensures value { spot_of result ≡ spot_in part first n }
    ensures is { IsSpot result }
{
    match part {
        Part::Own => Spot::Visible(first as usize + n as usize),
        Part::Visible => Spot::Visible(n as usize),
        Part::Brief(ty) => Spot::Brief(ty, n as usize),
        Part::Nowhere => Spot::Nowhere,
    }
}
