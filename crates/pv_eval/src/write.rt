//! Writes of spots.
ghost use Rattle.std.specs.Prelude.{◌≡◌, ◌+◌, ◌<◌, ◌≤◌, ◌^◌, pos, slice_set, slice_index_or};
ghost use Rattle.pv_word.specs.declared.types.Ty.TheVariants.{Bool, Byte, Dint};
ghost use Rattle.pv_word.specs.Types.{wrap_of, pattern_of};
ghost use Rattle.pv_mean.specs.Sources.{Source};
ghost use Rattle.pv_mean.specs.Spots as m;
ghost use Rattle.pv_eval.specs.Operands.{spot_of, IsSpot};
ghost use Rattle.pv_eval.specs.Writes.{TypesOf, with_byte_cells};

use crate::node::Spot;
use crate::operator::{kept, pattern};
use pv_word::Ty;

fn visible_at(visible: &[i64], n: usize) -> i64
    ensures { result ≡ slice_index_or visible.now n (pos 0) }
{
    match visible.get(n) {
        Some(v) => *v,
        None => 0,
    }
}

/// A visible cell takes a value.
fn write_visible(types: &[Ty], visible: &mut [i64], n: usize, v: i64)
    ensures { visible.new ≡ slice_set visible.old n (wrap_of (slice_index_or types.now n Dint) v) }
{
    if n < visible.len() {
        let ty = match types.get(n) {
            Some(ty) => *ty,
            None => Ty::Dint,
        };
        visible[n] = kept(ty, v);
    }
}

fn write_brief(brief: &mut [Option<i64>], ty: Ty, n: usize, v: i64)
    ensures { brief.new ≡ slice_set brief.old n (Some (wrap_of ty v)) }
{
    if n < brief.len() {
        brief[n] = Some(kept(ty, v));
    }
}

/// The byte with bit `b` as the value's lowest.
fn with_bit(byte: u64, b: u32, value: u64) -> u64
    requires byte { byte < 2 ^ 32 }
    requires bit { b < 8 }
    requires value { value ≤ 1 }
    ensures { result ≡ m.with_bit byte b value }
{
    let weight: u64 = 1 << b;
    byte - byte / weight % 2 * weight + value * weight
}

fn write_bit(types: &[Ty], visible: &mut [i64], n: usize, b: u32, v: i64)
    requires { b < 8 }
    ensures { visible.new ≡ slice_set visible.old n (wrap_of (slice_index_or types.now n Dint)
        (pos (m.with_bit (pattern_of Byte (slice_index_or visible.old n (pos 0))) b (pattern_of Bool v)))) }
{
    let old = visible_at(visible, n);
    let byte = with_bit(pattern(Ty::Byte, old), b, pattern(Ty::Bool, v));
    write_visible(types, visible, n, byte as i64);
}

/// The lowest bytes of a number go to as many cells, the high byte first.
fn write_bytes(types: &[Ty], visible: &mut [i64], n: usize, count: u32, number: u64)
    requires few { count ≤ 4 }
    requires room { n + count < 2 ^ 64 }
    ensures { visible.new ≡ with_byte_cells types.now visible.old n count number }
{
    if count > 0 {
        let weight = 256_u64.pow(count - 1);
        write_visible(types, visible, n, (number / weight % 256) as i64);
        write_bytes(types, visible, n + 1, count - 1, number);
    }
}

/// A spot takes a value, wrapped to its type. The types are those of the visible cells.
pub fn write_spot(types: &[Ty], visible: &mut [i64], brief: &mut [Option<i64>], spot: Spot, v: i64)
    requires { IsSpot spot }
    ensures { (source : Source) → TypesOf source types.now
        → m.write_spot source (record { visible = visible.old; brief = brief.old }) (spot_of spot) v
        ≡ record { visible = visible.new; brief = brief.new } }
{
    match spot {
        Spot::Visible(n) => write_visible(types, visible, n, v),
        Spot::Brief(ty, n) => write_brief(brief, ty, n, v),
        Spot::Bit(n, b) => write_bit(types, visible, n as usize, b, v),
        Spot::Bytes(ty, n, count) => write_bytes(types, visible, n as usize, count, pattern(ty, v)),
        Spot::Fixed(_) | Spot::Nowhere => {}
    }
}
