//! Instructions with operands: which bit or value is read, and what is written.

ghost use Rattle.std.specs.Prelude.{◌≡◌, ◌≤◌, ℕ, pos, length, IfOk, None, Some};
ghost use Rattle.pv_word.specs.Types.{pattern_of};
ghost use Rattle.pv_tree.specs.Tree.{OperandTree, InstrTree, BlockTree};
ghost use Rattle.pv_mean.specs.Sources.{Source};
ghost use Rattle.pv_mean.specs.Spots as spots;
ghost use Rattle.pv_mean.specs.Spots.{read_spot};
ghost use Rattle.pv_mean.specs.Values as values;
ghost use Rattle.pv_mean.specs.Instructions as m;
ghost use Rattle.pv_eval.specs.Operands as eval;
ghost use Rattle.pv_eval.specs.Operands.{IsSpot};
ghost use Rattle.pv_eval.specs.Means.{activation};
ghost use Rattle.pv_eval.specs.Traps.{tried, located};
ghost use Rattle.pv_eval.specs.Writes.{TypesOf};
ghost use Rattle.pv_stl_run.specs.Views.{junction_of, frame_in};
ghost use Rattle.pv_stl_run.specs.Code.{IsTarget, HasType, written_of, working, onward_in};
ghost use Rattle.pv_stl_run.specs.Actions.{frame_taking};

use crate::change::load;
use crate::instr::Written;
use crate::logic::{edge, join, result_of};
use crate::registers::{Junction, Logic, Registers};
use crate::stop::unset;
use pv_eval::{OneOp, Room, Spot, Target, Trap, one, pattern, read, write_spot};
use pv_place::Place;
use pv_word::Ty;

/// The spot that the operand of this number names.
fn spot_of(
    targets: &[Target],
    n: usize,
    first: u32,
    visible: &[i64],
    own: &[Option<i64>],
    scratch: &mut [i64],
) -> Result<Spot, Trap>
    ensures value { (source : Source) (block : BlockTree) (room : ℕ) (o : OperandTree)
        → room ≤ length scratch.old
        → IsTarget source block targets.now room n o
        → located result
        ≡ values.locate source (activation block first) (frame_in visible.now own.now) o }
    ensures spot { IfOk result IsSpot }
{
    let Some(target) = targets.get(n) else {
        return Ok(Spot::Nowhere);
    };
    if let Some(cell) = target.cell(first) {
        return Ok(Spot::Visible(cell));
    }
    if target.len() > scratch.len() {
        return Ok(Spot::Nowhere);
    }
    let room = Room {
        first,
        visible,
        brief: own,
    };
    target.locate(&room, scratch)
}

fn value_at(
    spot: Spot,
    first: u32,
    visible: &[i64],
    own: &[Option<i64>],
    place: Place,
) -> Result<i64, Trap>
    requires { IsSpot spot }
    ensures { tried result ≡ read_spot (frame_in visible.now own.now) place (eval.spot_of spot) }
{
    let room = Room {
        first,
        visible,
        brief: own,
    };
    read(&room, spot, place)
}

fn bit_at(
    spot: Spot,
    first: u32,
    visible: &[i64],
    own: &[Option<i64>],
    place: Place,
) -> Result<bool, Trap>
    requires { IsSpot spot }
    ensures { tried result ≡ m.bit_at (frame_in visible.now own.now) place (eval.spot_of spot) }
{
    match value_at(spot, first, visible, own, place) {
        Ok(v) => Ok(v == 1),
        Err(trap) => Err(trap),
    }
}

fn number_of(bit: bool) -> i64
    ensures { result ≡ values.number_of bit }
{
    if bit { 1 } else { 0 }
}

fn write_bit(types: &[Ty], visible: &mut [i64], own: &mut [Option<i64>], spot: Spot, bit: bool)
    requires { IsSpot spot }
    ensures { (source : Source) → TypesOf source types.now
        → spots.write_spot source (frame_in visible.old own.old) (eval.spot_of spot)
        (values.number_of bit)
        ≡ frame_in visible.new own.new }
{
    write_spot(types, visible, own, spot, number_of(bit));
}

/// A, AN, O, ON, X, XN with an operand.
pub(crate) fn joins(
    r: &mut Registers,
    junction: Junction,
    targets: &[Target],
    n: usize,
    first: u32,
    visible: &[i64],
    own: &[Option<i64>],
    scratch: &mut [i64],
    place: Place,
) -> Result<(), Trap>
    ensures same { (source : Source) (block : BlockTree) (room : ℕ) (i : InstrTree)
        (o : OperandTree) → room ≤ length scratch.old
        → i.place ≡ place → i.operand ≡ Some o → IsTarget source block targets.now room n o
        → onward_in result r.new (frame_in visible.now own.now)
        ≡ m.joins source (activation block first) i (junction_of junction)
        (working r.old (frame_in visible.now own.now)) }
    ensures depth { r.new.depth ≡ r.old.depth }
{
    let spot = match spot_of(targets, n, first, visible, own, scratch) {
        Ok(spot) => spot,
        Err(trap) => return Err(trap),
    };
    let bit = match bit_at(spot, first, visible, own, place) {
        Ok(bit) => bit,
        Err(trap) => return Err(trap),
    };
    match join(r.logic, junction, bit, place) {
        Ok(logic) => {
            r.logic = logic;
            Ok(())
        }
        Err(trap) => Err(trap),
    }
}

/// The bit that an operand takes of a result, if it takes one.
fn taken(written: Written, e: bool) -> Option<bool>
    ensures { result ≡ written_of written e }
{
    match written {
        Written::Result => Some(e),
        Written::Where(bit) => if e { Some(bit) } else { None },
    }
}

/// A spot takes the bit, if there is one.
fn write_taken(
    types: &[Ty],
    visible: &mut [i64],
    own: &mut [Option<i64>],
    spot: Spot,
    bit: Option<bool>,
)
    requires { IsSpot spot }
    ensures { (source : Source) → TypesOf source types.now
        → frame_taking source (frame_in visible.old own.old) (eval.spot_of spot) bit
        ≡ frame_in visible.new own.new }
{
    match bit {
        Some(bit) => write_bit(types, visible, own, spot, bit),
        None => {}
    }
}

/// `=`, S, R.
pub(crate) fn writes(
    r: &mut Registers,
    written: Written,
    targets: &[Target],
    types: &[Ty],
    n: usize,
    first: u32,
    visible: &mut [i64],
    own: &mut [Option<i64>],
    scratch: &mut [i64],
    place: Place,
) -> Result<(), Trap>
    ensures same { (source : Source) (block : BlockTree) (room : ℕ) (i : InstrTree)
        (o : OperandTree) → TypesOf source types.now
        → room ≤ length scratch.old
        → i.place ≡ place → i.operand ≡ Some o → IsTarget source block targets.now room n o
        → onward_in result r.new (frame_in visible.new own.new)
        ≡ m.writes source (activation block first) i (λ e. written_of written e)
        (working r.old (frame_in visible.old own.old)) }
    ensures depth { r.new.depth ≡ r.old.depth }
{
    let e = match result_of(r.logic, place) {
        Ok(e) => e,
        Err(trap) => return Err(trap),
    };
    let spot = match spot_of(targets, n, first, visible, own, scratch) {
        Ok(spot) => spot,
        Err(trap) => return Err(trap),
    };
    write_taken(types, visible, own, spot, taken(written, e));
    r.logic = Logic::resulting(false, e);
    Ok(())
}

/// FP, FN.
pub(crate) fn finds_edge(
    r: &mut Registers,
    rising: bool,
    targets: &[Target],
    types: &[Ty],
    n: usize,
    first: u32,
    visible: &mut [i64],
    own: &mut [Option<i64>],
    scratch: &mut [i64],
    place: Place,
) -> Result<(), Trap>
    ensures same { (source : Source) (block : BlockTree) (room : ℕ) (i : InstrTree)
        (o : OperandTree) → TypesOf source types.now
        → room ≤ length scratch.old
        → i.place ≡ place → i.operand ≡ Some o → IsTarget source block targets.now room n o
        → onward_in result r.new (frame_in visible.new own.new)
        ≡ m.finds_edge source (activation block first) i rising
        (working r.old (frame_in visible.old own.old)) }
    ensures depth { r.new.depth ≡ r.old.depth }
{
    let e = match result_of(r.logic, place) {
        Ok(e) => e,
        Err(trap) => return Err(trap),
    };
    let spot = match spot_of(targets, n, first, visible, own, scratch) {
        Ok(spot) => spot,
        Err(trap) => return Err(trap),
    };
    let before = match bit_at(spot, first, visible, own, place) {
        Ok(before) => before,
        Err(trap) => return Err(trap),
    };
    write_bit(types, visible, own, spot, e);
    r.logic = Logic::resulting(true, edge(rising, e, before));
    Ok(())
}

/// The bits of a value, as a number.
fn bits_of(ty: Ty, v: i64) -> i64
    ensures { result ≡ pos (pattern_of ty v) }
{
    pattern(ty, v) as i64
}

/// L of an operand.
pub(crate) fn loads(
    r: &mut Registers,
    ty: Ty,
    targets: &[Target],
    n: usize,
    first: u32,
    visible: &[i64],
    own: &[Option<i64>],
    scratch: &mut [i64],
    place: Place,
) -> Result<(), Trap>
    ensures same { (source : Source) (block : BlockTree) (room : ℕ) (i : InstrTree)
        (o : OperandTree) → room ≤ length scratch.old
        → i.place ≡ place → i.operand ≡ Some o → IsTarget source block targets.now room n o
        → i.literal ≡ None → HasType source block i ty
        → onward_in result r.new (frame_in visible.now own.now)
        ≡ m.loads source (activation block first) i (working r.old (frame_in visible.now own.now)) }
    ensures depth { r.new.depth ≡ r.old.depth }
{
    let spot = match spot_of(targets, n, first, visible, own, scratch) {
        Ok(spot) => spot,
        Err(trap) => return Err(trap),
    };
    match value_at(spot, first, visible, own, place) {
        Ok(v) => {
            load(r, bits_of(ty, v));
            Ok(())
        }
        Err(trap) => Err(trap),
    }
}

/// T.
pub(crate) fn transfers(
    r: &Registers,
    ty: Ty,
    targets: &[Target],
    types: &[Ty],
    n: usize,
    first: u32,
    visible: &mut [i64],
    own: &mut [Option<i64>],
    scratch: &mut [i64],
    place: Place,
) -> Result<(), Trap>
    ensures same { (source : Source) (block : BlockTree) (room : ℕ) (i : InstrTree)
        (o : OperandTree) → TypesOf source types.now
        → room ≤ length scratch.old
        → i.place ≡ place → i.operand ≡ Some o → IsTarget source block targets.now room n o
        → HasType source block i ty
        → onward_in result r.now (frame_in visible.new own.new)
        ≡ m.transfers source (activation block first) i
        (working r.now (frame_in visible.old own.old)) }
{
    let Some(a) = r.accu1 else {
        return Err(unset(place));
    };
    match spot_of(targets, n, first, visible, own, scratch) {
        Ok(spot) => {
            write_spot(types, visible, own, spot, one(OneOp::Wrap, ty, a));
            Ok(())
        }
        Err(trap) => Err(trap),
    }
}
