//! One instruction.

ghost use Rattle.std.specs.Prelude.{◌≡◌, ◌≤◌, ℕ, true, false, length, IsOk, IfOk};
ghost use Rattle.pv_tree.specs.Tree.{InstrTree, BlockTree};
ghost use Rattle.pv_mean.specs.Sources.{Source};
ghost use Rattle.pv_mean.specs.Instructions as m;
ghost use Rattle.pv_eval.specs.Means.{activation};
ghost use Rattle.pv_eval.specs.Writes.{TypesOf};
ghost use Rattle.pv_mean.specs.Frames.{Frame};
ghost use Rattle.pv_mean.specs.Endings.{got, and_then};
ghost use Rattle.pv_mean.specs.Registers.{had, result_of, resulting, with_logic};
ghost use Rattle.pv_eval.specs.Traps.{tried};
ghost use Rattle.pv_stl_run.specs.declared.registers.Registers.{Registers};
ghost use Rattle.pv_stl_run.specs.Views.{logic_of, registers_of, frame_in};
ghost use Rattle.pv_stl_run.specs.Deciding.{decided, ends_chain, is_result, counting, decision, decided_in};
ghost use Rattle.pv_stl_run.specs.Rows.{test_of};
ghost use Rattle.pv_stl_run.specs.Code.{working, next_of, onward_in, IsGoal, IsNoJump, IsAction, MayDo, GoesBy, opened, jump_row};

use crate::change::changes;
use crate::instr::{Action, Goal, Instr, Test, When};
use crate::logic::result_of;
use crate::numbers::{Part, put};
use crate::operand::{finds_edge, joins, loads, transfers, writes};
use crate::registers::{Logic, Registers};
use crate::stop::unset;
use pv_eval::{Target, Trap, TwoOp, two};
use pv_place::Place;
use pv_word::Ty;

/// Where a block goes on.
#[derive(Clone, Copy)]
pub enum Next {
    Onward,
    To(Goal),
    /// Nowhere: the block has ended.
    Left,
}

/// Whether CC1 and CC0 are such.
fn meets(test: Test, cc1: bool, cc0: bool) -> bool
    ensures { result ≡ test_of test cc1 cc0 }
{
    match test {
        Test::Zero => !cc1 && !cc0,
        Test::NotZero => (!cc1 && cc0) || (cc1 && !cc0),
        Test::Plus => cc1 && !cc0,
        Test::Minus => !cc1 && cc0,
        Test::NotMinus => (!cc1 && !cc0) || (cc1 && !cc0),
        Test::NotPlus => (!cc1 && !cc0) || (!cc1 && cc0),
    }
}

/// The result, which is 1 then, as a chain ends there.
fn takes_result(r: &mut Registers, place: Place) -> Result<bool, Trap>
    ensures value { tried result ≡ result_of place (logic_of r.old.logic) }
    ensures left { IsOk result
        → registers_of r.new ≡ with_logic (registers_of r.old) (resulting false true) }
    ensures depth { r.new.depth ≡ r.old.depth }
{
    match result_of(r.logic, place) {
        Ok(e) => {
            r.logic = Logic::resulting(false, true);
            Ok(e)
        }
        Err(trap) => Err(trap),
    }
}

/// Whether CC1 and CC0 are such, which are read.
fn by_codes(r: &Registers, test: Test, place: Place) -> Result<bool, Trap>
    ensures { tried result
        ≡ and_then (had place r.now.codes.cc1) (λ one. and_then (had place r.now.codes.cc0)
        (λ zero. got (test_of test one zero))) }
{
    let (Some(cc1), Some(cc0)) = (r.codes.cc1, r.codes.cc0) else {
        return Err(unset(place));
    };
    Ok(meets(test, cc1, cc0))
}

/// LOOP counts, and asks whether something is left.
fn counts(r: &mut Registers, place: Place) -> Result<bool, Trap>
    ensures same { decided_in result r.new
        ≡ and_then (had place r.old.accu1) (λ a. got (counting a (registers_of r.old))) }
    ensures depth { r.new.depth ≡ r.old.depth }
{
    let Some(a) = r.accu1 else {
        return Err(unset(place));
    };
    match two(TwoOp::Sub, Ty::Word, place, a, 1) {
        Ok(n) => {
            r.accu1 = Some(put(Part::Low, a, n));
            Ok(n != 0)
        }
        Err(trap) => Err(trap),
    }
}

/// Whether a bit is this.
fn is_bit(bit: bool, e: bool) -> bool
    ensures { result ≡ is_result bit e }
{
    if bit { e } else { !e }
}

/// Whether the result is this. A chain ends there.
fn by_result(r: &mut Registers, bit: bool, place: Place) -> Result<bool, Trap>
    ensures same { decided_in result r.new ≡ and_then (result_of place (logic_of r.old.logic))
        (λ e. got (decided (is_result bit e) (ends_chain (registers_of r.old)))) }
    ensures depth { r.new.depth ≡ r.old.depth }
{
    match takes_result(r, place) {
        Ok(e) => Ok(is_bit(bit, e)),
        Err(trap) => Err(trap),
    }
}

/// OV, which is read.
fn by_overflow(r: &Registers, place: Place) -> Result<bool, Trap>
    ensures { decided_in result r.now
        ≡ and_then (had place r.now.codes.ov) (λ ov. got (decided ov (registers_of r.now))) }
{
    match r.codes.ov {
        Some(ov) => Ok(ov),
        None => Err(unset(place)),
    }
}

/// Whether a jump is made.
fn is_made(r: &mut Registers, when: When, place: Place) -> Result<bool, Trap>
    ensures same { decided_in result r.new ≡ decision when place (registers_of r.old) }
    ensures depth { r.new.depth ≡ r.old.depth }
{
    match when {
        When::Always => Ok(true),
        When::Result(bit) => by_result(r, bit, place),
        When::Codes(test) => by_codes(r, test, place),
        When::Overflow => by_overflow(r, place),
        When::Counted => counts(r, place),
    }
}

/// Where it goes on behind a jump.
fn jumps(r: &mut Registers, when: When, goal: Goal, place: Place) -> Result<Next, Trap>
    ensures same { (i : InstrTree) (frame : Frame) → i.place ≡ place
        → next_of i result r.new frame ≡ jump_row when i (working r.old frame) }
    ensures goal { IfOk result (λ n. IsGoal goal n) }
    ensures depth { r.new.depth ≡ r.old.depth }
{
    match is_made(r, when, place) {
        Ok(true) => Ok(Next::To(goal)),
        Ok(false) => Ok(Next::Onward),
        Err(trap) => Err(trap),
    }
}

/// BEC.
fn ends_where(r: &mut Registers, place: Place) -> Result<Next, Trap>
    ensures same { (i : InstrTree) (frame : Frame) → i.place ≡ place
        → next_of i result r.new frame ≡ m.by_result i (working r.old frame) m.ends_where }
    ensures goes { IfOk result IsNoJump }
    ensures depth { r.new.depth ≡ r.old.depth }
{
    match takes_result(r, place) {
        Ok(true) => Ok(Next::Left),
        Ok(false) => Ok(Next::Onward),
        Err(trap) => Err(trap),
    }
}

fn onward(done: Result<(), Trap>) -> Result<Next, Trap>
    ensures same { (i : InstrTree) (r : Registers) (frame : Frame)
        → next_of i result r frame ≡ onward_in done r frame }
    ensures goes { IfOk result IsNoJump }
    ensures ok { IsOk result → IsOk done }
{
    match done {
        Ok(()) => Ok(Next::Onward),
        Err(trap) => Err(trap),
    }
}

/// What an instruction does, by its row of the table. A trap has the place of what traps.
fn effect(
    r: &mut Registers,
    instr: &Instr,
    targets: &[Target],
    types: &[Ty],
    first: u32,
    visible: &mut [i64],
    own: &mut [Option<i64>],
    scratch: &mut [i64],
) -> Result<Next, Trap>
    ensures same { (source : Source) (block : BlockTree) (room : ℕ) (i : InstrTree)
        → TypesOf source types.now
        → room ≤ length scratch.old → i.place ≡ instr.now.place → MayDo instr.now.action r.old.depth
        → IsAction source block targets.now room instr.now.action i
        → next_of i result r.new (frame_in visible.new own.new)
        ≡ m.effect source (activation block first) i i.op
        (working r.old (frame_in visible.old own.old)) }
    ensures goes { GoesBy instr.now.action result }
    ensures depth { IsOk result → r.new.depth ≤ opened instr.now.action r.old.depth }
{
    let place = instr.place;
    match instr.action {
        Action::Change(change) => onward(changes(r, change, place)),
        Action::Join(junction, n) => onward(joins(
            r, junction, targets, n, first, visible, own, scratch, place,
        )),
        Action::Write(written, n) => onward(writes(
            r, written, targets, types, n, first, visible, own, scratch, place,
        )),
        Action::Edge(rising, n) => onward(finds_edge(
            r, rising, targets, types, n, first, visible, own, scratch, place,
        )),
        Action::Load(ty, n) => onward(loads(
            r, ty, targets, n, first, visible, own, scratch, place,
        )),
        Action::Transfer(ty, n) => onward(transfers(
            r, ty, targets, types, n, first, visible, own, scratch, place,
        )),
        Action::Jump(when, goal) => jumps(r, when, goal, place),
        Action::End => Ok(Next::Left),
        Action::EndWhere => ends_where(r, place),
        Action::Call(_) => Ok(Next::Onward),
    }
}

/// Makes one instruction, which isn't a call: what changes in the registers and in the frame, and where the block goes on. A trap
/// has the place of the instruction's word, also where an index of its operand traps; no clause says what is left then.
///
/// `targets` are the program's operands, `types` the types of the visible cells, `first` is the first cell of the block's instance;
/// what `scratch` holds doesn't matter.
pub fn step(
    r: &mut Registers,
    instr: &Instr,
    targets: &[Target],
    types: &[Ty],
    first: u32,
    visible: &mut [i64],
    own: &mut [Option<i64>],
    scratch: &mut [i64],
) -> Result<Next, Trap>
    ensures same { (source : Source) (block : BlockTree) (room : ℕ) (i : InstrTree)
        → TypesOf source types.now
        → room ≤ length scratch.old → i.place ≡ instr.now.place → MayDo instr.now.action r.old.depth
        → IsAction source block targets.now room instr.now.action i
        → next_of i result r.new (frame_in visible.new own.new)
        ≡ m.at_word i.place
        (m.effect source (activation block first) i i.op
        (working r.old (frame_in visible.old own.old))) }
    ensures goes { GoesBy instr.now.action result }
    ensures depth { IsOk result → r.new.depth ≤ opened instr.now.action r.old.depth }
{
    match effect(r, instr, targets, types, first, visible, own, scratch) {
        Ok(next) => Ok(next),
        Err(trap) => Err(Trap {
            kind: trap.kind,
            place: instr.place,
        }),
    }
}
