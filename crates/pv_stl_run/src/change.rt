//! Instructions that change the registers alone.

ghost use Rattle.std.specs.Prelude.{◌≡◌, ◌≤◌, IsOk};
ghost use Rattle.pv_mean.specs.Endings.{got, and_then};
ghost use Rattle.pv_mean.specs.Registers as reg;
ghost use Rattle.pv_mean.specs.Accumulators as m;
ghost use Rattle.pv_stl_run.specs.Views.{part_of, registers_of};
ghost use Rattle.pv_stl_run.specs.Rows.{math_row, relation_of, combining_of, shift_of, row_of, logic_in, left_in};
ghost use Rattle.pv_stl_run.specs.Code.{MayOpen, opened_by};

use crate::instr::{Change, Combining, Math, Relation, Shifting};
use crate::logic::{close_nesting, keep_or, negate, open_nesting};
use crate::math::{calculated, combined, compared, shifted};
use crate::numbers::{Part, codes_of_pattern, number, put};
use crate::registers::{Logic, NO_CODES, Registers};
use crate::stop::unset;
use pv_eval::{OneOp, Trap, one};
use pv_place::Place;
use pv_word::Ty;

/// What is made of the bits of the chain goes there.
fn with_logic(r: &mut Registers, logic: Result<Logic, Trap>) -> Result<(), Trap>
    ensures same { left_in result r.new
        ≡ and_then (logic_in logic) (λ l. got (reg.with_logic (registers_of r.old) l)) }
    ensures depth { r.new.depth ≡ r.old.depth }
{
    match logic {
        Ok(logic) => {
            r.logic = logic;
            Ok(())
        }
        Err(trap) => Err(trap),
    }
}

/// ACCU2 takes what ACCU1 has, and ACCU1 a number.
pub(crate) fn load(r: &mut Registers, v: i64)
    ensures same { registers_of r.new ≡ m.loaded v (registers_of r.old) }
    ensures depth { r.new.depth ≡ r.old.depth }
{
    r.accu2 = r.accu1;
    r.accu1 = Some(v);
}

fn calculate(r: &mut Registers, op: Math, place: Place) -> Result<(), Trap>
    ensures same { left_in result r.new ≡ math_row op place (registers_of r.old) }
    ensures depth { r.new.depth ≡ r.old.depth }
{
    let (Some(b), Some(a)) = (r.accu2, r.accu1) else {
        return Err(unset(place));
    };
    match calculated(op, b, a, place) {
        Ok(made) => {
            r.accu1 = Some(made.accu);
            r.codes = made.codes;
            Ok(())
        }
        Err(trap) => Err(trap),
    }
}

fn compare(r: &mut Registers, relation: Relation, part: Part, place: Place) -> Result<(), Trap>
    ensures same { left_in result r.new
        ≡ m.compared (relation_of relation) (part_of part) place (registers_of r.old) }
    ensures depth { r.new.depth ≡ r.old.depth }
{
    let (Some(b), Some(a)) = (r.accu2, r.accu1) else {
        return Err(unset(place));
    };
    let made = compared(relation, part, b, a);
    r.logic = made.logic;
    r.codes = made.codes;
    Ok(())
}

fn combine(
    r: &mut Registers,
    op: Combining,
    part: Part,
    literal: Option<i64>,
    place: Place,
) -> Result<(), Trap>
    ensures same { left_in result r.new
        ≡ m.joined_word (combining_of op) (part_of part) literal place (registers_of r.old) }
    ensures depth { r.new.depth ≡ r.old.depth }
{
    let other = match literal {
        Some(v) => Some(v),
        None => r.accu2,
    };
    let (Some(a), Some(b)) = (r.accu1, other) else {
        return Err(unset(place));
    };
    match combined(op, part.unsigned(), place, a, b) {
        Ok(n) => {
            r.accu1 = Some(put(part, a, n));
            r.codes = codes_of_pattern(n);
            Ok(())
        }
        Err(trap) => Err(trap),
    }
}

fn shift(r: &mut Registers, way: Shifting, part: Part, count: u32, place: Place) -> Result<(), Trap>
    ensures same { left_in result r.new
        ≡ m.shifted (shift_of way) (part_of part) count place (registers_of r.old) }
    ensures depth { r.new.depth ≡ r.old.depth }
{
    let Some(a) = r.accu1 else {
        return Err(unset(place));
    };
    match shifted(way, part.unsigned(), place, a, count) {
        Ok(n) => {
            r.accu1 = Some(put(part, a, n));
            r.codes = NO_CODES;
            Ok(())
        }
        Err(trap) => Err(trap),
    }
}

/// ITD.
fn extend(r: &mut Registers, place: Place) -> Result<(), Trap>
    ensures same { left_in result r.new ≡ m.extended place (registers_of r.old) }
    ensures depth { r.new.depth ≡ r.old.depth }
{
    let Some(a) = r.accu1 else {
        return Err(unset(place));
    };
    r.accu1 = Some(one(OneOp::Wrap, Ty::Dword, number(Part::Low, a)));
    Ok(())
}

/// TAK.
fn swap(r: &mut Registers)
    ensures same { registers_of r.new ≡ m.swapped (registers_of r.old) }
    ensures depth { r.new.depth ≡ r.old.depth }
{
    let first = r.accu1;
    r.accu1 = r.accu2;
    r.accu2 = first;
}

/// Makes a change; where it traps no clause says what is left.
pub(crate) fn changes(r: &mut Registers, change: Change, place: Place) -> Result<(), Trap>
    ensures same { MayOpen change r.old.depth
        → left_in result r.new ≡ row_of change place (registers_of r.old) }
    ensures depth { IsOk result → r.new.depth ≤ opened_by change r.old.depth }
{
    match change {
        Change::Nothing => Ok(()),
        Change::KeepOr => with_logic(r, keep_or(r.logic, place)),
        Change::Open(junction) => {
            open_nesting(r, junction);
            Ok(())
        }
        Change::Close => close_nesting(r, place),
        Change::Negate => with_logic(r, negate(r.logic, place)),
        Change::Put(bit) => with_logic(r, Ok(Logic::resulting(false, bit))),
        Change::Load(v) => {
            load(r, v);
            Ok(())
        }
        Change::Calculate(op) => calculate(r, op, place),
        Change::Compare(relation, part) => compare(r, relation, part, place),
        Change::Combine(op, part, literal) => combine(r, op, part, literal, place),
        Change::Shift(way, part, count) => shift(r, way, part, count, place),
        Change::Extend => extend(r, place),
        Change::Swap => {
            swap(r);
            Ok(())
        }
        Change::Push => {
            r.accu2 = r.accu1;
            Ok(())
        }
        Change::Pop => {
            r.accu1 = r.accu2;
            Ok(())
        }
    }
}
