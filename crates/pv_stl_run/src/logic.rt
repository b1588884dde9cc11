//! Bit logic: what instructions do to the bits of a chain.

ghost use Rattle.std.specs.Prelude.{◌≡◌, ◌-◌, ◌<◌, ◌≤◌, suc, IsOk};
ghost use Rattle.pv_mean.specs.Registers as reg;
ghost use Rattle.pv_mean.specs.BitLogic as m;
ghost use Rattle.pv_eval.specs.Traps.{tried};
ghost use Rattle.pv_stl_run.specs.Views.{logic_of, joining_of, junction_of, registers_of};
ghost use Rattle.pv_stl_run.specs.Rows.{logic_in, left_in};

use crate::registers::{Joining, Junction, Logic, MOST_NESTINGS, NO_LOGIC, Nesting, Registers};
use crate::stop::unset;
use pv_eval::Trap;
use pv_place::Place;

/// E: RLO or OR.
pub(crate) fn result_of(logic: Logic, place: Place) -> Result<bool, Trap>
    ensures { tried result ≡ reg.result_of place (logic_of logic) }
{
    match logic.rlo {
        Some(rlo) => Ok(rlo || logic.kept_or),
        None => Err(unset(place)),
    }
}

/// One of two bits alone.
fn differs(a: bool, b: bool) -> bool
    ensures { result ≡ m.differs a b }
{
    if a { !b } else { b }
}

/// A bit behind a first check.
fn joined(logic: Logic, joining: Joining, b: bool, place: Place) -> Result<Logic, Trap>
    ensures { logic_in result ≡ m.joined place (joining_of joining) b (logic_of logic) }
{
    match joining {
        Joining::And => match logic.rlo {
            Some(rlo) => Ok(Logic {
                checked: true,
                rlo: Some(rlo && b),
                kept_or: logic.kept_or,
            }),
            None => Err(unset(place)),
        },
        Joining::Or => match result_of(logic, place) {
            Ok(e) => Ok(Logic::resulting(true, e || b)),
            Err(trap) => Err(trap),
        },
        Joining::Xor => match result_of(logic, place) {
            Ok(e) => Ok(Logic::resulting(true, differs(e, b))),
            Err(trap) => Err(trap),
        },
    }
}

/// A bit is joined; that of a first check is the result.
pub(crate) fn join(logic: Logic, junction: Junction, b: bool, place: Place) -> Result<Logic, Trap>
    ensures { logic_in result ≡ m.join place (junction_of junction) b (logic_of logic) }
{
    let bit = differs(junction.negates, b);
    if logic.checked {
        joined(logic, junction.joining, bit, place)
    } else {
        Ok(Logic {
            checked: true,
            rlo: Some(bit),
            kept_or: logic.kept_or,
        })
    }
}

/// O alone: the result is kept, and a new chain begins.
pub(crate) fn keep_or(logic: Logic, place: Place) -> Result<Logic, Trap>
    ensures { logic_in result ≡ m.keep_or place (logic_of logic) }
{
    if !logic.checked {
        return Ok(logic);
    }
    match result_of(logic, place) {
        Ok(e) => Ok(Logic {
            checked: false,
            rlo: Some(false),
            kept_or: e,
        }),
        Err(trap) => Err(trap),
    }
}

/// A nesting is opened: the bits wait. One more than `MOST_NESTINGS` isn't.
pub(crate) fn open_nesting(r: &mut Registers, junction: Junction)
    ensures same { r.old.depth < 7
        → registers_of r.new ≡ m.open_nesting (junction_of junction) (registers_of r.old) }
    ensures depth { r.new.depth ≤ suc r.old.depth }
{
    if r.depth < MOST_NESTINGS {
        r.nestings[r.depth as usize] = Nesting {
            outer: r.logic,
            junction,
        };
        r.depth += 1;
        r.logic = NO_LOGIC;
    }
}

/// `)`: the result goes to the bits that waited. Without an opening nothing changes.
pub(crate) fn close_nesting(r: &mut Registers, place: Place) -> Result<(), Trap>
    ensures same { left_in result r.new ≡ m.close_nesting place (registers_of r.old) }
    ensures depth { IsOk result → r.new.depth ≤ r.old.depth - 1 }
{
    let e = match result_of(r.logic, place) {
        Ok(e) => e,
        Err(trap) => return Err(trap),
    };
    if r.depth == 0 {
        return Ok(());
    }
    let nesting = r.nestings[r.depth as usize - 1];
    match join(nesting.outer, nesting.junction, e, place) {
        Ok(logic) => {
            r.depth -= 1;
            r.logic = logic;
            Ok(())
        }
        Err(trap) => Err(trap),
    }
}

/// NOT.
pub(crate) fn negate(logic: Logic, place: Place) -> Result<Logic, Trap>
    ensures { logic_in result ≡ m.negate_result place (logic_of logic) }
{
    match result_of(logic, place) {
        Ok(e) => Ok(Logic::resulting(logic.checked, !e)),
        Err(trap) => Err(trap),
    }
}

/// Whether there is an edge, by the result and the bit of before.
pub(crate) fn edge(rising: bool, e: bool, before: bool) -> bool
    ensures { result ≡ m.edge rising e before }
{
    if rising { e && !before } else { before && !e }
}
