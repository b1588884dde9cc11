//! What is left of a clause of which some literals are false.
ghost use Rattle.std.specs.Prelude.{◌≡◌, ℕ, ◌+◌, ◌*◌, ◌<◌, false, List, [], ◌∷◌, Ok, Err, Some, MatchResult};
ghost use Rattle.std.specs.Result.{result_err};
ghost use Rattle.pv_cnf.specs.Clause.{has_outside};
ghost use Rattle.pv_log.specs.Propagation.{left_of, is_falsified, last_step, unit_step};
ghost use Rattle.pv_log.specs.Checking.{left_as};

use crate::assignment::Assignment;
use crate::fault::LineFault;
use pv_cnf::flip;

/// The literals of a clause that aren't false.
#[derive(Clone, Copy, Debug, PartialEq, Eq)]
pub(crate) enum Left {
    /// All are false.
    None,
    /// All others are false.
    One(u32),
    /// At least two aren't.
    More,
}

/// The literals of a clause that aren't false.
fn count_left(values: &Assignment, clause: &[u32]) -> Left
    requires { has_outside values.now.variables clause.now ≡ false }
    ensures { result ≡ left_as (left_of values.now.falses clause.now) }
{
    let mut one = Left::None;
    for lit in clause {
        if values.is_false(*lit) {
            continue;
        }
        match one {
            Left::None => one = Left::One(*lit),
            _ => return Left::More,
        }
    }
    one
}

/// Follows a hint before the last one: the clause's one literal without a value becomes true.
pub(crate) fn follow_unit(values: &mut Assignment, clause: &[u32]) -> Result<(), LineFault>
    requires { has_outside values.old.variables clause.now ≡ false }
    ensures variables { values.new.variables ≡ values.old.variables }
    ensures step { MatchResult result
        (λ _. unit_step values.old.falses (Some clause.now) ≡ Ok values.new.falses)
        (λ fault. unit_step values.old.falses (Some clause.now) ≡ Err fault) }
{
    if let Left::One(lit) = count_left(values, clause)
        && !values.is_false(flip(lit))
    {
        values.make_false(flip(lit));
        return Ok(());
    }
    Err(LineFault::NotUnit)
}

/// Whether all literals of a clause are false.
pub(crate) fn all_false(values: &Assignment, clause: &[u32]) -> bool
    requires { has_outside values.now.variables clause.now ≡ false }
    ensures { result ≡ is_falsified values.now.falses clause.now }
{
    match count_left(values, clause) {
        Left::None => true,
        _ => false,
    }
}

/// Follows the last hint: all literals of the clause are false.
pub(crate) fn follow_last(values: &Assignment, clause: &[u32]) -> Result<(), LineFault>
    requires { has_outside values.now.variables clause.now ≡ false }
    ensures { result_err result ≡ result_err (last_step values.now.falses (Some clause.now)) }
{
    if all_false(values, clause) {
        Ok(())
    } else {
        Err(LineFault::LastNotFalse)
    }
}
