//! How many values states and inputs have.
ghost use Rattle.std.specs.Prelude.{◌≡◌, length, map};
ghost use Rattle.pv_flow.specs.Machines.{state_ranges, input_ranges};
ghost use Rattle.pv_flow.specs.Checks.{stored_in, taken_in};
ghost use Rattle.pv_flow.specs.View.{variable_of};

use crate::parts::Variable;

fn stored_in(vars: &[Variable]) -> usize
    ensures { result ≡ stored_in vars.now }
{
    vars.iter().filter(|v| v.role.is_stored()).count()
}

fn taken_in(vars: &[Variable]) -> usize
    ensures { result ≡ taken_in vars.now }
{
    vars.iter().filter(|v| v.role.is_input()).count()
}

/// How many variables have a value in a state.
pub(crate) fn stored(vars: &[Variable]) -> usize
    ensures { result ≡ length (state_ranges (map variable_of vars.now)) }
{
    stored_in(vars)
}

/// How many variables have a value in an input.
pub(crate) fn taken(vars: &[Variable]) -> usize
    ensures { result ≡ length (input_ranges (map variable_of vars.now)) }
{
    taken_in(vars)
}
