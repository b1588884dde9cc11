//! Turns of ranges: how many are left of each range that was entered at its label.

ghost use Rattle.std.specs.Prelude.{◌≡◌, ◌≤◌, ℕ, suc, ℤ, List, length, drop, IfOk, IfSome};
ghost use Rattle.pv_tree.specs.Tree.{InstrTree};
ghost use Rattle.pv_mean.specs.Sources.{Source};
ghost use Rattle.pv_mean.specs.Endings.{ended};
ghost use Rattle.pv_mean.specs.Activations.{Activation};
ghost use Rattle.pv_mean.specs.Statements.{Calls};
ghost use Rattle.pv_mean.specs.Registers.{Working};
ghost use Rattle.pv_mean.specs.Instructions.{at_label};
ghost use Rattle.pv_mean.specs.InstructionRuns.{here, run_instructions};
ghost use Rattle.pv_stl_run.specs.Going.{HasRanges, Nested, range_at, ranges_in, entered_of, resumed, arrived, returned, left_to, IsBack, MostArrived, MostReturned};

use crate::instr::Instr;
use crate::stop::Stop;
use pv_place::Place;

/// A range that was entered: the position of the instruction with its label, and how many turns are left.
#[derive(Clone, Copy)]
pub struct Turn {
    pub at: usize,
    pub left: u32,
}

/// The place of the label at a position, if that begins a range.
fn range_at(code: &[Instr], at: usize) -> Option<Place>
    ensures { result ≡ range_at code.now at }
{
    match code.get(at) {
        Some(instr) => instr.range,
        None => None,
    }
}

/// Arrives at a position from in front of it: where the label there begins a range, that is entered. Answers how many are entered
/// then. One for which there is no room isn't counted.
pub(crate) fn arrives(
    code: &[Instr],
    bound: u32,
    at: usize,
    entered: usize,
    turns: &mut [Turn],
) -> Result<usize, Stop>
    requires { entered ≤ length turns.old }
    ensures same { (source : Source) (calls : Calls) (act : Activation) (all : List InstrTree)
        (w : Working)
        → source.bound ≡ bound → HasRanges code.now all
        → Nested code.now turns.old entered at → ranges_in code.now ≤ length turns.old
        → arrived source calls act all at w result turns.new
        ≡ resumed source calls act all (entered_of turns.old entered)
        (run_instructions source calls act (drop at all) here w) }
    ensures within { IfOk result (λ n. n ≤ length turns.new) }
    ensures most { MostArrived bound code.now at turns.old entered result turns.new }
    ensures nested { Nested code.now turns.old entered at
        → IfOk result (λ n. Nested code.now turns.new n (suc at)) }
{
    let label = match range_at(code, at) {
        Some(label) => label,
        None => return Ok(entered),
    };
    if bound == 0 {
        return Err(Stop::Over(label));
    }
    if entered < turns.len() {
        turns[entered] = Turn {
            at,
            left: bound - 1,
        };
        return Ok(entered + 1);
    }
    Ok(entered)
}

/// How many of the ranges are entered where those within the one of this position are left; none, if that one isn't entered.
fn left_within(at: usize, entered: usize, turns: &[Turn]) -> usize
    requires { entered ≤ length turns.now }
    ensures { result ≡ left_to at turns.now entered }
{
    let mut n = entered;
    while n > 0 {
        match turns.get(n - 1) {
            Some(turn) => {
                if turn.at == at {
                    return n;
                }
            }
            None => return 0,
        }
        n -= 1;
    }
    0
}

/// Back at the label of a range: it has one more turn, and the ranges within it are left. Answers how many are entered then, if it
/// is.
pub(crate) fn returns(
    code: &[Instr],
    at: usize,
    entered: usize,
    turns: &mut [Turn],
) -> Result<Option<usize>, Stop>
    requires { entered ≤ length turns.old }
    ensures same { (source : Source) (calls : Calls) (act : Activation) (all : List InstrTree)
        (k limit : ℕ) (key : List ℕ) (w : Working)
        → HasRanges code.now all → Nested code.now turns.old entered limit → IsBack all k key at
        → returned source calls act all at key w result turns.new
        ≡ resumed source calls act all (entered_of turns.old entered) (ended (at_label key w)) }
    ensures within { IfOk result (λ o. IfSome o (λ n. n ≤ length turns.new)) }
    ensures most { (bound : ℕ) → MostReturned bound code.now at turns.old entered result turns.new }
    ensures nested { (limit : ℕ) → Nested code.now turns.old entered limit
        → IfOk result (λ o. IfSome o (λ n. Nested code.now turns.new n (suc at))) }
{
    let n = left_within(at, entered, turns);
    if n == 0 {
        return Ok(None);
    }
    let turn = turns[n - 1];
    if turn.left > 0 {
        turns[n - 1] = Turn {
            at,
            left: turn.left - 1,
        };
        return Ok(Some(n));
    }
    match range_at(code, at) {
        Some(label) => Err(Stop::Over(label)),
        None => Ok(None),
    }
}
