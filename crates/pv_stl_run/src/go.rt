//! Instructions one behind another.
ghost use Rattle.std.specs.Prelude.{◌≡◌, slice_get, option_copied};
ghost use Rattle.pv_stl_run.specs.Actions.{call_of};

use crate::instr::{Action, Goal, Instr};
use crate::registers::Registers;
use crate::steps::{Next, step};
use crate::stop::Stop;
use crate::turns::{Turn, arrives, returns};
use pv_eval::Target;
use pv_word::Ty;

/// The number of the call that an instruction makes, if it is one.
fn call_of(action: Action) -> Option<usize>
    ensures { result ≡ call_of action }
{
    match action {
        Action::Call(call) => Some(call),
        _ => None,
    }
}

/// The instruction at a position, if there is one.
fn instr_at(code: &[Instr], at: usize) -> Option<&Instr>
    ensures { option_copied result ≡ slice_get code.now at }
{
    code.get(at)
}

/// A body at work: the registers, the position of the next instruction, and how many of the turns are of ranges that were entered.
#[derive(Drop)]
pub struct Going {
    pub registers: Registers,
    pub at: usize,
    pub entered: usize,
}

impl Going {
    ghost use Rattle.std.specs.Prelude.{◌≡◌, ◌+◌, ◌≤◌, ◌<◌, ℕ, List, suc, drop, length, false, IfOk};
    ghost use Rattle.pv_tree.specs.Tree.{InstrTree, BlockTree};
    ghost use Rattle.pv_mean.specs.Sources.{Source};
    ghost use Rattle.pv_mean.specs.Activations.{Activation};
    ghost use Rattle.pv_mean.specs.Statements.{Calls};
    ghost use Rattle.pv_mean.specs.Registers.{Working, fresh};
    ghost use Rattle.pv_mean.specs.Endings.{ended};
    ghost use Rattle.pv_mean.specs.Instructions.{at_label};
    ghost use Rattle.pv_mean.specs.InstructionRuns.{here, run_instructions};
    ghost use Rattle.pv_eval.specs.Means.{activation};
    ghost use Rattle.pv_eval.specs.Writes.{TypesOf};
    ghost use Rattle.pv_stl_run.specs.Views.{registers_of, frame_in};
    ghost use Rattle.pv_stl_run.specs.Code.{working};
    ghost use Rattle.pv_stl_run.specs.Going.{HasRanges, Nested, AreInstrs, IsBack, entered_of, resumed, left_of, most_behind, most_in, nested_at, Went, Fell, WhereOn, GoesTo, did, then_follows, UpToCall, UpToMost, Gone, begun, ranges_in, most_left};

    /// A body at its start.
    pub fn begin(code: &[Instr], bound: u32, turns: &mut [Turn]) -> Result<Going, Stop>
        ensures same { (source : Source) (calls : Calls) (act : Activation) (all : List InstrTree)
            (w : Working)
            → source.bound ≡ bound → HasRanges code.now all
            → ranges_in code.now ≤ length turns.old
            → begun source calls act all w result turns.new
            ≡ run_instructions source calls act all here w }
        ensures registers { IfOk result (λ g. registers_of g.registers ≡ fresh) }
        ensures within { IfOk result (λ g. g.entered ≤ length turns.new) }
        ensures nested { IfOk result (λ g. Nested code.now turns.new g.entered (suc g.at)) }
    {
        match arrives(code, bound, 0, 0, turns) {
            Ok(entered) => Ok(Going {
                registers: Registers::fresh(),
                at: 0,
                entered,
            }),
            Err(stop) => Err(stop),
        }
    }

    /// At a position that is reached from in front of it. Answers whether the body goes on there.
    fn goes_to(
        &mut self,
        code: &[Instr],
        bound: u32,
        at: usize,
        turns: &mut [Turn],
    ) -> Result<bool, Stop>
        requires { self.old.entered ≤ length turns.old }
        ensures same { (source : Source) (calls : Calls) (act : Activation) (all : List InstrTree)
            (w : Working)
            → source.bound ≡ bound → HasRanges code.now all
            → Nested code.now turns.old self.old.entered at
            → ranges_in code.now ≤ length turns.old
            → Went result
            (left_of source calls act all turns.new self.new.entered self.new.at w) w.frame
            (resumed source calls act all (entered_of turns.old self.old.entered)
            (run_instructions source calls act (drop at all) here w)) }
        ensures registers { self.new.registers ≡ self.old.registers }
        ensures within { self.new.entered ≤ length turns.new }
        ensures most { Fell result (most_left bound code.now self.new.at turns.new self.new.entered)
            (suc (most_behind bound (drop at code.now) + most_in bound code.now
            (entered_of turns.old self.old.entered))) }
        ensures nested { Nested code.now turns.old self.old.entered at
            → WhereOn result (Nested code.now turns.new self.new.entered (suc self.new.at)) }
        ensures at { WhereOn result (self.new.at ≡ at) }
    {
        match arrives(code, bound, at, self.entered, turns) {
            Ok(entered) => {
                self.at = at;
                self.entered = entered;
                Ok(true)
            }
            Err(stop) => Err(stop),
        }
    }

    /// At the next position.
    fn goes_on(&mut self, code: &[Instr], bound: u32, turns: &mut [Turn]) -> Result<bool, Stop>
        requires { self.old.entered ≤ length turns.old }
        ensures same { (source : Source) (calls : Calls) (act : Activation) (all : List InstrTree)
            (w : Working)
            → source.bound ≡ bound → HasRanges code.now all
            → Nested code.now turns.old self.old.entered (suc self.old.at)
            → ranges_in code.now ≤ length turns.old
            → Went result
            (left_of source calls act all turns.new self.new.entered self.new.at w) w.frame
            (resumed source calls act all (entered_of turns.old self.old.entered)
            (run_instructions source calls act (drop (suc self.old.at) all) here w)) }
        ensures registers { self.new.registers ≡ self.old.registers }
        ensures within { self.new.entered ≤ length turns.new }
        ensures most { Fell result (most_left bound code.now self.new.at turns.new self.new.entered)
            (suc (most_behind bound (drop (suc self.old.at) code.now) + most_in bound code.now
            (entered_of turns.old self.old.entered))) }
        ensures nested { Nested code.now turns.old self.old.entered (suc self.old.at)
            → WhereOn result (Nested code.now turns.new self.new.entered (suc self.new.at)) }
        ensures at { WhereOn result (self.new.at ≡ suc self.old.at) }
    {
        if self.at < code.len() {
            self.goes_to(code, bound, self.at + 1, turns)
        } else {
            Ok(false)
        }
    }

    /// Back at a position.
    fn goes_back(&mut self, code: &[Instr], at: usize, turns: &mut [Turn]) -> Result<bool, Stop>
        requires { self.old.entered ≤ length turns.old }
        ensures same { (source : Source) (calls : Calls) (act : Activation) (all : List InstrTree)
            (k limit : ℕ) (key : List ℕ) (w : Working)
            → HasRanges code.now all → Nested code.now turns.old self.old.entered limit
            → IsBack all k key at
            → Went result
            (left_of source calls act all turns.new self.new.entered self.new.at w) w.frame
            (resumed source calls act all (entered_of turns.old self.old.entered)
            (ended (at_label key w))) }
        ensures registers { self.new.registers ≡ self.old.registers }
        ensures within { self.new.entered ≤ length turns.new }
        ensures most { (bound : ℕ)
            → Fell result (most_left bound code.now self.new.at turns.new self.new.entered)
            (suc (most_in bound code.now (entered_of turns.old self.old.entered))) }
        ensures nested { (limit : ℕ) → Nested code.now turns.old self.old.entered limit
            → WhereOn result (Nested code.now turns.new self.new.entered (suc self.new.at)) }
    {
        match returns(code, at, self.entered, turns) {
            Ok(Some(entered)) => {
                self.at = at;
                self.entered = entered;
                Ok(true)
            }
            Ok(None) => Ok(false),
            Err(stop) => Err(stop),
        }
    }

    /// Behind a call: all is as at a block's start. Answers whether the body goes on there.
    pub fn behind_call(
        &mut self,
        code: &[Instr],
        bound: u32,
        turns: &mut [Turn],
    ) -> Result<bool, Stop>
        requires { self.old.entered ≤ length turns.old }
        ensures same { (source : Source) (calls : Calls) (act : Activation) (all : List InstrTree)
            (w : Working)
            → source.bound ≡ bound → HasRanges code.now all
            → Nested code.now turns.old self.old.entered (suc self.old.at)
            → ranges_in code.now ≤ length turns.old
            → Went result
            (left_of source calls act all turns.new self.new.entered self.new.at w) w.frame
            (resumed source calls act all (entered_of turns.old self.old.entered)
            (run_instructions source calls act (drop (suc self.old.at) all) here w)) }
        ensures registers { registers_of self.new.registers ≡ fresh }
        ensures within { self.new.entered ≤ length turns.new }
        ensures most { Fell result (most_left bound code.now self.new.at turns.new self.new.entered)
            (suc (most_behind bound (drop (suc self.old.at) code.now) + most_in bound code.now
            (entered_of turns.old self.old.entered))) }
        ensures nested { Nested code.now turns.old self.old.entered (suc self.old.at)
            → WhereOn result (Nested code.now turns.new self.new.entered (suc self.new.at)) }
    {
        self.registers = Registers::fresh();
        self.goes_on(code, bound, turns)
    }

    /// Where it goes on, if it does. A jump ahead that leads nowhere ahead ends the body.
    fn follows(
        &mut self,
        next: Next,
        code: &[Instr],
        bound: u32,
        turns: &mut [Turn],
    ) -> Result<bool, Stop>
        requires { self.old.entered ≤ length turns.old }
        ensures same { (source : Source) (calls : Calls) (act : Activation) (all : List InstrTree)
            (i : InstrTree) (w : Working)
            → source.bound ≡ bound → HasRanges code.now all
            → Nested code.now turns.old self.old.entered (suc self.old.at)
            → ranges_in code.now ≤ length turns.old
            → GoesTo all self.old.at i next
            → Went result
            (left_of source calls act all turns.new self.new.entered self.new.at w) w.frame
            (resumed source calls act all (entered_of turns.old self.old.entered)
            (then_follows source calls act (drop (suc self.old.at) all) (did i next w))) }
        ensures registers { self.new.registers ≡ self.old.registers }
        ensures within { self.new.entered ≤ length turns.new }
        ensures most { self.old.at < length code.now
            → Fell result (most_left bound code.now self.new.at turns.new self.new.entered)
            (most_left bound code.now self.old.at turns.old self.old.entered) }
        ensures nested { Nested code.now turns.old self.old.entered (suc self.old.at)
            → WhereOn result (Nested code.now turns.new self.new.entered (suc self.new.at)) }
        ensures at { next ≡ Next.Onward → WhereOn result (self.new.at ≡ suc self.old.at) }
        ensures left { next ≡ Next.Left → result ≡ Ok false }
    {
        match next {
            Next::Onward => self.goes_on(code, bound, turns),
            Next::To(Goal::Ahead(at)) => {
                if at > self.at {
                    self.goes_to(code, bound, at, turns)
                } else {
                    Ok(false)
                }
            }
            Next::To(Goal::Back(at)) => self.goes_back(code, at, turns),
            Next::Left => Ok(false),
        }
    }

    /// Runs instructions up to a call, whose number is answered, or to the body's end.
    pub fn go(
        &mut self,
        code: &[Instr],
        bound: u32,
        targets: &[Target],
        types: &[Ty],
        first: u32,
        turns: &mut [Turn],
        visible: &mut [i64],
        own: &mut [Option<i64>],
        scratch: &mut [i64],
    ) -> Result<Option<usize>, Stop>
        requires { self.old.entered ≤ length turns.old }
        ensures same { (source : Source) (calls : Calls) (block : BlockTree) (room : ℕ)
            (all : List InstrTree) → source.bound ≡ bound → TypesOf source types.now
            → room ≤ length scratch.old
            → AreInstrs source block targets.now room code.now all
            → Nested code.now turns.old self.old.entered (suc self.old.at)
            → ranges_in code.now ≤ length turns.old
            → self.old.registers.depth ≤ nested_at code.now self.old.at
            → Gone result
            (λ n. UpToCall source block code.now turns.new self.new.entered self.new.at self.new.registers.depth n
            (left_of source calls
            (activation block first) all turns.new self.new.entered self.new.at
            (working self.new.registers (frame_in visible.new own.new)))
            (left_of source calls
            (activation block first) all turns.old self.old.entered self.old.at
            (working self.old.registers (frame_in visible.old own.old))))
            (frame_in visible.new own.new)
            (left_of source calls
            (activation block first) all turns.old self.old.entered self.old.at
            (working self.old.registers (frame_in visible.old own.old))) }
        ensures within { self.new.entered ≤ length turns.new }
        ensures most { UpToMost result
            (suc (most_behind bound (drop (suc self.new.at) code.now)
            + most_in bound code.now (entered_of turns.new self.new.entered)))
            (most_left bound code.now self.old.at turns.old self.old.entered) }
    {
        while let Some(instr) = instr_at(code, self.at) {
            if let Some(call) = call_of(instr.action) {
                return Ok(Some(call));
            }
            let next = match step(
                &mut self.registers,
                instr,
                targets,
                types,
                first,
                visible,
                own,
                scratch,
            ) {
                Ok(next) => next,
                Err(trap) => return Err(Stop::Trap(trap)),
            };
            match self.follows(next, code, bound, turns) {
                Ok(true) => {}
                Ok(false) => return Ok(None),
                Err(stop) => return Err(stop),
            }
        }
        Ok(None)
    }
}
