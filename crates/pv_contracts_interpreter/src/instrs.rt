//! Contract tests of `pv_stl_run`.
ghost use Rattle.pv_eval.specs.Means.{activation};
ghost use Rattle.pv_eval.specs.Writes.{TypesOf};
ghost use Rattle.pv_mean.specs.Activations.{Activation};
ghost use Rattle.pv_mean.specs.InstructionRuns.{here, run_instructions};
ghost use Rattle.pv_mean.specs.Instructions as m;
ghost use Rattle.pv_mean.specs.Registers.{Working, fresh};
ghost use Rattle.pv_mean.specs.Sources.{Source};
ghost use Rattle.pv_mean.specs.Statements.{Calls};
ghost use Rattle.pv_stl_run.specs.Code.{GoesBy, IsAction, MayDo, next_of, opened, working};
ghost use Rattle.pv_stl_run.specs.Going.{AreInstrs, Fell, Gone, HasRanges, Nested, UpToCall, UpToMost, Went, WhereOn, begun, entered_of, left_of, most_behind, most_in, most_left, nested_at, ranges_in, resumed};
ghost use Rattle.pv_stl_run.specs.Views.{frame_in, registers_of};
ghost use Rattle.pv_tree.specs.Tree.{BlockTree, InstrTree};
ghost use Rattle.std.specs.Prelude.{IfOk, IsOk, List, drop, length, suc, ℕ, ◌+◌, ◌≡◌, ◌≤◌};

use pv_eval::{Target, Trap};
use pv_stl_run::{Going, Instr, Next, Registers, Stop, Turn};
use pv_word::Ty;

/// [`Going::begin`].
pub fn begin(code: &[Instr], bound: u32, turns: &mut [Turn]) -> Result<Going, Stop>
    ensures same { (source : Source) (calls : Calls) (act : Activation) (all : List InstrTree)
        (w : Working)
        → source.bound ≡ bound → HasRanges code.now all
        → ranges_in code.now ≤ length turns.old
        → begun source calls act all w result turns.new
        ≡ run_instructions source calls act all here w }
    ensures registers { IfOk result (λ g. registers_of g.registers ≡ fresh) }
    ensures within { IfOk result (λ g. g.entered ≤ length turns.new) }
    ensures nested { IfOk result (λ g. Nested code.now turns.new g.entered (suc g.at)) }
{
    Going::begin(code, bound, turns)
}

/// [`Going::behind_call`].
pub fn behind_call(
    going: &mut Going,
    code: &[Instr],
    bound: u32,
    turns: &mut [Turn],
) -> Result<bool, Stop>
    requires { going.old.entered ≤ length turns.old }
    ensures same { (source : Source) (calls : Calls) (act : Activation) (all : List InstrTree)
        (w : Working)
        → source.bound ≡ bound → HasRanges code.now all
        → Nested code.now turns.old going.old.entered (suc going.old.at)
        → ranges_in code.now ≤ length turns.old
        → Went result
        (left_of source calls act all turns.new going.new.entered going.new.at w) w.frame
        (resumed source calls act all (entered_of turns.old going.old.entered)
        (run_instructions source calls act (drop (suc going.old.at) all) here w)) }
    ensures registers { registers_of going.new.registers ≡ fresh }
    ensures within { going.new.entered ≤ length turns.new }
    ensures most { Fell result (most_left bound code.now going.new.at turns.new going.new.entered)
        (suc (most_behind bound (drop (suc going.old.at) code.now) + most_in bound code.now
        (entered_of turns.old going.old.entered))) }
    ensures nested { Nested code.now turns.old going.old.entered (suc going.old.at)
        → WhereOn result (Nested code.now turns.new going.new.entered (suc going.new.at)) }
{
    going.behind_call(code, bound, turns)
}

/// [`Going::go`].
pub fn go(
    going: &mut Going,
    code: &[Instr],
    bound: u32,
    targets: &[Target],
    types: &[Ty],
    first: u32,
    turns: &mut [Turn],
    visible: &mut [i64],
    own: &mut [Option<i64>],
    scratch: &mut [i64],
) -> Result<Option<usize>, Stop>
    requires { going.old.entered ≤ length turns.old }
    ensures same { (source : Source) (calls : Calls) (block : BlockTree) (room : ℕ)
        (all : List InstrTree) → source.bound ≡ bound → TypesOf source types.now
        → room ≤ length scratch.old
        → AreInstrs source block targets.now room code.now all
        → Nested code.now turns.old going.old.entered (suc going.old.at)
        → ranges_in code.now ≤ length turns.old
        → going.old.registers.depth ≤ nested_at code.now going.old.at
        → Gone result
        (λ n. UpToCall source block code.now turns.new going.new.entered going.new.at going.new.registers.depth n
        (left_of source calls
        (activation block first) all turns.new going.new.entered going.new.at
        (working going.new.registers (frame_in visible.new own.new)))
        (left_of source calls
        (activation block first) all turns.old going.old.entered going.old.at
        (working going.old.registers (frame_in visible.old own.old))))
        (frame_in visible.new own.new)
        (left_of source calls
        (activation block first) all turns.old going.old.entered going.old.at
        (working going.old.registers (frame_in visible.old own.old))) }
    ensures within { going.new.entered ≤ length turns.new }
    ensures most { UpToMost result
        (suc (most_behind bound (drop (suc going.new.at) code.now)
        + most_in bound code.now (entered_of turns.new going.new.entered)))
        (most_left bound code.now going.old.at turns.old going.old.entered) }
{
    going.go(
        code, bound, targets, types, first, turns, visible, own, scratch,
    )
}

/// [`pv_stl_run::step`].
pub fn step(
    r: &mut Registers,
    instr: &Instr,
    targets: &[Target],
    types: &[Ty],
    first: u32,
    visible: &mut [i64],
    own: &mut [Option<i64>],
    scratch: &mut [i64],
) -> Result<Next, Trap>
    ensures same { (source : Source) (block : BlockTree) (room : ℕ) (i : InstrTree)
        → TypesOf source types.now
        → room ≤ length scratch.old → i.place ≡ instr.now.place → MayDo instr.now.action r.old.depth
        → IsAction source block targets.now room instr.now.action i
        → next_of i result r.new (frame_in visible.new own.new)
        ≡ m.at_word i.place
        (m.effect source (activation block first) i i.op
        (working r.old (frame_in visible.old own.old))) }
    ensures goes { GoesBy instr.now.action result }
    ensures depth { IsOk result → r.new.depth ≤ opened instr.now.action r.old.depth }
{
    pv_stl_run::step(r, instr, targets, types, first, visible, own, scratch)
}
