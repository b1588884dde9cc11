//! Values and targets of a program in a frame.
ghost use Rattle.std.specs.Prelude.{◌≡◌, ◌≤◌, ℕ, length, IfOk, IfSome};
ghost use Rattle.pv_mean.specs.Frames.{Frame};
ghost use Rattle.pv_mean.specs.Spots as m;
ghost use Rattle.pv_tree.specs.Tree.{ExprTree, OperandTree, BlockTree};
ghost use Rattle.pv_mean.specs.Sources.{Source};
ghost use Rattle.pv_mean.specs.Endings.{got, end_of};
ghost use Rattle.pv_mean.specs.Values.{value, locate};
ghost use Rattle.pv_mean.specs.Statements.{store};
ghost use Rattle.pv_eval.specs.Means.{activation};
ghost use Rattle.pv_eval.specs.Operands.{IsSpot};
ghost use Rattle.pv_eval.specs.Writes.{TypesOf};
ghost use Rattle.pv_run.specs.Code.{IsValue, IsTarget};
ghost use Rattle.pv_run.specs.Ends.{value_of, spot_end, ending_of};
ghost use Rattle.pv_run.specs.Runs.{frame_in, Tests, RunsStmt};
ghost use Rattle.pv_run.specs.declared.program.Stmt.TheVariants.{Assign};

use crate::program::{At, Program};
use crate::stop::{Flow, Stop};
use pv_eval::{Room, Spot, write_spot};

impl Program {
    /// The value of this number.
    pub(crate) fn value(
        &self,
        n: usize,
        first: u32,
        visible: &[i64],
        brief: &[Option<i64>],
        scratch: &mut [i64],
    ) -> Result<i64, Stop>
        requires { self.now.scratch ≤ length scratch.old }
        ensures { (source : Source) (block : BlockTree) (e : ExprTree) → IsValue source block self.now n e
            → value_of result ≡ end_of (value source (activation block first) (frame_in visible.now brief.now) e) }
    {
        let Some(expression) = self.values.get(n) else {
            return Ok(0);
        };
        if expression.len() > scratch.len() {
            return Ok(0);
        }
        let room = Room {
            first,
            visible,
            brief,
        };
        match expression.value(&room, scratch) {
            Ok(v) => Ok(v),
            Err(trap) => Err(Stop::Trap(trap)),
        }
    }

    /// The spot of the target of this number.
    pub(crate) fn locate(
        &self,
        n: usize,
        first: u32,
        visible: &[i64],
        brief: &[Option<i64>],
        scratch: &mut [i64],
    ) -> Result<Spot, Stop>
        requires { self.now.scratch ≤ length scratch.old }
        ensures value { (source : Source) (block : BlockTree) (o : OperandTree) → IsTarget source block self.now n o
            → spot_end result ≡ end_of (locate source (activation block first) (frame_in visible.now brief.now) o) }
        ensures spot { IfOk result IsSpot }
    {
        let Some(target) = self.targets.get(n) else {
            return Ok(Spot::Nowhere);
        };
        if target.len() > scratch.len() {
            return Ok(Spot::Nowhere);
        }
        let room = Room {
            first,
            visible,
            brief,
        };
        match target.locate(&room, scratch) {
            Ok(spot) => Ok(spot),
            Err(trap) => Err(Stop::Trap(trap)),
        }
    }

    /// Whether the condition of this number is true.
    pub(crate) fn holds(
        &self,
        n: usize,
        first: u32,
        visible: &[i64],
        brief: &[Option<i64>],
        scratch: &mut [i64],
    ) -> Result<bool, Stop>
        requires { self.now.scratch ≤ length scratch.old }
        ensures { Tests self.now n first (frame_in visible.now brief.now) result }
    {
        match self.value(n, first, visible, brief, scratch) {
            Ok(v) => Ok(v == 1),
            Err(stop) => Err(stop),
        }
    }

    /// The visible cell that the target of this number is, if it is one whatever the cells hold.
    fn cell(&self, n: usize, first: u32) -> Option<usize>
        ensures { (source : Source) (block : BlockTree) (o : OperandTree) → IsTarget source block self.now n o
            → IfSome result (λ cell. (frame : Frame)
            → locate source (activation block first) frame o ≡ got (m.visible cell)) }
    {
        match self.targets.get(n) {
            Some(target) => target.cell(first),
            None => None,
        }
    }

    /// A value goes to the target of this number.
    pub(crate) fn store(
        &self,
        n: usize,
        v: i64,
        first: u32,
        visible: &mut [i64],
        brief: &mut [Option<i64>],
        scratch: &mut [i64],
    ) -> Result<Flow, Stop>
        requires { self.now.scratch ≤ length scratch.old }
        ensures { (source : Source) (block : BlockTree) (o : OperandTree) → TypesOf source self.now.types.items
            → IsTarget source block self.now n o
            → ending_of result (frame_in visible.new brief.new)
            ≡ store source (activation block first) o (frame_in visible.old brief.old) v }
    {
        if let Some(cell) = self.cell(n, first) {
            write_spot(
                self.types.as_slice(),
                visible,
                brief,
                Spot::Visible(cell),
                v,
            );
            return Ok(Flow::Normal);
        }
        match self.locate(n, first, visible, brief, scratch) {
            Ok(spot) => {
                write_spot(self.types.as_slice(), visible, brief, spot, v);
                Ok(Flow::Normal)
            }
            Err(stop) => Err(stop),
        }
    }

    /// An assignment: the value of one number goes to the target of another.
    pub(crate) fn assign(
        &self,
        value: usize,
        target: usize,
        at: At,
        visible: &mut [i64],
        own: &mut [Option<i64>],
        scratch: &mut [i64],
    ) -> Result<Flow, Stop>
        requires { self.now.scratch ≤ length scratch.old }
        ensures { (k : ℕ) → RunsStmt self.now k (Assign value target) at
            (frame_in visible.old own.old) result (frame_in visible.new own.new) }
    {
        match self.value(value, at.first, visible, own, scratch) {
            Ok(v) => self.store(target, v, at.first, visible, own, scratch),
            Err(stop) => Err(stop),
        }
    }
}
