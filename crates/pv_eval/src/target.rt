//! What is assigned, ready to be located.
ghost use Rattle.std.specs.Prelude.{length};
ghost use Rattle.pv_eval.specs.Operands.{IsOperand};
ghost use Rattle.pv_eval.specs.Order.{AreNodes};
ghost use Rattle.pv_eval.specs.Ops.{IsAccess, AreOps};
ghost use Rattle.pv_eval.specs.OneProof.{AreOps-prop, IsAccess-prop};

use crate::lower::{access_of, ops_of};
use crate::node::{Node, Operand, Spot};
use crate::op::{Access, Op};
use crate::room::Room;
use crate::trap::Trap;
use crate::value::{accessed, cell_of, run};
use std::alloc::{AllocError, Global};

/// An operand: the operations of its indexes, what it is by their values, and how many values there must be room for.
#[derive(Drop)]
pub struct Target {
    pub(crate) ops: Vec<Op>,
    pub(crate) access: Access,
    pub(crate) count: usize,
    ghost spots: { AreOps ops.items } by { AreOps-prop ops.items },
    ghost spot: { IsAccess access } by { IsAccess-prop access },
}

impl Target {
    ghost use Rattle.std.specs.Prelude.{◌≡◌, ◌≤◌, [], IfOk, IfSome};
    ghost use Rattle.pv_mean.specs.Frames.{Frame};
    ghost use Rattle.pv_mean.specs.Endings.{got};
    ghost use Rattle.pv_mean.specs.Spots.{visible};
    ghost use Rattle.pv_tree.specs.Tree.{OperandTree, BlockTree};
    ghost use Rattle.pv_mean.specs.Sources.{Source};
    ghost use Rattle.pv_mean.specs.Values.{locate};
    ghost use Rattle.pv_eval.specs.Rooms.{frame_of};
    ghost use Rattle.pv_eval.specs.Traps.{located};
    ghost use Rattle.pv_eval.specs.Operands.{IsSpot};
    ghost use Rattle.pv_eval.specs.Means.{Names, activation};
    ghost use Rattle.pv_eval.specs.Ready.{Locates};

    /// The target that an operand is by the values of these nodes.
    pub fn of(alloc: Global, nodes: &[Node], operand: Operand) -> Result<Target, AllocError>
        requires nodes { AreNodes nodes.now }
        requires within { IsOperand (length nodes.now) operand }
        ensures count { IfOk result (λ t. t.count ≡ length nodes.now) }
        ensures locates { (source : Source) (block : BlockTree) (o : OperandTree)
            → Names source block [] nodes.now operand o
            → IfOk result (λ t. Locates source block t o) }
    {
        let ops = ops_of(alloc, nodes)?;
        Ok(Target {
            ops,
            access: access_of(nodes, operand),
            count: nodes.len(),
        })
    }

    /// How many values are taken to locate it.
    pub fn len(&self) -> usize
        ensures { result ≡ self.now.count }
    {
        self.count
    }

    /// The visible cell that it names where no index has a say, in a block whose instance begins at the first one.
    pub fn cell(&self, first: u32) -> Option<usize>
        ensures { (source : Source) (block : BlockTree) (o : OperandTree)
            → Locates source block self.now o
            → IfSome result (λ n. (frame : Frame)
            → locate source (activation block first) frame o ≡ got (visible n)) }
    {
        if self.ops.as_slice().is_empty() {
            cell_of(&self.access, first)
        } else {
            None
        }
    }

    /// The spot that it names in a block at work. What `values` holds doesn't matter.
    pub fn locate(&self, room: &Room, values: &mut [i64]) -> Result<Spot, Trap>
        requires { self.now.count ≤ length values.old }
        ensures value { (source : Source) (block : BlockTree) (o : OperandTree)
            → Locates source block self.now o
            → located result ≡ locate source (activation block room.now.first) (frame_of room.now) o }
        ensures spot { IfOk result IsSpot }
    {
        match run(self.ops.as_slice(), room, values) {
            Ok(()) => Ok(accessed(&self.access, values, room)),
            Err(trap) => Err(trap),
        }
    }
}
