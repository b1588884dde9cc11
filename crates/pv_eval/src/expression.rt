//! Expressions, ready to be evaluated.
ghost use Rattle.std.specs.Prelude.{◌<◌, length};
ghost use Rattle.pv_eval.specs.Order.{AreNodes};
ghost use Rattle.pv_eval.specs.Ops.{AreOps};
ghost use Rattle.pv_eval.specs.OneProof.{AreOps-prop};

use crate::lower::{arg_of, ops_of};
use crate::node::Node;
use crate::op::{Arg, Op};
use crate::room::Room;
use crate::trap::Trap;
use crate::value::{fetched, run};
use std::alloc::{AllocError, Global};

/// An expression: operations, what has its value then, and how many values there must be room for.
#[derive(Drop)]
pub struct Expression {
    pub(crate) ops: Vec<Op>,
    pub(crate) result: Arg,
    pub(crate) count: usize,
    ghost spots: { AreOps ops.items } by { AreOps-prop ops.items },
}

impl Expression {
    ghost use Rattle.std.specs.Prelude.{◌≡◌, ◌≤◌, [], IfOk};
    ghost use Rattle.pv_tree.specs.Tree.{ExprTree, BlockTree};
    ghost use Rattle.pv_mean.specs.Sources.{Source};
    ghost use Rattle.pv_mean.specs.Values.{value};
    ghost use Rattle.pv_eval.specs.Rooms.{frame_of};
    ghost use Rattle.pv_eval.specs.Traps.{tried};
    ghost use Rattle.pv_eval.specs.Means.{Means, activation};
    ghost use Rattle.pv_eval.specs.Ready.{Evaluates};

    /// The expression whose value is that of one of these nodes.
    pub fn of(alloc: Global, nodes: &[Node], result_node: usize) -> Result<Expression, AllocError>
        requires nodes { AreNodes nodes.now }
        requires within { result_node < length nodes.now }
        ensures count { IfOk result (λ x. x.count ≡ length nodes.now) }
        ensures evaluates { (source : Source) (block : BlockTree) (e : ExprTree)
            → Means source block [] nodes.now result_node e
            → IfOk result (λ x. Evaluates source block x e) }
    {
        let ops = ops_of(alloc, nodes)?;
        Ok(Expression {
            ops,
            result: arg_of(nodes, result_node),
            count: nodes.len(),
        })
    }

    /// How many values are taken to evaluate it.
    pub fn len(&self) -> usize
        ensures { result ≡ self.now.count }
    {
        self.count
    }

    /// Its value in a block at work. What `values` holds doesn't matter.
    pub fn value(&self, room: &Room, values: &mut [i64]) -> Result<i64, Trap>
        requires { self.now.count ≤ length values.old }
        ensures { (source : Source) (block : BlockTree) (e : ExprTree)
            → Evaluates source block self.now e
            → tried result ≡ value source (activation block room.now.first) (frame_of room.now) e }
    {
        match run(self.ops.as_slice(), room, values) {
            Ok(()) => Ok(fetched(&self.result, values, room)),
            Err(trap) => Err(trap),
        }
    }
}
