//! Contract tests of `pv_eval`.
ghost use Rattle.pv_eval.specs.Means.{Means, Names, activation};
ghost use Rattle.pv_eval.specs.Operands.{IsOperand, IsSpot, spot_of};
ghost use Rattle.pv_eval.specs.Order.{AreNodes};
ghost use Rattle.pv_eval.specs.Ready.{Evaluates, Locates};
ghost use Rattle.pv_eval.specs.Rooms.{frame_of};
ghost use Rattle.pv_eval.specs.Traps.{located, tried};
ghost use Rattle.pv_eval.specs.Writes.{TypesOf};
ghost use Rattle.pv_mean.specs.Endings.{got};
ghost use Rattle.pv_mean.specs.Frames.{Frame};
ghost use Rattle.pv_mean.specs.Sources.{Source};
ghost use Rattle.pv_mean.specs.Spots as m;
ghost use Rattle.pv_mean.specs.Spots.{visible};
ghost use Rattle.pv_mean.specs.Values.{locate, value};
ghost use Rattle.pv_tree.specs.Tree.{BlockTree, ExprTree, OperandTree};
ghost use Rattle.std.specs.Prelude.{IfOk, IfSome, [], length, ◌<◌, ◌≡◌, ◌≤◌};

use pv_eval::{Expression, Node, Operand, Room, Spot, Target, Trap};
use pv_word::Ty;
use std::alloc::{AllocError, Global};

/// [`Expression::of`].
pub fn expression_of(
    alloc: Global,
    nodes: &[Node],
    result_node: usize,
) -> Result<Expression, AllocError>
    requires nodes { AreNodes nodes.now }
    requires within { result_node < length nodes.now }
    ensures count { IfOk result (λ x. x.count ≡ length nodes.now) }
    ensures evaluates { (source : Source) (block : BlockTree) (e : ExprTree)
        → Means source block [] nodes.now result_node e
        → IfOk result (λ x. Evaluates source block x e) }
{
    Expression::of(alloc, nodes, result_node)
}

/// [`Expression::value`].
pub fn value(expression: &Expression, room: &Room, values: &mut [i64]) -> Result<i64, Trap>
    requires { expression.now.count ≤ length values.old }
    ensures { (source : Source) (block : BlockTree) (e : ExprTree)
        → Evaluates source block expression.now e
        → tried result ≡ value source (activation block room.now.first) (frame_of room.now) e }
{
    expression.value(room, values)
}

/// [`Target::of`].
pub fn target_of(alloc: Global, nodes: &[Node], operand: Operand) -> Result<Target, AllocError>
    requires nodes { AreNodes nodes.now }
    requires within { IsOperand (length nodes.now) operand }
    ensures count { IfOk result (λ t. t.count ≡ length nodes.now) }
    ensures locates { (source : Source) (block : BlockTree) (o : OperandTree)
        → Names source block [] nodes.now operand o
        → IfOk result (λ t. Locates source block t o) }
{
    Target::of(alloc, nodes, operand)
}

/// [`Target::cell`].
pub fn cell(target: &Target, first: u32) -> Option<usize>
    ensures { (source : Source) (block : BlockTree) (o : OperandTree)
        → Locates source block target.now o
        → IfSome result (λ n. (frame : Frame)
        → locate source (activation block first) frame o ≡ got (visible n)) }
{
    target.cell(first)
}

/// [`Target::locate`].
pub fn locate(target: &Target, room: &Room, values: &mut [i64]) -> Result<Spot, Trap>
    requires { target.now.count ≤ length values.old }
    ensures value { (source : Source) (block : BlockTree) (o : OperandTree)
        → Locates source block target.now o
        → located result ≡ locate source (activation block room.now.first) (frame_of room.now) o }
    ensures spot { IfOk result IsSpot }
{
    target.locate(room, values)
}

/// [`pv_eval::write_spot`].
pub fn write_spot(types: &[Ty], visible: &mut [i64], brief: &mut [Option<i64>], spot: Spot, v: i64)
    requires { IsSpot spot }
    ensures { (source : Source) → TypesOf source types.now
        → m.write_spot source (record { visible = visible.old; brief = brief.old }) (spot_of spot) v
        ≡ record { visible = visible.new; brief = brief.new } }
{
    pv_eval::write_spot(types, visible, brief, spot, v)
}
