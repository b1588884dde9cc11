//! One node more for each form of expression, behind the nodes of its parts.
ghost use Rattle.std.specs.Prelude.{◌≡◌, ◌<◌, ◌≤◌, ℕ, List, map, length, All, Some, None, IfOk, IfErr, OnOk};
ghost use Rattle.pv_place.specs.declared.place.Place.{Place as PlaceOf};
ghost use Rattle.pv_tree.specs.Tree.{ExprTree, ExprTrees, OperandTree, BlockTree, read, unary, binary, std};
ghost use Rattle.pv_tree.specs.Things.{place_of_operand};
ghost use Rattle.pv_tree.specs.Types.{Written, literal_of};
ghost use Rattle.pv_mean.specs.Sources.{Source};
ghost use Rattle.pv_mean.specs.Values.{result_type};
ghost use Rattle.pv_eval.specs.declared.node.Node.{Node as NodeOf};
ghost use Rattle.pv_eval.specs.declared.node.Node.TheVariants.{One};
ghost use Rattle.pv_eval.specs.Operands.{IsOperand};
ghost use Rattle.pv_eval.specs.Order.{AreNodes};
ghost use Rattle.pv_eval.specs.Means.{Means, Names};
ghost use Rattle.pv_resolve.specs.declared.fault.ResolveFault.TheVariants.{NoMemory};
ghost use Rattle.pv_resolve.specs.Growing.{Adds, Grows};
ghost use Rattle.pv_resolve.specs.Kinds as kinds;
ghost use Rattle.pv_resolve.specs.Functions.{arity, AreArguments};

use crate::fault::ResolveFault;
use crate::function::node_of_function;
use crate::growing::push;
use pv_eval::{Node, OneOp, Operand, TwoOp};
use pv_place::Place;
use pv_tree::{BinaryOp, StdFunction, UnaryOp};
use pv_word::Ty;

/// The node of a literal of this value.
pub(crate) fn push_literal(nodes: &mut Vec<Node>, v: &i64) -> Result<usize, ResolveFault>
    requires { AreNodes nodes.old.items }
    ensures grows { OnOk result (Grows nodes.old.items nodes.new.items) }
    ensures within { IfOk result (λ n. n < length nodes.new.items) }
    ensures memory { IfErr result (λ e. e ≡ NoMemory) }
    ensures means { (source : Source) (block : BlockTree) (e : ExprTree) (w : Written)
        → literal_of e ≡ Some w → v.now ≡ w.value
        → IfOk result (λ n. Means source block nodes.old.items nodes.new.items n e) }
{
    push(nodes, Node::Constant(*v))
}

/// The node of a read.
pub(crate) fn push_read(
    nodes: &mut Vec<Node>,
    from: Operand,
    place: Place,
) -> Result<usize, ResolveFault>
    requires nodes { AreNodes nodes.old.items }
    requires operand { IsOperand (length nodes.old.items) from }
    ensures grows { OnOk result (Grows nodes.old.items nodes.new.items) }
    ensures within { IfOk result (λ n. n < length nodes.new.items) }
    ensures memory { IfErr result (λ e. e ≡ NoMemory) }
    ensures means { (source : Source) (block : BlockTree) (base : List NodeOf) (e : ExprTree)
        (o : OperandTree) → e ≡ read o → place ≡ place_of_operand o
        → Names source block base nodes.old.items from o
        → IfOk result (λ n. Means source block base nodes.new.items n e) }
{
    push(nodes, Node::Read(from, place))
}

fn push_one(nodes: &mut Vec<Node>, op: OneOp, ty: Ty, arg: usize) -> Result<usize, ResolveFault>
    requires nodes { AreNodes nodes.old.items }
    requires arg { arg < length nodes.old.items }
    ensures adds { IfOk result (Adds nodes.old.items nodes.new.items (One op ty arg)) }
    ensures memory { IfErr result (λ e. e ≡ NoMemory) }
{
    push(nodes, Node::One { op, ty, arg })
}

/// The node of an operator before its operand, which has the value of a node.
pub(crate) fn push_unary(
    nodes: &mut Vec<Node>,
    op: UnaryOp,
    ty: Ty,
    arg: usize,
) -> Result<usize, ResolveFault>
    requires nodes { AreNodes nodes.old.items }
    requires arg { arg < length nodes.old.items }
    ensures grows { OnOk result (Grows nodes.old.items nodes.new.items) }
    ensures within { IfOk result (λ n. n < length nodes.new.items) }
    ensures memory { IfErr result (λ e. e ≡ NoMemory) }
    ensures means { (source : Source) (block : BlockTree) (base : List NodeOf) (e : ExprTree)
        (place : PlaceOf) (inner : ExprTree) → e ≡ unary op place inner → literal_of e ≡ None
        → ty ≡ result_type (record { project = source.project; block = block }) e
        → Means source block base nodes.old.items arg inner
        → IfOk result (λ n. Means source block base nodes.new.items n e) }
{
    match op {
        UnaryOp::Plus => Ok(arg),
        UnaryOp::Minus => push_one(nodes, OneOp::Minus, ty, arg),
        UnaryOp::Not => push_one(nodes, OneOp::Not, ty, arg),
    }
}

fn two_of(op: BinaryOp) -> TwoOp
    ensures { result ≡ kinds.two_of op }
{
    match op {
        BinaryOp::Mul => TwoOp::Mul,
        BinaryOp::Div => TwoOp::Div,
        BinaryOp::Mod => TwoOp::Mod,
        BinaryOp::Add => TwoOp::Add,
        BinaryOp::Sub => TwoOp::Sub,
        BinaryOp::Less => TwoOp::Less,
        BinaryOp::Greater => TwoOp::Greater,
        BinaryOp::LessEqual => TwoOp::LessEqual,
        BinaryOp::GreaterEqual => TwoOp::GreaterEqual,
        BinaryOp::Equal => TwoOp::Equal,
        BinaryOp::NotEqual => TwoOp::NotEqual,
        BinaryOp::And => TwoOp::And,
        BinaryOp::Xor => TwoOp::Xor,
        BinaryOp::Or => TwoOp::Or,
    }
}

/// The node of an operator between its operands, which have the values of two nodes.
pub(crate) fn push_binary(
    nodes: &mut Vec<Node>,
    op: BinaryOp,
    ty: Ty,
    place: Place,
    left: usize,
    right: usize,
) -> Result<usize, ResolveFault>
    requires nodes { AreNodes nodes.old.items }
    requires left { left < length nodes.old.items }
    requires right { right < length nodes.old.items }
    ensures grows { OnOk result (Grows nodes.old.items nodes.new.items) }
    ensures within { IfOk result (λ n. n < length nodes.new.items) }
    ensures memory { IfErr result (λ e. e ≡ NoMemory) }
    ensures means { (source : Source) (block : BlockTree) (base mid : List NodeOf) (e : ExprTree)
        (l r : ExprTree) → e ≡ binary op place l r
        → ty ≡ result_type (record { project = source.project; block = block }) e
        → Means source block base mid left l → Means source block mid nodes.old.items right r
        → IfOk result (λ n. Means source block base nodes.new.items n e) }
{
    push(
        nodes,
        Node::Two {
            op: two_of(op),
            ty,
            place,
            left,
            right,
        },
    )
}

/// The node of a standard function, whose arguments have the values of nodes.
pub(crate) fn push_function(
    nodes: &mut Vec<Node>,
    function: StdFunction,
    ty: Ty,
    place: Place,
    numbers: &[usize],
) -> Result<usize, ResolveFault>
    requires nodes { AreNodes nodes.old.items }
    requires numbers { All (λ k. k < length nodes.old.items) numbers.now }
    requires enough { arity function ≤ length numbers.now }
    ensures grows { OnOk result (Grows nodes.old.items nodes.new.items) }
    ensures within { IfOk result (λ n. n < length nodes.new.items) }
    ensures memory { IfErr result (λ e. e ≡ NoMemory) }
    ensures means { (source : Source) (block : BlockTree) (base : List NodeOf) (e : ExprTree)
        (at : PlaceOf) (args : ExprTrees) → e ≡ std function at args
        → ty ≡ result_type (record { project = source.project; block = block }) e
        → AreArguments source block base nodes.old.items numbers.now args
        → IfOk result (λ n. Means source block base nodes.new.items n e) }
{
    push(nodes, node_of_function(function, ty, place, numbers))
}
