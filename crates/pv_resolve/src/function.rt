//! Standard functions as nodes.
ghost use Rattle.std.specs.Prelude.{◌≡◌, ◌≤◌, length};
ghost use Rattle.pv_resolve.specs.Functions.{arity, one_value, two_value, three_value, function_value, AppliesTo};

use pv_eval::{Node, OneOp, ThreeOp, TwoOp};
use pv_place::Place;
use pv_tree::StdFunction;
use pv_word::Ty;

/// How many arguments a function takes.
pub(crate) fn arity(function: StdFunction) -> usize
    ensures { result ≡ arity function }
{
    match function {
        StdFunction::Convert(..) | StdFunction::Abs => 1,
        StdFunction::Min | StdFunction::Max | StdFunction::Shl | StdFunction::Shr => 2,
        StdFunction::Limit | StdFunction::Sel => 3,
    }
}

fn one(op: OneOp, ty: Ty, numbers: &[usize]) -> Node
    requires { 1 ≤ length numbers.now }
    ensures { AppliesTo numbers.now result (one_value op ty) }
{
    Node::One {
        op,
        ty,
        arg: numbers[0],
    }
}

fn two(op: TwoOp, ty: Ty, place: Place, numbers: &[usize]) -> Node
    requires { 2 ≤ length numbers.now }
    ensures { AppliesTo numbers.now result (two_value op ty place) }
{
    Node::Two {
        op,
        ty,
        place,
        left: numbers[0],
        right: numbers[1],
    }
}

fn three(op: ThreeOp, numbers: &[usize]) -> Node
    requires { 3 ≤ length numbers.now }
    ensures { AppliesTo numbers.now result (three_value op) }
{
    Node::Three {
        op,
        first: numbers[0],
        second: numbers[1],
        third: numbers[2],
    }
}

/// The node of a function of these nodes' values. The type is that of its result.
pub(crate) fn node_of_function(
    function: StdFunction,
    ty: Ty,
    place: Place,
    numbers: &[usize],
) -> Node
    requires { arity function ≤ length numbers.now }
    ensures { AppliesTo numbers.now result (function_value function ty) }
{
    match function {
        StdFunction::Convert(_, to) => one(OneOp::Wrap, to, numbers),
        StdFunction::Abs => one(OneOp::Abs, ty, numbers),
        StdFunction::Min => two(TwoOp::Min, ty, place, numbers),
        StdFunction::Max => two(TwoOp::Max, ty, place, numbers),
        StdFunction::Limit => three(ThreeOp::Limit, numbers),
        StdFunction::Sel => three(ThreeOp::Sel, numbers),
        StdFunction::Shl => two(TwoOp::Shl, ty, place, numbers),
        StdFunction::Shr => two(TwoOp::Shr, ty, place, numbers),
    }
}
