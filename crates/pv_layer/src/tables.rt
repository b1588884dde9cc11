//! Nodes and deeds by their numbers.
ghost use Rattle.std.specs.Prelude.{◌≡◌, ◌+◌, ◌<◌, ◌≤◌, ◌∷◌, [], ◌++◌, length, map, IfOk, OnOk};
ghost use Rattle.pv_layer.specs.Making.{both_node, not_node, way_nodes, deed_seen, plain_deed};

use pv_flow::{BinaryOp, Deed, Node, Set, UnaryOp};
use pv_word::Ty;
use smallvec::SmallVec;
use std::alloc::AllocError;

/// The number of the node, which is put behind the others. There are fewer than 2^32 - 1.
pub(crate) fn add_node(nodes: &mut Vec<Node>, node: Node) -> Result<u32, AllocError>
    requires { length nodes.old.items < 4294967295 }
    ensures number { IfOk result (λ n. n ≡ length nodes.old.items) }
    ensures list { OnOk result (nodes.new.items ≡ nodes.old.items ++ node ∷ []) }
{
    let number = nodes.len() as u32;
    nodes.push(node)?;
    Ok(number)
}

/// Both terms.
pub(crate) fn add_both(nodes: &mut Vec<Node>, one: u32, other: u32) -> Result<u32, AllocError>
    requires { length nodes.old.items < 4294967295 }
    ensures number { IfOk result (λ n. n ≡ length nodes.old.items) }
    ensures list { OnOk result (nodes.new.items ≡ nodes.old.items ++ both_node one other ∷ []) }
{
    add_node(nodes, Node::Binary(BinaryOp::And, Ty::Bool, one, other))
}

/// Not the term.
pub(crate) fn add_not(nodes: &mut Vec<Node>, term: u32) -> Result<u32, AllocError>
    requires { length nodes.old.items < 4294967295 }
    ensures number { IfOk result (λ n. n ≡ length nodes.old.items) }
    ensures list { OnOk result (nodes.new.items ≡ nodes.old.items ++ not_node term ∷ []) }
{
    add_node(nodes, Node::Unary(UnaryOp::Not, Ty::Bool, term))
}

/// The guards of two ways, where these terms are the condition and that no check fails: the number of the first, two before the second.
pub(crate) fn add_fork(nodes: &mut Vec<Node>, condition: u32, none: u32) -> Result<u32, AllocError>
    requires { length nodes.old.items + 3 ≤ 4294967295 }
    ensures number { IfOk result (λ n. n ≡ length nodes.old.items) }
    ensures list { OnOk result (nodes.new.items ≡ nodes.old.items ++ way_nodes (length nodes.old.items) condition none) }
{
    let first = add_both(nodes, condition, none)?;
    let not = add_not(nodes, condition)?;
    let _ = add_both(nodes, not, none)?;
    Ok(first)
}

/// The number of the deed, which is put behind the others.
pub(crate) fn add_deed(
    deeds: &mut Vec<Deed>,
    guard: u32,
    sets: SmallVec<Set, 2>,
) -> Result<u32, AllocError>
    requires { length deeds.old.items < 4294967295 }
    ensures number { IfOk result (λ n. n ≡ length deeds.old.items) }
    ensures list { OnOk result (map deed_seen deeds.new.items ≡ map deed_seen deeds.old.items ++ plain_deed guard sets.items ∷ []) }
    ensures count { OnOk result (length deeds.new.items ≡ length deeds.old.items + 1) }
{
    let number = deeds.len() as u32;
    deeds.push(Deed { guard, sets })?;
    Ok(number)
}
