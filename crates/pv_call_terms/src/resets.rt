//! What an edge into a called block sets: variables that begin the call with 0.
ghost use Rattle.std.specs.Prelude.{◌≡◌, ◌++◌, ◌∷◌, [], IfOk, length};
ghost use Rattle.pv_flow.specs.Calls.{is_brief};
ghost use Rattle.pv_call_terms.specs.Places.{place_of};
ghost use Rattle.pv_call_terms.specs.Resets.{anew, zero_node, set_to, nodes_by, sets_by, reset_nodes, reset_sets};

use crate::numbers::narrow;
use crate::places::Places;
use pv_flow::{Node, Parts, Set, Variable};
use pv_place::Role;
use smallvec::SmallVec;
use std::alloc::{AllocError, Global};

fn is_brief(role: Role) -> bool
    ensures { result ≡ is_brief role }
{
    match role {
        Role::Brief => true,
        Role::Input | Role::Param | Role::Kept => false,
    }
}

/// Whether the variable of number x begins a call with 0, of a block that has so many bound and shared ones.
fn anew(bound: u32, shared: u32, x: usize, role: Role) -> bool
    ensures { result ≡ anew bound shared x role }
{
    let brief = is_brief(role);
    let own = bound as usize + shared as usize;
    !(x < own) || (x < bound as usize && brief)
}

/// The variable at this place becomes 0, by a node of its own.
fn set_zero(
    nodes: &mut Vec<Node>,
    sets: &mut SmallVec<Set, 2>,
    variable: u32,
    v: Variable,
) -> Result<(), AllocError>
    ensures nodes { IfOk result (λ _. nodes.new.items ≡ nodes.old.items ++ zero_node v ∷ []) }
    ensures sets { IfOk result (λ _. sets.new.items ≡ sets.old.items ++ set_to variable (length nodes.old.items) ∷ []) }
{
    let value = narrow(nodes.as_slice().len() as u64);
    nodes.push(Node::Constant(v.ty, 0))?;
    sets.push(Set { variable, value })?;
    Ok(())
}

/// The variable at this place becomes 0, if it begins anew.
fn set_if(
    nodes: &mut Vec<Node>,
    sets: &mut SmallVec<Set, 2>,
    anew: bool,
    variable: u32,
    v: Variable,
) -> Result<(), AllocError>
    ensures nodes { IfOk result (λ _. nodes.new.items ≡ nodes.old.items ++ nodes_by anew v) }
    ensures sets { IfOk result (λ _. sets.new.items ≡ sets.old.items ++ sets_by anew variable (length nodes.old.items)) }
{
    if anew {
        set_zero(nodes, sets, variable, v)
    } else {
        Ok(())
    }
}

/// Puts a constant 0 behind the nodes that are there for each variable of the callee that begins its call anew, and gives the sets of the
/// edge into it; variables lie as the places say.
pub fn add_resets(
    alloc: Global,
    nodes: &mut Vec<Node>,
    places: &Places,
    callee: &Parts,
) -> Result<SmallVec<Set, 2>, AllocError>
    ensures nodes { IfOk result (λ _. nodes.new.items
        ≡ nodes.old.items ++ reset_nodes callee.now.bound callee.now.shared 0 callee.now.vars.items) }
    ensures sets { IfOk result (λ sets. sets.items
        ≡ reset_sets (place_of places.now) callee.now.bound callee.now.shared (length nodes.old.items) 0 callee.now.vars.items) }
{
    let vars = callee.vars.as_slice();
    let mut sets = SmallVec::new(alloc);
    for x in 0..vars.len() {
        let v = vars[x];
        let anew = anew(callee.bound, callee.shared, x, v.role);
        set_if(nodes, &mut sets, anew, places.place(x as u64), v)?;
    }
    Ok(sets)
}
