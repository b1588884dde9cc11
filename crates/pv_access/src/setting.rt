//! The set of one variable: a value where all conditions hold, and else what was there.
ghost use Rattle.std.specs.Prelude.{◌∷◌, [], List, IfOk, OnOk};
ghost use Rattle.pv_flow.specs.Terms as terms;
ghost use Rattle.pv_terms.specs.Pushed.{IsTable, IsAt, Puts};
ghost use Rattle.pv_access.specs.Accesses as accesses;
ghost use Rattle.pv_access.specs.Given.{IsWriting};
ghost use Rattle.pv_access.specs.Pushed.{AreAt, Sets};

use crate::access::Writing;
use pv_flow::{Node, Set};
use pv_terms::{TermFault, push_constant, push_select, push_variable};
use pv_word::Ty;

/// The value that is put, by the number of what was there.
pub(crate) fn push_value(
    nodes: &mut Vec<Node>,
    writing: Writing,
    old: u32,
) -> Result<u32, TermFault>
    ensures { (w : accesses.Writing) (t : terms.Term) → IsTable nodes.old.items → IsWriting nodes.old.items writing w
        → IsAt nodes.old.items old t → IfOk result (λ r. Puts nodes.old.items nodes.new.items r (w.value t)) }
{
    match writing {
        Writing::Assign(value) => Ok(value),
        Writing::Where(on, value) => push_select(nodes, Ty::Bool, on, value, old),
    }
}

/// Yes where the condition is true, and else what was there.
fn push_yes_where(nodes: &mut Vec<Node>, on: u32, old: u32) -> Result<u32, TermFault>
    ensures { (s t : terms.Term) → IsTable nodes.old.items → IsAt nodes.old.items on s → IsAt nodes.old.items old t
        → IfOk result (λ r. Puts nodes.old.items nodes.new.items r (accesses.yes_where s t)) }
{
    let yes = push_constant(nodes, Ty::Bool, 1)?;
    push_select(nodes, Ty::Bool, on, yes, old)
}

/// Whether there is a value then, by the number of whether there was one.
fn push_present(nodes: &mut Vec<Node>, writing: Writing, old: u32) -> Result<u32, TermFault>
    ensures { (w : accesses.Writing) (t : terms.Term) → IsTable nodes.old.items → IsWriting nodes.old.items writing w
        → IsAt nodes.old.items old t → IfOk result (λ r. Puts nodes.old.items nodes.new.items r (w.present t)) }
{
    match writing {
        Writing::Assign(_) => push_constant(nodes, Ty::Bool, 1),
        Writing::Where(on, _) => push_yes_where(nodes, on, old),
    }
}

/// The new term where all conditions hold, and else the old one: the last condition stands innermost.
fn push_where_all(
    nodes: &mut Vec<Node>,
    ty: Ty,
    conditions: &[u32],
    new: u32,
    old: u32,
) -> Result<u32, TermFault>
    ensures { (cs : List terms.Term) (s t : terms.Term) → IsTable nodes.old.items
        → AreAt nodes.old.items conditions.now cs → IsAt nodes.old.items new s → IsAt nodes.old.items old t
        → IfOk result (λ r. Puts nodes.old.items nodes.new.items r (accesses.where_all ty cs s t)) }
{
    match conditions.split_first() {
        None => Ok(new),
        Some((c, more)) => {
            let inner = push_where_all(nodes, ty, more, new, old)?;
            push_select(nodes, ty, *c, inner, old)
        }
    }
}

/// The value of a variable, where all conditions hold.
fn push_new_value(
    nodes: &mut Vec<Node>,
    ty: Ty,
    conditions: &[u32],
    variable: u32,
    writing: Writing,
) -> Result<u32, TermFault>
    ensures { (w : accesses.Writing) (cs : List terms.Term) → IsTable nodes.old.items
        → IsWriting nodes.old.items writing w → AreAt nodes.old.items conditions.now cs
        → IfOk result (λ r. Puts nodes.old.items nodes.new.items r (accesses.new_value ty cs variable w)) }
{
    let old = push_variable(nodes, variable)?;
    let new = push_value(nodes, writing, old)?;
    push_where_all(nodes, ty, conditions, new, old)
}

/// Whether there is a value, where all conditions hold.
fn push_new_present(
    nodes: &mut Vec<Node>,
    conditions: &[u32],
    variable: u32,
    writing: Writing,
) -> Result<u32, TermFault>
    ensures { (w : accesses.Writing) (cs : List terms.Term) → IsTable nodes.old.items
        → IsWriting nodes.old.items writing w → AreAt nodes.old.items conditions.now cs
        → IfOk result (λ r. Puts nodes.old.items nodes.new.items r (accesses.new_present cs variable w)) }
{
    let old = push_variable(nodes, variable)?;
    let new = push_present(nodes, writing, old)?;
    push_where_all(nodes, Ty::Bool, conditions, new, old)
}

/// Adds the set of a variable to a term.
pub(crate) fn push_set(
    nodes: &Vec<Node>,
    sets: &mut Vec<Set>,
    variable: u32,
    value: u32,
) -> Result<(), TermFault>
    ensures { (t : terms.Term) → IsTable nodes.now.items → IsAt nodes.now.items value t
        → OnOk result (Sets nodes.now.items nodes.now.items sets.old.items sets.new.items
        (accesses.set_of variable t ∷ [])) }
{
    sets.push(Set { variable, value })?;
    Ok(())
}

/// Sets a variable to a value, where all conditions hold.
pub(crate) fn set_value(
    nodes: &mut Vec<Node>,
    sets: &mut Vec<Set>,
    ty: Ty,
    conditions: &[u32],
    variable: u32,
    writing: Writing,
) -> Result<(), TermFault>
    ensures { (w : accesses.Writing) (cs : List terms.Term) → IsTable nodes.old.items
        → IsWriting nodes.old.items writing w → AreAt nodes.old.items conditions.now cs
        → OnOk result (Sets nodes.old.items nodes.new.items sets.old.items sets.new.items
        (accesses.value_set ty cs variable w ∷ [])) }
{
    let value = push_new_value(nodes, ty, conditions, variable, writing)?;
    push_set(nodes, sets, variable, value)
}

/// Sets whether there is a value, where all conditions hold.
pub(crate) fn set_present(
    nodes: &mut Vec<Node>,
    sets: &mut Vec<Set>,
    conditions: &[u32],
    variable: u32,
    writing: Writing,
) -> Result<(), TermFault>
    ensures { (w : accesses.Writing) (cs : List terms.Term) → IsTable nodes.old.items
        → IsWriting nodes.old.items writing w → AreAt nodes.old.items conditions.now cs
        → OnOk result (Sets nodes.old.items nodes.new.items sets.old.items sets.new.items
        (accesses.present_set cs variable w ∷ [])) }
{
    let value = push_new_present(nodes, conditions, variable, writing)?;
    push_set(nodes, sets, variable, value)
}
