//! The variables of an automaton with copies.
ghost use Rattle.std.specs.Prelude.{◌≡◌, ◌+◌, ◌++◌, IfOk, map, drop};
ghost use Rattle.pv_flow.specs.View.{variable_of, call_edge_of, parts_of};
ghost use Rattle.pv_call_copies.specs.Inlined.{own_variable, added_by_calls, inlined};
ghost use Rattle.pv_inline.specs.Blocks.{blocks_of, blocks_in, codes_in};
ghost use Rattle.pv_inline.specs.Variables.{added_below, variables_at};

use crate::blocks::Blocks;
use pv_flow::{Automaton, CallEdge, Parts, Variable};
use pv_place::Role;
use std::alloc::{AllocError, Global};

/// A called block's own variable, which begins each call with 0.
fn own_variable(v: Variable) -> Variable
    ensures { variable_of result ≡ own_variable (variable_of v) }
{
    Variable {
        ty: v.ty,
        role: Role::Brief,
        start: 0,
        only: None,
    }
}

/// The block's own variables.
#[tactic(auto, using(crate::proofs::Added::drop_capped))]
pub(crate) fn own_of(parts: &Parts) -> &[Variable]
    ensures { result.now ≡ drop (parts.now.bound + parts.now.shared) parts.now.vars.items }
{
    let vars = parts.vars.as_slice();
    let first = (parts.bound as usize + parts.shared as usize).min(vars.len());
    &vars[first..]
}

fn add_own(vars: &mut Vec<Variable>, own: &[Variable]) -> Result<(), AllocError>
    ensures { IfOk result (λ _. map variable_of vars.new.items
        ≡ map variable_of vars.old.items ++ map own_variable (map variable_of own.now)) }
{
    for v in own {
        vars.push(own_variable(*v))?;
    }
    Ok(())
}

/// Adds a block's own variables, and what its calls add, down so many levels.
#[cycle(adding)]
fn add_block(
    vars: &mut Vec<Variable>,
    blocks: &Blocks<'_>,
    levels: usize,
    block: u32,
) -> Result<(), AllocError>
    ensures { IfOk result (λ _. map variable_of vars.new.items
        ≡ map variable_of vars.old.items ++ added_below (blocks_in (codes_in blocks.now)) levels block) }
{
    if levels == 0 {
        return Ok(());
    }
    match blocks.at(block) {
        Some(parts) => {
            let calls = parts.calls.as_slice();
            let own = own_of(parts);
            add_own(vars, own)?;
            add_calls(vars, blocks, levels - 1, calls)
        }
        None => Ok(()),
    }
}

/// Adds what the call edges add.
#[cycle(adding)]
fn add_calls(
    vars: &mut Vec<Variable>,
    blocks: &Blocks<'_>,
    levels: usize,
    calls: &[CallEdge],
) -> Result<(), AllocError>
    ensures { IfOk result (λ _. map variable_of vars.new.items
        ≡ map variable_of vars.old.items ++ added_by_calls (added_below (blocks_in (codes_in blocks.now)) levels) (map call_edge_of calls.now)) }
{
    for call in calls {
        add_block(vars, blocks, levels, call.block)?;
    }
    Ok(())
}

fn add_all(vars: &mut Vec<Variable>, all: &[Variable]) -> Result<(), AllocError>
    ensures { IfOk result (λ _. map variable_of vars.new.items ≡ map variable_of vars.old.items ++ map variable_of all.now) }
{
    for v in all {
        vars.push(*v)?;
    }
    Ok(())
}

/// Adds the entry's variables, and what its calls add.
fn add_entry(vars: &mut Vec<Variable>, blocks: &Blocks<'_>, entry: &Parts) -> Result<(), AllocError>
    ensures { IfOk result (λ _. map variable_of vars.new.items
        ≡ map variable_of vars.old.items ++ (inlined (blocks_in (codes_in blocks.now)) (parts_of entry.now)).vars) }
{
    let calls = entry.calls.as_slice();
    let own = entry.vars.as_slice();
    add_all(vars, own)?;
    add_calls(vars, blocks, blocks.count(), calls)
}

/// The variables of block `entry`, and what its calls add; none where there is no such block.
#[tactic(auto, using(crate::proofs::Added::some_named, crate::proofs::Added::none_named))]
pub(crate) fn all_variables(
    alloc: Global,
    blocks: &Blocks<'_>,
    entry: u32,
) -> Result<Vec<Variable>, AllocError>
    ensures { IfOk result (λ vars. map variable_of vars.items ≡ variables_at (blocks_in (codes_in blocks.now)) entry) }
{
    let mut vars = Vec::new(alloc);
    match blocks.at(entry) {
        Some(parts) => add_entry(&mut vars, blocks, parts)?,
        None => {}
    }
    Ok(vars)
}

/// The variables of the automaton of the block of number `entry` in which each of its calls is a copy of the called block: its own, then those
/// that calls add, call edge by call edge, which are Brief. None where there is no such block.
pub fn inlined_variables(
    alloc: Global,
    blocks: &[Option<Automaton>],
    entry: u32,
) -> Result<Vec<Variable>, AllocError>
    ensures { IfOk result (λ vars. map variable_of vars.items ≡ variables_at (blocks_of blocks.now) entry) }
{
    all_variables(alloc, &Blocks::Automata(blocks), entry)
}
