//! The calls of automata.
ghost use Rattle.std.specs.Prelude.{◌≡◌, ◌≤◌, true, length, None, IfOk, IfErr, IfSome, OnOk};
ghost use Rattle.pv_machine.specs.Same.{IsSame};
ghost use Rattle.pv_flow.specs.Faults.{IsFaultless, IsFaultOf};
ghost use Rattle.pv_flow.specs.WellMade.{IsWellMade};
ghost use Rattle.pv_flow.specs.Machines.{IsInlined, IsAcyclic, IsAttached, inlined_machine, acyclic_machine};
ghost use Rattle.pv_flow.specs.View.{parts_of, terms_of};
ghost use Rattle.pv_flow.specs.Tables.{AreTabled, is_tabled};
ghost use Rattle.pv_flow.specs.AutomatonView.{automaton_of, code_of, attached_of, attached_to, terms_in};
ghost use Rattle.pv_flow.specs.MachineView.{acyclic_parts, acyclic_code, attached_in, inlined_parts, inlined_code, bound_of};
ghost use Rattle.pv_copies.specs.Unrolled.{unrolled, unrolled_size};
ghost use Rattle.pv_unroll.specs.declared.fault.TheConstants.{MAX_EDGES};
ghost use Rattle.pv_unroll.specs.Correct.{CanUnroll, IsSizeOf, IsTooLarge, HasTooManyEdges, IsForward, KeepsTables};

use pv_flow::{Acyclic, Attached, Automaton, FlowFault, Inlined, Parts, acyclic, inlined};
use pv_unroll::TooLarge;
use std::alloc::Global;

/// [`pv_flow::build`].
pub fn build(alloc: Global, parts: Parts) -> Result<Automaton, FlowFault>
    requires well_made { IsFaultless (parts_of parts) → IsWellMade (parts_of parts) }
    requires tabled { IsFaultless (parts_of parts) → AreTabled parts }
    ensures ok { IfOk result (λ automaton. automaton_of automaton ≡ parts_of parts) }
    ensures parts { IfOk result (λ automaton. code_of automaton ≡ parts) }
    ensures faultless { IfOk result (λ _. IsFaultless (parts_of parts)) }
    ensures fault { IfErr result (IsFaultOf (parts_of parts)) }
{
    pv_flow::build(alloc, parts)
}

/// The bound with which the automaton becomes a machine.
pub fn bound_of(automaton: Automaton, bound: u32) -> u32
    requires { IsInlined (automaton_of automaton) bound }
    ensures { result ≡ bound }
{
    let machine = inlined(automaton, bound);
    machine.bound()
}

/// What the automaton has attached as a machine.
pub fn attached_to(automaton: Automaton, attached: Option<Attached>) -> Option<Attached>
    requires acyclic { IsAcyclic (automaton_of automaton) }
    requires fits { IfSome (attached_to automaton attached) (IsAttached (automaton_of automaton)) }
    requires tabled { is_tabled (terms_in automaton) attached ≡ true }
    ensures { result ≡ attached }
{
    let machine = acyclic(automaton, attached);
    machine.attached()
}

/// The machine of these parts with what is attached to them, by terms of their table: it is the automaton's table too.
pub fn attach(alloc: Global, parts: Parts, attached: Option<Attached>) -> Result<Acyclic, FlowFault>
    requires well_made { IsFaultless (parts_of parts) → IsWellMade (parts_of parts) }
    requires tabled { IsFaultless (parts_of parts) → AreTabled parts }
    requires acyclic { IsAcyclic (parts_of parts) }
    requires fits { IfSome (attached_of (terms_of parts.nodes.items) attached) (IsAttached (parts_of parts)) }
    requires terms { is_tabled (length parts.nodes.items) attached ≡ true }
    ensures { IfOk result (λ machine. acyclic_parts machine ≡ parts_of parts) }
{
    let automaton = build(alloc, parts)?;
    Ok(acyclic(automaton, attached))
}

/// [`pv_unroll::unrolled_size`].
pub fn unrolled_size(alloc: Global, from: &Inlined) -> Result<u64, TooLarge>
    ensures size { IfOk result (IsSizeOf (inlined_parts from.now) (bound_of from.now)) }
    ensures large { IfErr result (HasTooManyEdges (inlined_parts from.now) (bound_of from.now)) }
{
    pv_unroll::unrolled_size(alloc, from)
}

/// [`pv_unroll::copy_loops`].
pub fn copy_loops(alloc: Global, parts: Parts, bound: u32) -> Result<Parts, TooLarge>
    ensures copies { CanUnroll parts bound → IfOk result (λ made. parts_of made ≡ unrolled (parts_of parts) bound) }
    ensures forward { CanUnroll parts bound → IfOk result IsForward }
    ensures tables { IfOk result (KeepsTables parts) }
    ensures fits { CanUnroll parts bound → OnOk result (unrolled_size (parts_of parts) bound ≤ MAX_EDGES) }
    ensures large { CanUnroll parts bound → IfErr result (IsTooLarge (parts_of parts) bound) }
{
    pv_unroll::copy_loops(alloc, parts, bound)
}

/// [`pv_unroll::unroll`].
pub fn unroll(alloc: Global, from: Inlined) -> Result<Acyclic, TooLarge>
    ensures copies { IfOk result (λ m. acyclic_parts m ≡ unrolled (inlined_parts from) (bound_of from)) }
    ensures tables { IfOk result (λ m. KeepsTables (inlined_code from) (acyclic_code m)) }
    ensures bare { IfOk result (λ m. attached_in m ≡ None) }
    ensures same { IfOk result (λ m. IsSame (acyclic_machine (acyclic_parts m) (attached_in m)) (inlined_machine (inlined_parts from) (bound_of from))) }
    ensures fits { OnOk result (unrolled_size (inlined_parts from) (bound_of from) ≤ MAX_EDGES) }
    ensures large { IfErr result (IsTooLarge (inlined_parts from) (bound_of from)) }
{
    pv_unroll::unroll(alloc, from)
}
