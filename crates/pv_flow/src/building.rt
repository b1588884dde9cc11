//! Automata from their parts.
ghost use Rattle.std.specs.Prelude.{◌≡◌, IfOk, IfErr, OnOk};
ghost use Rattle.pv_flow.specs.Faults.{IsFaultless, IsFaultOf};
ghost use Rattle.pv_flow.specs.WellMade.{IsWellMade};
ghost use Rattle.pv_flow.specs.View.{parts_of};
ghost use Rattle.pv_flow.specs.Tables.{AreTabled};
ghost use Rattle.pv_flow.specs.AutomatonView.{automaton_of, code_of};

use crate::automaton::Automaton;
use crate::fault::FlowFault;
use crate::locations::has_locations;
use crate::loops::has_loops;
use crate::parts::Parts;
use crate::variables::has_variables;
use std::alloc::Global;

/// The first fault of the parts.
fn look(alloc: Global, parts: &Parts) -> Result<(), FlowFault>
    requires { IsFaultless (parts_of parts.now) → IsWellMade (parts_of parts.now) }
    ensures ok { OnOk result (IsFaultless (parts_of parts.now)) }
    ensures fault { IfErr result (IsFaultOf (parts_of parts.now)) }
{
    if !has_locations(parts) {
        return Err(FlowFault::BadLocation);
    }
    if !has_variables(alloc, parts)? {
        return Err(FlowFault::BadVariable);
    }
    if !has_loops(alloc, parts)? {
        return Err(FlowFault::BadLoop);
    }
    Ok(())
}

/// The automaton of these parts, or their first fault. If they have none, they are well made, and the numbers within their tables name
/// something. It takes time by the numbers of nodes, sets, locations, edges and loops.
pub fn build(alloc: Global, parts: Parts) -> Result<Automaton, FlowFault>
    requires well_made { IsFaultless (parts_of parts) → IsWellMade (parts_of parts) }
    requires tabled { IsFaultless (parts_of parts) → AreTabled parts }
    ensures ok { IfOk result (λ automaton. automaton_of automaton ≡ parts_of parts) }
    ensures parts { IfOk result (λ automaton. code_of automaton ≡ parts) }
    ensures faultless { IfOk result (λ _. IsFaultless (parts_of parts)) }
    ensures fault { IfErr result (IsFaultOf (parts_of parts)) }
{
    match look(alloc, &parts) {
        Ok(()) => Ok(Automaton { parts }),
        Err(fault) => {
            drop(parts);
            Err(fault)
        }
    }
}
