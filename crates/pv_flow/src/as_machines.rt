//! Automata as machines.
ghost use Rattle.std.specs.Prelude.{◌≡◌, true, IfSome};
ghost use Rattle.pv_flow.specs.Machines.{IsInlined, IsAcyclic, IsAttached};
ghost use Rattle.pv_flow.specs.Tables.{is_tabled};
ghost use Rattle.pv_flow.specs.AutomatonView.{automaton_of, attached_to, terms_in};

use crate::acyclic_machine::Acyclic;
use crate::attached::Attached;
use crate::automaton::Automaton;
use crate::inlined_machine::Inlined;

/// The machine of an automaton whose loops take so many turns at most.
pub fn inlined(automaton: Automaton, bound: u32) -> Inlined
    requires { IsInlined (automaton_of automaton) bound }
    ensures automaton { result.automaton ≡ automaton }
    ensures bound { result.bound ≡ bound }
{
    Inlined { automaton, bound }
}

/// The machine of an automaton whose edges lead forward, with what is attached to it.
pub fn acyclic(automaton: Automaton, attached: Option<Attached>) -> Acyclic
    requires acyclic { IsAcyclic (automaton_of automaton) }
    requires fits { IfSome (attached_to automaton attached) (IsAttached (automaton_of automaton)) }
    requires tabled { is_tabled (terms_in automaton) attached ≡ true }
    ensures automaton { result.automaton ≡ automaton }
    ensures attached { result.attached ≡ attached }
{
    Acyclic {
        automaton,
        attached,
    }
}
