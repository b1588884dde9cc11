//! Automata without call edges and loops, as machines.
ghost use Rattle.std.specs.Prelude.{◌≡◌, true, IfSome};
ghost use Rattle.std.proofs.Props.{props};
ghost use Rattle.pv_machine.specs.Machines.{IsLawful};
ghost use Rattle.pv_flow.specs.Machines.{IsAcyclic, IsAttached, acyclic_machine, IsAttached-prop, IsLawful-prop};
ghost use Rattle.pv_flow.specs.Tables.{is_tabled};
ghost use Rattle.pv_flow.specs.AutomatonView.{automaton_of, attached_to, terms_in};

use crate::attached::Attached;
use crate::automaton::Automaton;
use crate::count::{stored, taken};
use pv_machine::Machine;

/// An automaton whose edges lead forward, with what is attached to it.
#[derive(Drop)]
pub struct Acyclic {
    pub(crate) automaton: Automaton,
    pub(crate) attached: Option<Attached>,
    ghost acyclic: { IsAcyclic (automaton_of automaton) },
    ghost fits: { IfSome (attached_to automaton attached) (IsAttached (automaton_of automaton)) } by { Prim.hlevel (props, IsAttached-prop) },
    ghost tabled: { is_tabled (terms_in automaton) attached ≡ true },
    ghost lawful: { IsLawful (acyclic_machine (automaton_of automaton) (attached_to automaton attached)) } by { IsLawful-prop (acyclic_machine (automaton_of automaton) (attached_to automaton attached)) },
}

impl Acyclic {
    ghost use Rattle.std.specs.Prelude.{Option, Some, None, MatchOption};

    /// The automaton.
    pub fn automaton(&self) -> &Automaton
        ensures { result.now ≡ self.now.automaton }
    {
        &self.automaton
    }

    /// The automaton, which it gives up.
    pub fn into_automaton(self) -> Automaton
        ensures { result ≡ self.automaton }
    {
        self.automaton
    }

    /// What is attached to it.
    pub fn attached(&self) -> Option<Attached>
        ensures { result ≡ self.now.attached }
    {
        self.attached
    }
}

impl Machine for Acyclic {
    ghost machine = { λ m. acyclic_machine (automaton_of m.automaton) (attached_to m.automaton m.attached) };

    fn state_len(&self) -> usize {
        stored(self.automaton.parts.vars.as_slice())
    }

    fn input_len(&self) -> usize {
        taken(self.automaton.parts.vars.as_slice())
    }

    ghost lawful = { λ m. m.lawful };
}
