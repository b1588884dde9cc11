//! Automata without call edges, as machines.
ghost use Rattle.std.specs.Prelude.{◌≡◌};
ghost use Rattle.pv_machine.specs.Machines.{IsLawful};
ghost use Rattle.pv_flow.specs.Machines.{IsInlined, inlined_machine, IsLawful-prop};
ghost use Rattle.pv_flow.specs.AutomatonView.{automaton_of};

use crate::automaton::Automaton;
use crate::count::{stored, taken};
use pv_machine::Machine;

/// An automaton without call edges, with a loop bound.
#[derive(Drop)]
pub struct Inlined {
    pub(crate) automaton: Automaton,
    pub(crate) bound: u32,
    ghost inlined: { IsInlined (automaton_of automaton) bound },
    ghost lawful: { IsLawful (inlined_machine (automaton_of automaton) bound) } by { IsLawful-prop (inlined_machine (automaton_of automaton) bound) },
}

impl Inlined {
    /// The automaton.
    pub fn automaton(&self) -> &Automaton
        ensures { result.now ≡ self.now.automaton }
    {
        &self.automaton
    }

    /// The automaton, which it gives up.
    pub fn into_automaton(self) -> Automaton
        ensures { result ≡ self.automaton }
    {
        self.automaton
    }

    /// How many turns one entry into a loop may take.
    pub fn bound(&self) -> u32
        ensures { result ≡ self.now.bound }
    {
        self.bound
    }
}

impl Machine for Inlined {
    ghost machine = { λ m. inlined_machine (automaton_of m.automaton) m.bound };

    fn state_len(&self) -> usize {
        stored(self.automaton.parts.vars.as_slice())
    }

    fn input_len(&self) -> usize {
        taken(self.automaton.parts.vars.as_slice())
    }

    ghost lawful = { λ m. m.lawful };
}
