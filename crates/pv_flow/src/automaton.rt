//! Automata.
ghost use Rattle.std.specs.Prelude.{◌≡◌};
ghost use Rattle.pv_flow.specs.Faults.{IsFaultless};
ghost use Rattle.pv_flow.specs.WellMade.{IsWellMade, IsWellMade-prop};
ghost use Rattle.pv_flow.specs.View.{parts_of};
ghost use Rattle.pv_flow.specs.Tables.{AreTabled};

use crate::parts::Parts;

/// An automaton: parts whose numbers name something, also those within their tables, whose loops nest, and that are well made.
#[derive(Drop)]
pub struct Automaton {
    pub(crate) parts: Parts,
    ghost faultless: { IsFaultless (parts_of parts) },
    ghost well_made: { IsWellMade (parts_of parts) } by { IsWellMade-prop (parts_of parts) },
    ghost tabled: { AreTabled parts },
}

impl Automaton {
    ghost use Rattle.pv_flow.specs.Automata.{Parts as Plain_parts};
    ghost use Rattle.pv_flow.specs.AutomatonView.{automaton_of};

    /// Its parts.
    pub fn parts(&self) -> &Parts
        ensures parts { parts_of result.now ≡ automaton_of self.now }
        ensures same { result.now ≡ self.now.parts }
    {
        &self.parts
    }

    /// Its parts, which it gives up.
    pub fn into_parts(self) -> Parts
        ensures { result ≡ self.parts }
    {
        self.parts
    }
}
