//! How the bits of a state begin a run.
ghost use Rattle.std.specs.Prelude.{◌≡◌, [], ◌∷◌, ◌++◌, OnOk, OnErr};

use std::alloc::{AllocError, Global};
use std::marker::Model;

/// What a bit of the state is in the states with which runs begin. A query has one for each bit of
/// `state_in`.
#[derive(Clone, Copy, Debug, PartialEq, Eq)]
pub enum Start {
    /// A bit of a bound parameter: it has this value in every state.
    Fixed(bool),
    /// Each run begins with this value, which scans then change.
    Begins(bool),
    /// A bit of a free parameter: a run begins with any value, and keeps it.
    Free,
}

/// How the bits of a state begin, one after another.
#[derive(Drop)]
pub struct Starts {
    items: Vec<Start>,
}

impl Model for Starts {
    ghost use Rattle.std.specs.Prelude.{List};
    ghost use Rattle.pv_circuit.specs.declared.start.Start.{Start as A_start};

    ghost Value = { List A_start };

    ghost view = { λ s. s.items.items };
}

impl Starts {
    /// No bits.
    pub fn new(alloc: Global) -> Self
        ensures { result ≡ [] }
    {
        Starts {
            items: Vec::new(alloc),
        }
    }

    /// How they begin, in order.
    pub fn as_slice(&self) -> &[Start]
        ensures { result.now ≡ self.now }
    {
        self.items.as_slice()
    }

    /// Adds a bit at the end.
    pub fn push(&mut self, start: Start) -> Result<(), AllocError>
        ensures ok { OnOk result (self.new ≡ self.old ++ start ∷ []) }
        ensures err { OnErr result (self.new ≡ self.old) }
    {
        self.items.push(start)?;
        Ok(())
    }
}
