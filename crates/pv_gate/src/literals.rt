//! Lists of literals.

ghost use Rattle.std.specs.Prelude.{◌≡◌, ◌<◌, ℤ, List, [], ◌∷◌, ◌++◌, length, reverse, slice_set, IfOk, OnOk, OnErr};

use std::alloc::{AllocError, Global};
use std::marker::Model;

/// A list of literals, as a word has them, the least bit first.
#[derive(Debug, Drop)]
pub struct Literals {
    items: Vec<i32>,
}

impl Model for Literals {
    ghost Value = { List ℤ };

    ghost view = { λ l. l.items.items };
}

impl Literals {
    /// No literals.
    pub fn new(alloc: Global) -> Self
        ensures { result ≡ [] }
    {
        Literals {
            items: Vec::new(alloc),
        }
    }

    /// These literals.
    pub fn from_slice(alloc: Global, items: &[i32]) -> Result<Self, AllocError>
        ensures { IfOk result (λ l. l ≡ items.now) }
    {
        let items = Vec::from_slice(alloc, items)?;
        Ok(Literals { items })
    }

    /// The literals in order.
    pub fn as_slice(&self) -> &[i32]
        ensures { result.now ≡ self.now }
    {
        self.items.as_slice()
    }

    /// Adds a literal at the end.
    pub fn push(&mut self, literal: i32) -> Result<(), AllocError>
        ensures ok { OnOk result (self.new ≡ self.old ++ literal ∷ []) }
        ensures err { OnErr result (self.new ≡ self.old) }
    {
        self.items.push(literal)?;
        Ok(())
    }

    /// Adds literals at the end.
    pub fn extend(&mut self, literals: &[i32]) -> Result<(), AllocError>
        ensures ok { OnOk result (self.new ≡ self.old ++ literals.now) }
        ensures err { OnErr result (self.new ≡ self.old) }
    {
        self.items.extend_from_slice(literals)?;
        Ok(())
    }

    /// Turns the order of the literals round.
    pub fn reverse(&mut self)
        ensures { self.new ≡ reverse self.old }
    {
        self.items.reverse();
    }
}
