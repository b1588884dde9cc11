//! Lists of numbers.
ghost use Rattle.std.specs.Prelude.{◌≡◌, ℕ, List, [], ◌∷◌, ◌++◌, length, IfOk, OnOk, OnErr};

use std::alloc::{AllocError, Global};
use std::marker::Model;

/// A list of numbers: the literals or the hints of a line.
#[derive(Debug, Drop)]
pub struct Numbers {
    items: Vec<u32>,
}

impl Model for Numbers {
    ghost Value = { List ℕ };

    ghost view = { λ n. n.items.items };
}

impl Numbers {
    /// No numbers.
    pub fn new(alloc: Global) -> Self
        ensures { result ≡ [] }
    {
        Numbers {
            items: Vec::new(alloc),
        }
    }

    /// These numbers.
    pub fn from_slice(alloc: Global, items: &[u32]) -> Result<Self, AllocError>
        ensures { IfOk result (λ n. n ≡ items.now) }
    {
        let items = Vec::from_slice(alloc, items)?;
        Ok(Numbers { items })
    }

    /// These numbers, in the memory that they lie in.
    pub fn from_vec(items: Vec<u32>) -> Self
        ensures { result ≡ items.items }
    {
        Numbers { items }
    }

    /// The numbers in order.
    pub fn as_slice(&self) -> &[u32]
        ensures { result.now ≡ self.now }
    {
        self.items.as_slice()
    }

    /// Adds a number at the end.
    pub fn push(&mut self, number: u32) -> Result<(), AllocError>
        ensures ok { OnOk result (self.new ≡ self.old ++ number ∷ []) }
        ensures err { OnErr result (self.new ≡ self.old) }
    {
        self.items.push(number)?;
        Ok(())
    }
}
