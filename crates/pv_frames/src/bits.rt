//! Bits of runs: of a state, and of the input of each scan.
ghost use Rattle.std.specs.Prelude.{◌≡◌, List, Bool, [], ◌∷◌, ◌++◌, OnOk, OnErr};

use std::alloc::{AllocError, Global};
use std::marker::Model;

/// Bits in order.
#[derive(Drop)]
pub struct Bits {
    items: Vec<bool>,
}

impl Model for Bits {
    ghost Value = { List Bool };

    ghost view = { λ b. b.items.items };
}

impl Bits {
    /// No bits.
    pub fn new(alloc: Global) -> Self
        ensures { result ≡ [] }
    {
        Bits {
            items: Vec::new(alloc),
        }
    }

    /// The bits in order.
    pub fn as_slice(&self) -> &[bool]
        ensures { result.now ≡ self.now }
    {
        self.items.as_slice()
    }

    /// Adds a bit at the end.
    pub fn push(&mut self, bit: bool) -> Result<(), AllocError>
        ensures ok { OnOk result (self.new ≡ self.old ++ bit ∷ []) }
        ensures err { OnErr result (self.new ≡ self.old) }
    {
        self.items.push(bit)?;
        Ok(())
    }
}

/// The bits of the input at each scan.
#[derive(Drop)]
pub struct ScanBits {
    items: Vec<Bits>,
}

impl Model for ScanBits {
    ghost Value = { List (List Bool) };

    ghost view = { λ s. s.items.items };
}

impl ScanBits {
    /// No scans.
    pub fn new(alloc: Global) -> Self
        ensures { result ≡ [] }
    {
        ScanBits {
            items: Vec::new(alloc),
        }
    }

    /// The scans in order.
    pub fn as_slice(&self) -> &[Bits]
        ensures { result.now ≡ self.now }
    {
        self.items.as_slice()
    }

    /// Adds a scan at the end. Where memory runs out, its bits are given up.
    pub fn push(&mut self, bits: Bits) -> Result<(), AllocError>
        ensures ok { OnOk result (self.new ≡ self.old ++ bits ∷ []) }
        ensures err { OnErr result (self.new ≡ self.old) }
    {
        self.items.push(bits)?;
        Ok(())
    }
}

/// A run of a circuit's bits, in the circuit's order.
#[derive(Drop)]
pub struct BitTrace {
    /// The bits of the state before the first scan.
    pub state: Bits,
    /// Those of each scan's input.
    pub inputs: ScanBits,
}
