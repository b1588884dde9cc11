//! Traces: the values that determine a stretch of scans, and how a failing scan ends.
ghost use Rattle.std.specs.Prelude.{◌≡◌, List, ℤ, [], ◌∷◌, ◌++◌, OnOk, OnErr};

use pv_place::{Place, TrapKind};
use std::alloc::{AllocError, Global};
use std::marker::Model;

/// A value of each of some cells, in the order of the cells.
#[derive(Debug, Drop)]
pub struct CellValues {
    items: Vec<i128>,
}

impl Model for CellValues {
    ghost Value = { List ℤ };

    ghost view = { λ v. v.items.items };
}

impl CellValues {
    /// No values.
    pub fn new(alloc: Global) -> Self
        ensures { result ≡ [] }
    {
        CellValues {
            items: Vec::new(alloc),
        }
    }

    /// The values in order.
    pub fn as_slice(&self) -> &[i128]
        ensures { result.now ≡ self.now }
    {
        self.items.as_slice()
    }

    /// Adds a value at the end.
    pub fn push(&mut self, value: i128) -> Result<(), AllocError>
        ensures ok { OnOk result (self.new ≡ self.old ++ value ∷ []) }
        ensures err { OnErr result (self.new ≡ self.old) }
    {
        self.items.push(value)?;
        Ok(())
    }
}

/// The values of the input cells at each scan.
#[derive(Debug, Drop)]
pub struct ScanInputs {
    items: Vec<CellValues>,
}

impl Model for ScanInputs {
    ghost Value = { List (List ℤ) };

    ghost view = { λ s. s.items.items };
}

impl ScanInputs {
    /// No scans.
    pub fn new(alloc: Global) -> Self
        ensures { result ≡ [] }
    {
        ScanInputs {
            items: Vec::new(alloc),
        }
    }

    /// The scans in order.
    pub fn as_slice(&self) -> &[CellValues]
        ensures { result.now ≡ self.now }
    {
        self.items.as_slice()
    }

    /// Adds a scan at the end. Where memory runs out, its values are given up.
    pub fn push(&mut self, inputs: CellValues) -> Result<(), AllocError>
        ensures ok { OnOk result (self.new ≡ self.old ++ inputs ∷ []) }
        ensures err { OnErr result (self.new ≡ self.old) }
    {
        self.items.push(inputs)?;
        Ok(())
    }
}

/// What determines a stretch of scans: where it begins, and its inputs. The text of a trace has no
/// image and no value of the scan before.
#[derive(Debug, Drop)]
pub struct Trace {
    /// The values of the kept and the param cells before the first scan; none where the run begins
    /// at the start.
    pub image: Option<CellValues>,
    /// For a pattern over two scans, whether its first expression was true at the end of the scan
    /// before the image; none where no scan was before, and for other patterns.
    pub prev: Option<bool>,
    /// The values of the unbound params.
    pub params: CellValues,
    /// The inputs of each scan.
    pub inputs: ScanInputs,
}

/// How a failing scan ends.
#[derive(Clone, Copy, Debug, PartialEq, Eq)]
pub enum Ending {
    /// The scan is done, and the pattern fails at its end.
    Pattern,
    /// An operation at this place has no value.
    Trap(TrapKind, Place),
    /// The loop at this place would take more turns than it may.
    Over(Place),
}
