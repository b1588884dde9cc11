//! Logs: the trait of what can be read as one, and the list of lines.
ghost use Rattle.std.specs.Prelude.{◌≡◌, ℕ, ◌+◌, ◌-◌, ◌^◌, ◌<◌, ◌≤◌, List, [], ◌∷◌, ◌++◌, length, map, Some, slice_get, OnOk, OnErr};
ghost use Rattle.pv_log.specs.declared.line.Line.{Line};

use crate::line::Line;
use std::alloc::{AllocError, Global};
use std::marker::Model;

/// A log that can be read: lines numbered from 1.
pub trait LogView {
    /// The lines in order.
    ghost all_lines: { Self → List Line };

    /// How many lines there are.
    fn lines(&self) -> u32
        ensures { result ≡ length (all_lines self.now) };

    /// The id of line `n`, from 1 to `lines()`.
    fn id(&self, n: u32) -> u32
        requires from_one { 0 < n }
        requires to_last { n ≤ length (all_lines self.now) }
        ensures { slice_get (map (λ line. line.id) (all_lines self.now)) (n - 1) ≡ Some result };

    /// The literals of line `n`, from 1 to `lines()`.
    fn lits(&self, n: u32) -> &[u32]
        requires from_one { 0 < n }
        requires to_last { n ≤ length (all_lines self.now) }
        ensures { slice_get (map (λ line. line.lits) (all_lines self.now)) (n - 1) ≡ Some result.now };

    /// The hints of line `n`, from 1 to `lines()`.
    fn hints(&self, n: u32) -> &[u32]
        requires from_one { 0 < n }
        requires to_last { n ≤ length (all_lines self.now) }
        ensures { slice_get (map (λ line. line.hints) (all_lines self.now)) (n - 1) ≡ Some result.now };
}

/// A list of lines, at most 4,294,967,295.
#[derive(Debug, Drop)]
pub struct Log {
    lines: Vec<Line>,
}

impl Model for Log {
    ghost Value = { List Line };

    ghost view = { λ log. log.lines.items };

    ghost invariant = { λ log. length log.lines.items < 2 ^ 32 };
}

impl Log {
    /// A log without lines.
    pub fn new(alloc: Global) -> Self
        ensures { result ≡ [] }
    {
        Log {
            lines: Vec::new(alloc),
        }
    }

    /// The lines in order.
    pub fn as_slice(&self) -> &[Line]
        ensures value { result.now ≡ self.now }
        ensures few { length self.now < 2 ^ 32 }
    {
        self.lines.as_slice()
    }

    /// Adds a line at the end. Where memory runs out, the line is given up.
    pub fn push(&mut self, line: Line) -> Result<(), AllocError>
        requires { length self.old < 2 ^ 32 - 1 }
        ensures ok { OnOk result (self.new ≡ self.old ++ line ∷ []) }
        ensures err { OnErr result (self.new ≡ self.old) }
    {
        self.lines.push(line)?;
        Ok(())
    }
}

impl LogView for Log {
    ghost all_lines = { λ log. log };

    fn lines(&self) -> u32 {
        self.lines.len() as u32
    }

    fn id(&self, n: u32) -> u32 {
        self.lines[n as usize - 1].id
    }

    fn lits(&self, n: u32) -> &[u32] {
        self.lines[n as usize - 1].lits.as_slice()
    }

    fn hints(&self, n: u32) -> &[u32] {
        self.lines[n as usize - 1].hints.as_slice()
    }
}
