//! Logs that refute.
ghost use Rattle.std.specs.Prelude.{◌≡◌, ◌+◌, ◌^◌, ◌<◌};
ghost use Rattle.pv_valid.specs.Walk.{refuting_fault};
ghost use Rattle.pv_judge.specs.Steps.{Finds};

use pv_cnf::{ClauseView, Formula};
use pv_log::{Checker, LineFault, Log, Verdict};
use pv_valid::{Fault, Kind};
use std::alloc::Global;

/// A kind of fault at a line.
pub(crate) fn fault_at(line: u64, kind: Kind) -> Fault
    ensures { result ≡ Fault.Line line kind }
{
    Fault::Line { line, kind }
}

/// A line of a log at fault, where the log stands after this line.
pub(crate) fn line_fault(before: u64, line: u32, kind: LineFault) -> Fault
    requires { before + line < 2 ^ 64 }
    ensures { result ≡ Fault.Line (before + line) (Kind.Line kind) }
{
    fault_at(before + line as u64, Kind::Line(kind))
}

/// A log that refutes the formula, whose number of lines stands in this line.
pub(crate) fn refute(alloc: Global, formula: &Formula, at: u64, log: &Log) -> Result<(), Fault>
    requires few { formula.now.variables < 2 ^ 31 }
    requires line { at < 2 ^ 62 }
    ensures { Finds (refuting_fault formula.now at log.now) result }
{
    let mut checker = Checker::make(alloc, formula.variables())?;
    match checker.check(formula, log) {
        Verdict::Accepted => Ok(()),
        Verdict::NoEmpty => Err(fault_at(at, Kind::NoEmpty)),
        Verdict::Refused { line, kind } => Err(line_fault(at, line, kind)),
    }
}
