//! The stage of a replay that reads its trace.
ghost use Rattle.std.specs.Prelude.{◌≡◌, map, IfOk, IfErr, MatchResult, Some, string_bytes};
ghost use Rattle.pv_mean.specs.Sources.{Source};
ghost use Rattle.pv_mean.specs.Frames.{is_free, free_cells, input_cells};
ghost use Rattle.pv_command_load.specs.Held.{Counts, IsUnread};
ghost use Rattle.pv_command_load.specs.Stopped.{stopped_text};
ghost use Rattle.pv_command_replay.specs.Traces.{HoldsTrace, StopsTrace, trace_stopped, trace_line};
ghost use Rattle.pv_command_replay.specs.Passing.{type_bounds, trace_status, trace_unread};
ghost use Rattle.pv_command_replay.specs.declared.trace.TraceStop.TheVariants.{NoMemory};

use pv_claims::{CertFault, Trace};
use pv_command_load::{NO_MEMORY, READ_FAULT, ReadStop, Status, TEXT_REFUSED, read, read_line};
use pv_edge::Files;
use pv_mean::Cell;
use pv_place::Role;
use pv_trace::read_trace;
use pv_word::{greatest, least};
use std::alloc::{AllocError, Global};
use thiserror::Error;

/// Why a replay stops at its trace.
#[derive(Debug, Drop, Error)]
pub enum TraceStop {
    /// Its file can't be read.
    #[error("{file} can't be read")]
    Unread { file: String },
    /// Its file holds no trace of the project: this line, from 1, is the first with which none begins so.
    #[error("no trace has this line {line}")]
    NotATrace { line: u64 },
    #[error("out of memory")]
    NoMemory,
}

impl From<AllocError> for TraceStop {
    ghost from_gives = { λ _ stop. stop ≡ NoMemory };

    fn from(_error: AllocError) -> TraceStop {
        TraceStop::NoMemory
    }
}

impl From<ReadStop> for TraceStop {
    ghost use Rattle.std.specs.Prelude.{◌≡◌};
    ghost use Rattle.pv_command_replay.specs.Passing.{unread_trace};

    ghost from_gives = { λ stop passed. passed ≡ unread_trace stop };

    fn from(stop: ReadStop) -> TraceStop {
        match stop {
            ReadStop::Unread { file } => TraceStop::Unread { file },
            ReadStop::NoMemory => TraceStop::NoMemory,
        }
    }
}

impl From<CertFault> for TraceStop {
    ghost use Rattle.std.specs.Prelude.{◌≡◌};
    ghost use Rattle.pv_command_replay.specs.Passing.{faulty_trace};

    ghost from_gives = { λ fault passed. passed ≡ faulty_trace fault };

    fn from(fault: CertFault) -> TraceStop {
        match fault {
            CertFault::NotACertificate { line } => TraceStop::NotATrace { line },
            CertFault::NoMemory => TraceStop::NoMemory,
        }
    }
}

impl TraceStop {
    pub fn status(&self) -> Status
        ensures { result ≡ trace_status self.now }
    {
        match self {
            TraceStop::Unread { .. } => READ_FAULT,
            TraceStop::NotATrace { .. } => TEXT_REFUSED,
            TraceStop::NoMemory => NO_MEMORY,
        }
    }

    /// The fault line; an error where memory ends, or ended before.
    pub fn text(&self, alloc: Global) -> Result<String, AllocError>
        ensures { IfOk result (λ text. stopped_text trace_line (trace_stopped self.now) ≡ Some (string_bytes text)) }
    {
        match self {
            TraceStop::Unread { file } => read_line(alloc, file),
            TraceStop::NotATrace { line } => format!(in alloc; "plcv: trace: line {line}\n"),
            TraceStop::NoMemory => Err(AllocError),
        }
    }
}

/// The least and the greatest value of a cell's type.
fn range_of(cell: &Cell) -> (i128, i128)
    ensures { result ≡ type_bounds cell.now }
{
    (least(cell.ty), greatest(cell.ty))
}

/// Whether a trace says the cell's value before the first scan: it is a parameter that isn't bound.
fn is_open(cell: &Cell) -> bool
    ensures { result ≡ is_free cell.now.role cell.now.bound }
{
    match cell.role {
        Role::Param => cell.bound.is_none(),
        Role::Input | Role::Kept | Role::Brief => false,
    }
}

fn open_ranges(alloc: Global, cells: &[Cell]) -> Result<Vec<(i128, i128)>, AllocError>
    ensures { IfOk result (λ ranges. ranges.items ≡ map type_bounds (free_cells cells.now)) }
{
    cells
        .iter()
        .filter(|cell| is_open(cell))
        .map(|cell| range_of(cell))
        .collect(alloc)
}

fn input_ranges(alloc: Global, cells: &[Cell]) -> Result<Vec<(i128, i128)>, AllocError>
    ensures { IfOk result (λ ranges. ranges.items ≡ map type_bounds (input_cells cells.now)) }
{
    cells
        .iter()
        .filter(|cell| cell.role.is_input())
        .map(|cell| range_of(cell))
        .collect(alloc)
}

/// The trace that the file holds, of a project with these cells.
pub fn trace_in<F: Files>(
    alloc: Global,
    files: &mut F,
    file: &str,
    cells: &[Cell],
) -> Result<Trace, TraceStop>
    ensures files { F.told files.new ≡ F.told files.old }
    ensures found { IfOk result (λ trace. (source : Source) → source.cells ≡ cells.now
        → HoldsTrace (F.told files.old) file.now source trace) }
    ensures stopped { IfErr result (λ stop. (source : Source) → source.cells ≡ cells.now
        → StopsTrace (F.told files.old) file.now source stop) }
    ensures counted { MatchResult result
        (λ trace. F.read_faults files.new ≡ F.read_faults files.old)
        (λ stop. Counts (trace_status stop) (F.read_faults files.old) (F.read_faults files.new)) }
    ensures named { IfErr result (λ stop. IsUnread (trace_unread stop) (F.unread files.new)) }
    ensures writes { F.write_faults files.new ≡ F.write_faults files.old }
{
    let bytes = read(alloc, files, file)?;
    let params = open_ranges(alloc, cells)?;
    let inputs = input_ranges(alloc, cells)?;
    let trace = read_trace(alloc, &bytes, params.as_slice(), inputs.as_slice())?;
    Ok(trace)
}
