//! The first stage of a command: its case.
ghost use Rattle.std.specs.Prelude.{◌≡◌, ◌≤◌, length, Some, IfOk, IfErr, MatchResult, string_bytes};
ghost use Rattle.pv_case.specs.declared.case.TheConstants.{MAX_SOURCES};
ghost use Rattle.pv_case.specs.Cases.{data_of};
ghost use Rattle.pv_command_load.specs.Held.{Counts, IsUnread};
ghost use Rattle.pv_command_load.specs.Words.{kind_word};
ghost use Rattle.pv_command_load.specs.Refusals.{first_line, case_line, case_refusal_line};
ghost use Rattle.pv_command_load.specs.Reads.{HoldsCase};
ghost use Rattle.pv_command_load.specs.Stopped.{stopped_text};
ghost use Rattle.pv_command_load.specs.Stops.{StopsCase, case_stopped, case_status, case_unread};
ghost use Rattle.pv_command_load.specs.declared.case.CaseStop.TheVariants.{NoMemory};

use crate::reading::{ReadStop, read, read_line};
use crate::status::{CASE_REFUSED, NO_MEMORY, READ_FAULT, Status};
use pv_case::{Case, CaseFault, Kind};
use pv_edge::Files;
use std::alloc::{AllocError, Global};
use thiserror::Error;

/// Why a command stops at its case.
#[derive(Debug, Drop, Error)]
pub enum CaseStop {
    /// Its file can't be read.
    #[error("{file} can't be read")]
    Unread { file: String },
    /// Its file holds no JSON object.
    #[error("the case is no JSON object")]
    NotJson,
    /// The first rule on cases that is broken, with the member that breaks it.
    #[error("{kind:?} {field}")]
    Broken { kind: Kind, field: String },
    #[error("out of memory")]
    NoMemory,
}

impl From<AllocError> for CaseStop {
    ghost from_gives = { λ _ stop. stop ≡ NoMemory };

    fn from(_error: AllocError) -> CaseStop {
        CaseStop::NoMemory
    }
}

impl From<ReadStop> for CaseStop {
    ghost use Rattle.std.specs.Prelude.{◌≡◌};
    ghost use Rattle.pv_command_load.specs.Passing.{unread_case};

    ghost from_gives = { λ stop passed. passed ≡ unread_case stop };

    fn from(stop: ReadStop) -> CaseStop {
        match stop {
            ReadStop::Unread { file } => CaseStop::Unread { file },
            ReadStop::NoMemory => CaseStop::NoMemory,
        }
    }
}

/// The name of a rule on cases.
fn name_of(kind: Kind) -> &'static str
    ensures { result.now ≡ kind_word kind }
{
    match kind {
        Kind::MissingField => "MissingField",
        Kind::WrongKind => "WrongKind",
        Kind::UnknownField => "UnknownField",
        Kind::OutOfLimit => "OutOfLimit",
        Kind::NoSuchPattern => "NoSuchPattern",
        Kind::CountOfExpressions => "CountOfExpressions",
        Kind::BadSymbol => "BadSymbol",
    }
}

/// A text up to its first line feed, or all of it where it has none.
fn first_line(text: &str) -> &str
    ensures { result.now ≡ first_line text.now }
{
    match text.split_once('\n') {
        Some((line, _behind)) => line,
        None => text,
    }
}

/// The fault line of a rule on cases, with the member that breaks it. Of a name of several lines the first is told, so the line is one.
pub(crate) fn case_line(alloc: Global, rule: &str, field: &str) -> Result<String, AllocError>
    ensures { IfOk result (λ text. string_bytes text ≡ case_line rule.now field.now) }
{
    let field = first_line(field);
    format!(in alloc; "plcv: case: {rule} {field}\n")
}

impl CaseStop {
    pub fn status(&self) -> Status
        ensures { result ≡ case_status self.now }
    {
        match self {
            CaseStop::Unread { .. } => READ_FAULT,
            CaseStop::NotJson => CASE_REFUSED,
            CaseStop::Broken { .. } => CASE_REFUSED,
            CaseStop::NoMemory => NO_MEMORY,
        }
    }

    /// The fault line; an error where memory ends, or ended before.
    pub fn text(&self, alloc: Global) -> Result<String, AllocError>
        ensures { IfOk result (λ text. stopped_text case_refusal_line (case_stopped self.now) ≡ Some (string_bytes text)) }
    {
        match self {
            CaseStop::Unread { file } => read_line(alloc, file),
            CaseStop::NotJson => String::from_str(alloc, "plcv: case: NotJson\n"),
            CaseStop::Broken { kind, field } => case_line(alloc, name_of(*kind), field.as_str()),
            CaseStop::NoMemory => Err(AllocError),
        }
    }
}

/// The case that the file holds.
pub fn case_in<F: Files>(alloc: Global, files: &mut F, file: &str) -> Result<Case, CaseStop>
    ensures files { F.told files.new ≡ F.told files.old }
    ensures found { IfOk result (λ case. HoldsCase (F.told files.old) file.now (data_of case)) }
    ensures few { IfOk result (λ case. length case.sources.items ≤ MAX_SOURCES) }
    ensures stopped { IfErr result (StopsCase (F.told files.old) file.now) }
    ensures counted { MatchResult result
        (λ case. F.read_faults files.new ≡ F.read_faults files.old)
        (λ stop. Counts (case_status stop) (F.read_faults files.old) (F.read_faults files.new)) }
    ensures named { IfErr result (λ stop. IsUnread (case_unread stop) (F.unread files.new)) }
    ensures writes { F.write_faults files.new ≡ F.write_faults files.old }
{
    let bytes = read(alloc, files, file)?;
    match pv_case::read(alloc, &bytes) {
        Ok(case) => Ok(case),
        Err(CaseFault::NotJson) => Err(CaseStop::NotJson),
        Err(CaseFault::Broken { kind, field }) => Err(CaseStop::Broken { kind, field }),
        Err(CaseFault::NoMemory) => Err(CaseStop::NoMemory),
    }
}
