//! Why a command stops at what it works on.
ghost use Rattle.std.specs.Prelude.{◌≡◌, Some, IfOk, string_bytes};
ghost use Rattle.pv_command_load.specs.Refusals as refusals;
ghost use Rattle.pv_command_load.specs.declared.subject.SubjectStop.TheVariants as subject_stop;
ghost use Rattle.pv_bool_load.specs.Stops.{first_stop_status, first_stop_text};
ghost use Rattle.pv_bool_load.specs.declared.stop.FirstStop.TheVariants.{Subject as At_subject, NoMemory};

use pv_command_load::{
    CASE_REFUSED, CaseStop, FitStop, NO_MEMORY, ProjectStop, SOURCE_REFUSED, SourceStop, Status,
    SubjectStop, TableStop,
};
use std::alloc::{AllocError, Global};
use thiserror::Error;

/// Why a command stops at what it works on.
#[derive(Debug, Drop, Error)]
pub enum FirstStop {
    /// At a stage that every command has.
    #[error(transparent)]
    Subject(SubjectStop),
    /// The case isn't of the first form, or its requirement isn't.
    #[error("{file} is a case of a form that isn't built")]
    CaseForm { file: String },
    /// The case's source isn't one block of the first form.
    #[error("{file} is a source of a form that isn't built")]
    SourceForm { file: String },
    #[error("out of memory")]
    NoMemory,
}

impl From<AllocError> for FirstStop {
    ghost from_gives = { λ _ stop. stop ≡ NoMemory };

    fn from(_error: AllocError) -> FirstStop {
        FirstStop::NoMemory
    }
}

impl From<CaseStop> for FirstStop {
    ghost from_gives = { λ stop passed. passed ≡ At_subject (subject_stop.Case stop) };

    fn from(stop: CaseStop) -> FirstStop {
        FirstStop::Subject(SubjectStop::Case(stop))
    }
}

impl From<SourceStop> for FirstStop {
    ghost from_gives = { λ stop passed. passed ≡ At_subject (subject_stop.Source stop) };

    fn from(stop: SourceStop) -> FirstStop {
        FirstStop::Subject(SubjectStop::Source(stop))
    }
}

impl From<ProjectStop> for FirstStop {
    ghost from_gives = { λ stop passed. passed ≡ At_subject (subject_stop.Project stop) };

    fn from(stop: ProjectStop) -> FirstStop {
        FirstStop::Subject(SubjectStop::Project(stop))
    }
}

impl From<TableStop> for FirstStop {
    ghost from_gives = { λ stop passed. passed ≡ At_subject (subject_stop.Table stop) };

    fn from(stop: TableStop) -> FirstStop {
        FirstStop::Subject(SubjectStop::Table(stop))
    }
}

impl From<FitStop> for FirstStop {
    ghost from_gives = { λ stop passed. passed ≡ At_subject (subject_stop.Fit stop) };

    fn from(stop: FitStop) -> FirstStop {
        FirstStop::Subject(SubjectStop::Fit(stop))
    }
}

/// The fault line of a file that isn't of the form.
fn form_line(alloc: Global, file: &String) -> Result<String, AllocError>
    ensures { IfOk result (λ text. string_bytes text ≡ refusals.form_line (string_bytes file.now)) }
{
    format!(in alloc; "plcv: form {file}\n")
}

impl FirstStop {
    pub fn status(&self) -> Status
        ensures { result ≡ first_stop_status self.now }
    {
        match self {
            FirstStop::Subject(stop) => stop.status(),
            FirstStop::CaseForm { .. } => CASE_REFUSED,
            FirstStop::SourceForm { .. } => SOURCE_REFUSED,
            FirstStop::NoMemory => NO_MEMORY,
        }
    }

    /// The fault line; an error where memory ends, or ended before.
    pub fn text(&self, alloc: Global) -> Result<String, AllocError>
        ensures { IfOk result (λ text. first_stop_text self.now ≡ Some (string_bytes text)) }
    {
        match self {
            FirstStop::Subject(stop) => stop.text(alloc),
            FirstStop::CaseForm { file } => form_line(alloc, file),
            FirstStop::SourceForm { file } => form_line(alloc, file),
            FirstStop::NoMemory => Err(AllocError),
        }
    }
}
