//! What a replay comes to: what was run, what is reported of it, and why it stops before.
ghost use Rattle.std.specs.Prelude.{map};
ghost use Rattle.pv_command_load.specs.Stops.{text_tree};
ghost use Rattle.pv_command_replay.specs.Located.{EndLies, EndLies-prop};

use crate::end::End;
use crate::report::report;
use crate::trace::TraceStop;
use pv_case::PatternKind;
use pv_claims::Trace;
use pv_command_load::{
    HOLDS, HOLDS_NOT, NO_MEMORY, SourceText, Status, Subject, SubjectStop, UNDECIDED,
};
use std::alloc::{AllocError, Global};
use thiserror::Error;

/// What was run, and how that ended.
#[derive(Drop)]
pub struct Ran {
    pub subject: Subject,
    pub trace: Trace,
    pub end: End,
}

/// What a replay reports.
#[derive(Drop)]
pub struct Replayed {
    /// The case's name.
    pub case: String,
    /// The kind of its requirement.
    pub kind: PatternKind,
    /// Its sources in their order; a place's file is the number of one.
    pub sources: Vec<SourceText>,
    pub end: End,
    /// A place of the end lies in one of the sources.
    pub ghost lies: { EndLies (map text_tree sources.items) end } by { EndLies-prop (map text_tree sources.items) end },
}

/// Why a replay stops before its report, by the stage at which it does.
#[derive(Debug, Drop, Error)]
pub enum ReplayStop {
    #[error(transparent)]
    Subject(SubjectStop),
    #[error(transparent)]
    Trace(TraceStop),
    #[error("out of memory")]
    NoMemory,
}

impl From<AllocError> for ReplayStop {
    ghost use Rattle.std.specs.Prelude.{◌≡◌};
    ghost use Rattle.pv_command_replay.specs.declared.replay.ReplayStop.TheVariants.{NoMemory};

    ghost from_gives = { λ _ stop. stop ≡ NoMemory };

    fn from(_error: AllocError) -> ReplayStop {
        ReplayStop::NoMemory
    }
}

impl From<SubjectStop> for ReplayStop {
    ghost use Rattle.std.specs.Prelude.{◌≡◌};
    ghost use Rattle.pv_command_replay.specs.declared.replay.ReplayStop.TheVariants.{Subject as AtSubject};

    ghost from_gives = { λ stop passed. passed ≡ AtSubject stop };

    fn from(stop: SubjectStop) -> ReplayStop {
        ReplayStop::Subject(stop)
    }
}

impl From<TraceStop> for ReplayStop {
    ghost use Rattle.std.specs.Prelude.{◌≡◌};
    ghost use Rattle.pv_command_replay.specs.declared.replay.ReplayStop.TheVariants.{Trace as AtTrace};

    ghost from_gives = { λ stop passed. passed ≡ AtTrace stop };

    fn from(stop: TraceStop) -> ReplayStop {
        ReplayStop::Trace(stop)
    }
}

impl ReplayStop {
    ghost use Rattle.std.specs.Prelude.{◌≡◌, Some, IfOk, string_bytes};
    ghost use Rattle.pv_command_replay.specs.Replays.{stop_status, stop_text};

    pub fn status(&self) -> Status
        ensures { result ≡ stop_status self.now }
    {
        match self {
            ReplayStop::Subject(stop) => stop.status(),
            ReplayStop::Trace(stop) => stop.status(),
            ReplayStop::NoMemory => NO_MEMORY,
        }
    }

    /// The fault line; an error where memory ends, or ended before.
    pub fn text(&self, alloc: Global) -> Result<String, AllocError>
        ensures { IfOk result (λ text. stop_text self.now ≡ Some (string_bytes text)) }
    {
        match self {
            ReplayStop::Subject(stop) => stop.text(alloc),
            ReplayStop::Trace(stop) => stop.text(alloc),
            ReplayStop::NoMemory => Err(AllocError),
        }
    }
}

impl Replayed {
    ghost use Rattle.std.specs.Prelude.{◌≡◌, Ok, Some, IfOk, string_bytes};
    ghost use Rattle.pv_command_replay.specs.Replays.{replay_status, replay_text};

    pub fn status(&self) -> Status
        ensures { result ≡ replay_status (Ok self.now) }
    {
        match self.end {
            End::Kept { .. } => HOLDS,
            End::Broken { .. } => HOLDS_NOT,
            End::Over { .. } => UNDECIDED,
            End::Reached { .. } => HOLDS,
            End::NotReached { .. } => HOLDS_NOT,
        }
    }

    /// The report.
    pub fn text(&self, alloc: Global) -> Result<String, AllocError>
        ensures { IfOk result (λ text. replay_text (Ok self.now) ≡ Some (string_bytes text)) }
    {
        report(
            alloc,
            &self.case,
            self.kind,
            self.sources.as_slice(),
            self.end,
        )
    }
}

impl Ran {
    ghost use Rattle.std.specs.Prelude.{◌≡◌};

    /// What is reported of it.
    pub fn reported(self) -> Replayed
        requires { EndLies (map text_tree self.subject.sources.items) self.end }
        ensures case { result.case ≡ self.subject.case.name }
        ensures kind { result.kind ≡ self.subject.case.pattern.kind }
        ensures sources { result.sources ≡ self.subject.sources }
        ensures end { result.end ≡ self.end }
    {
        let end = self.end;
        let subject = self.subject;
        let kind = subject.case.pattern.kind;
        let case = subject.case;
        Replayed {
            case: case.name,
            kind,
            sources: subject.sources,
            end,
        }
    }
}
