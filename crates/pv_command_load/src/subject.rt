//! What a command works on, by all its stages up to that.
ghost use Rattle.std.specs.Prelude.{◌≡◌, Some, IfOk, IfErr, MatchResult, string_bytes};
ghost use Rattle.pv_case.specs.Cases.{CaseData};
ghost use Rattle.pv_command_load.specs.Held.{Counts, IsUnread};
ghost use Rattle.pv_command_load.specs.Subjects.{SubjectData};
ghost use Rattle.pv_command_load.specs.Reads.{Reads};
ghost use Rattle.pv_command_load.specs.Stops.{StopsSubject, subject_status, subject_unread, subject_text};
ghost use Rattle.pv_command_load.specs.Made.{IsCase, IsSubject};
ghost use Rattle.pv_command_load.specs.declared.subject.SubjectStop.TheVariants.{Case as AtCase, Source as AtSource, Project as AtProject, Table as AtTable, Fit as AtFit};

use crate::case::{CaseStop, case_in};
use crate::fit::{FitStop, fitted};
use crate::position::SourceText;
use crate::project::{ProjectStop, project_of};
use crate::source::SourceStop;
use crate::sources::sources_in;
use crate::status::Status;
use crate::table::{TableStop, table_of};
use pv_case::{Case, Symbol};
use pv_cells::Table;
use pv_edge::Files;
use pv_mean::CaseView;
use pv_mean::laws::views_keep_paths_types_and_starts;
use pv_pattern::Pattern;
use pv_tree::Project;
use std::alloc::{AllocError, Global};
use std::mem;
use thiserror::Error;

/// What a command works on.
#[derive(Drop)]
pub struct Subject {
    /// The case; its symbols are the project's.
    pub case: Case,
    /// The sources in the order of the case; a place's file is the number of one.
    pub sources: Vec<SourceText>,
    pub project: Project,
    /// The table of the entered block, with the case's parameters.
    pub table: Table,
    pub view: CaseView,
    pub pattern: Pattern,
}

/// Why there is nothing that a command works on, by the stage at which it stops.
#[derive(Debug, Drop, Error)]
pub enum SubjectStop {
    #[error(transparent)]
    Case(CaseStop),
    #[error(transparent)]
    Source(SourceStop),
    #[error(transparent)]
    Project(ProjectStop),
    #[error(transparent)]
    Table(TableStop),
    #[error(transparent)]
    Fit(FitStop),
}

impl From<CaseStop> for SubjectStop {
    ghost from_gives = { λ stop passed. passed ≡ AtCase stop };

    fn from(stop: CaseStop) -> SubjectStop {
        SubjectStop::Case(stop)
    }
}

impl From<SourceStop> for SubjectStop {
    ghost from_gives = { λ stop passed. passed ≡ AtSource stop };

    fn from(stop: SourceStop) -> SubjectStop {
        SubjectStop::Source(stop)
    }
}

impl From<ProjectStop> for SubjectStop {
    ghost from_gives = { λ stop passed. passed ≡ AtProject stop };

    fn from(stop: ProjectStop) -> SubjectStop {
        SubjectStop::Project(stop)
    }
}

impl From<TableStop> for SubjectStop {
    ghost from_gives = { λ stop passed. passed ≡ AtTable stop };

    fn from(stop: TableStop) -> SubjectStop {
        SubjectStop::Table(stop)
    }
}

impl From<FitStop> for SubjectStop {
    ghost from_gives = { λ stop passed. passed ≡ AtFit stop };

    fn from(stop: FitStop) -> SubjectStop {
        SubjectStop::Fit(stop)
    }
}

impl SubjectStop {
    pub fn status(&self) -> Status
        ensures { result ≡ subject_status self.now }
    {
        match self {
            SubjectStop::Case(stop) => stop.status(),
            SubjectStop::Source(stop) => stop.status(),
            SubjectStop::Project(stop) => stop.status(),
            SubjectStop::Table(stop) => stop.status(),
            SubjectStop::Fit(stop) => stop.status(),
        }
    }

    /// The fault line; an error where memory ends, or ended before.
    pub fn text(&self, alloc: Global) -> Result<String, AllocError>
        ensures { IfOk result (λ text. subject_text self.now ≡ Some (string_bytes text)) }
    {
        match self {
            SubjectStop::Case(stop) => stop.text(alloc),
            SubjectStop::Source(stop) => stop.text(alloc),
            SubjectStop::Project(stop) => stop.text(alloc),
            SubjectStop::Table(stop) => stop.text(alloc),
            SubjectStop::Fit(stop) => stop.text(alloc),
        }
    }
}

/// Takes the symbols out of a case.
fn take_symbols(alloc: Global, case: &mut Case) -> Vec<Symbol>
    ensures symbols { result.items ≡ case.old.symbols.items }
    ensures rest { (d : CaseData) → IsCase case.old d → IsCase case.new d }
{
    mem::replace(&mut case.symbols, Vec::new(alloc))
}

/// What the case that the file holds is about: the case is read and refused first, then the sources one after the other, then what breaks
/// a rule in them, then the entry, the count of the cells, and what the case says of the cells.
pub fn subject_in<F: Files>(
    alloc: Global,
    files: &mut F,
    case_file: &str,
) -> Result<Subject, SubjectStop>
    ensures files { F.told files.new ≡ F.told files.old }
    ensures found { IfOk result (λ s. (d : SubjectData) × Reads (F.told files.old) case_file.now d × IsSubject s d) }
    ensures stopped { IfErr result (StopsSubject (F.told files.old) case_file.now) }
    ensures counted { MatchResult result
        (λ s. F.read_faults files.new ≡ F.read_faults files.old)
        (λ stop. Counts (subject_status stop) (F.read_faults files.old) (F.read_faults files.new)) }
    ensures named { IfErr result (λ stop. IsUnread (subject_unread stop) (F.unread files.new)) }
    ensures writes { F.write_faults files.new ≡ F.write_faults files.old }
{
    views_keep_paths_types_and_starts();
    let mut case = case_in(alloc, files, case_file)?;
    let sources = sources_in(alloc, files, &case)?;
    let texts = sources.texts;
    let symbols = take_symbols(alloc, &mut case);
    let project = project_of(alloc, texts.as_slice(), sources.blocks, symbols)?;
    let (entry, mut table) = table_of(alloc, &case, &project)?;
    let (view, pattern) = fitted(alloc, &case, &project, entry, &mut table)?;
    Ok(Subject {
        case,
        sources: texts,
        project,
        table,
        view,
        pattern,
    })
}
