//! The fifth stage of a command: what its case says of the project's inputs, and the requirement.
ghost use Rattle.std.specs.Prelude.{◌≡◌, ◌≤◌, length, Some, All, IfOk, IfErr, string_bytes};
ghost use Rattle.pv_types.specs.declared.layout.TheConstants.{MAX_LEAVES};
ghost use Rattle.pv_lex.specs.declared.lex.TheConstants.{MAX_SOURCE};
ghost use Rattle.pv_mean.specs.Cells.{with_view};
ghost use Rattle.pv_mean.specs.ProjectSizes.{project_tree};
ghost use Rattle.pv_cells.specs.Named.{wide_bytes};
ghost use Rattle.pv_pattern.specs.Patterns.{Pattern as Said};
ghost use Rattle.pv_pattern_read.specs.Kinds.{count_of};
ghost use Rattle.pv_pattern_read.specs.Readable.{HasSource};
ghost use Rattle.pv_command_load.specs.Refusals.{expression_name, fit_line};
ghost use Rattle.pv_command_load.specs.Subjects.{Given, Entered};
ghost use Rattle.pv_command_load.specs.Stopped.{stopped_status, stopped_text};
ghost use Rattle.pv_command_load.specs.Stops.{fit_stopped, StopsFit};
ghost use Rattle.pv_command_load.specs.Made.{IsCase, IsProjectOf, IsTableOf, IsFit, view_tree};

use crate::case::case_line;
use crate::status::{CASE_REFUSED, NO_MEMORY, Status};
use pv_case::Case;
use pv_case_fit::{InputFault, view_of};
use pv_cells::Table;
use pv_mean::CaseView;
use pv_pattern::Pattern;
use pv_pattern_read::PatternFault;
use pv_tree::Project;
use std::alloc::{AllocError, Global};
use thiserror::Error;

/// Why a command stops at what its case says of its project. An expression goes by its number, a being 0.
#[derive(Debug, Drop, Error)]
pub enum FitStop {
    /// A path of `params`, or else of `bind`, is no input's.
    #[error("{field} is no input")]
    NotAnInput { field: String },
    /// A bound value isn't one of its input's type, or an earlier one is for the same input.
    #[error("{field} can't be bound so")]
    BoundRange { field: String },
    #[error("expression {expression} reads as none")]
    PatternText { expression: u8 },
    #[error("expression {expression} breaks a rule")]
    PatternRule { expression: u8 },
    #[error("expression {expression} reads a cell that isn't visible")]
    BriefCell { expression: u8 },
    #[error("expression {expression} isn't BOOL")]
    NotBool { expression: u8 },
    #[error("out of memory")]
    NoMemory,
}

impl From<AllocError> for FitStop {
    ghost use Rattle.pv_command_load.specs.declared.fit.FitStop.TheVariants.{NoMemory};

    ghost from_gives = { λ _ stop. stop ≡ NoMemory };

    fn from(_error: AllocError) -> FitStop {
        FitStop::NoMemory
    }
}

impl From<InputFault> for FitStop {
    ghost use Rattle.std.specs.Prelude.{◌≡◌};
    ghost use Rattle.pv_command_load.specs.Faults.{of_input};

    ghost from_gives = { λ fault stop. stop ≡ of_input fault };

    fn from(fault: InputFault) -> FitStop {
        match fault {
            InputFault::NotAnInput { field } => FitStop::NotAnInput { field },
            InputFault::BoundRange { field } => FitStop::BoundRange { field },
            InputFault::NoMemory => FitStop::NoMemory,
        }
    }
}

impl From<PatternFault> for FitStop {
    ghost use Rattle.std.specs.Prelude.{◌≡◌};
    ghost use Rattle.pv_command_load.specs.Faults.{of_pattern};

    ghost from_gives = { λ fault stop. stop ≡ of_pattern fault };

    fn from(fault: PatternFault) -> FitStop {
        match fault {
            PatternFault::Text { expression } => FitStop::PatternText { expression },
            PatternFault::Rule { expression, .. } => FitStop::PatternRule { expression },
            PatternFault::BriefCell { expression } => FitStop::BriefCell { expression },
            PatternFault::NotBool { expression } => FitStop::NotBool { expression },
            PatternFault::NoMemory => FitStop::NoMemory,
        }
    }
}

/// The name of the member that has the expression of this number.
fn member_of(expression: u8) -> &'static str
    ensures { result.now ≡ expression_name expression }
{
    match expression {
        0 => "a",
        1 => "b",
        2 => "c",
        _ => "",
    }
}

impl FitStop {
    pub fn status(&self) -> Status
        ensures { result ≡ stopped_status (λ refusal. 4) (fit_stopped self.now) }
    {
        match self {
            FitStop::NotAnInput { .. } => CASE_REFUSED,
            FitStop::BoundRange { .. } => CASE_REFUSED,
            FitStop::PatternText { .. } => CASE_REFUSED,
            FitStop::PatternRule { .. } => CASE_REFUSED,
            FitStop::BriefCell { .. } => CASE_REFUSED,
            FitStop::NotBool { .. } => CASE_REFUSED,
            FitStop::NoMemory => NO_MEMORY,
        }
    }

    /// The fault line; an error where memory ends, or ended before.
    pub fn text(&self, alloc: Global) -> Result<String, AllocError>
        ensures { IfOk result (λ text. stopped_text fit_line (fit_stopped self.now) ≡ Some (string_bytes text)) }
    {
        match self {
            FitStop::NotAnInput { field } => case_line(alloc, "NotAnInput", field.as_str()),
            FitStop::BoundRange { field } => case_line(alloc, "BoundRange", field.as_str()),
            FitStop::PatternText { expression } => {
                case_line(alloc, "PatternText", member_of(*expression))
            }
            FitStop::PatternRule { expression } => {
                case_line(alloc, "PatternRule", member_of(*expression))
            }
            FitStop::BriefCell { expression } => {
                case_line(alloc, "BriefCell", member_of(*expression))
            }
            FitStop::NotBool { expression } => case_line(alloc, "NotBool", member_of(*expression)),
            FitStop::NoMemory => Err(AllocError),
        }
    }
}

/// What the case says of the cells of its project, and its requirement with the names found. The parameters are put to the table.
pub fn fitted(
    alloc: Global,
    case: &Case,
    project: &Project,
    entry: u32,
    table: &mut Table,
) -> Result<(CaseView, Pattern), FitStop>
    requires count { length case.now.pattern.expressions.items ≡ count_of case.now.pattern.kind }
    requires short { All (λ t. length (string_bytes t) ≤ MAX_SOURCE) case.now.pattern.expressions.items }
    requires entered { HasSource (project_tree project.now) entry (wide_bytes table.old.bytes) }
    requires few { length table.old.cells.items ≤ MAX_LEAVES }
    ensures found { (given : Given) (entered : Entered) → IsCase case.now given.case
        → IsProjectOf given project.now → IsTableOf given entered entry table.old
        → IfOk result (λ made. (p : Said) × IsFit given entered entry made.0 made.1 p) }
    ensures params { IfOk result (λ made. table.new.cells.items ≡ with_view (view_tree made.0) table.old.cells.items) }
    ensures bytes { table.new.bytes ≡ table.old.bytes }
    ensures stopped { (given : Given) (entered : Entered) → IsCase case.now given.case
        → IsProjectOf given project.now → IsTableOf given entered entry table.old
        → IfErr result (StopsFit given entered) }
{
    let view = view_of(alloc, case, entry, table.cells())?;
    let kind = case.pattern.kind;
    let texts = case.pattern.expressions.as_slice();
    let pattern = pv_pattern_read::read(alloc, kind, texts, project, entry, table.bytes())?;
    table.set_params(&view);
    Ok((view, pattern))
}
