//! The fourth stage of a command: the block that its case enters, and the cells.
ghost use Rattle.std.specs.Prelude.{◌≡◌, ◌^◌, ◌<◌, ◌≤◌, length, Some, All, IfOk, IfErr, string_bytes};
ghost use Rattle.pv_lex.specs.declared.lex.TheConstants.{MAX_SOURCE};
ghost use Rattle.pv_command_load.specs.Refusals.{table_status, table_line};
ghost use Rattle.pv_command_load.specs.Subjects.{Given, Entered};
ghost use Rattle.pv_command_load.specs.Stopped.{stopped_status, stopped_text};
ghost use Rattle.pv_command_load.specs.Stops.{table_stopped, StopsTable};
ghost use Rattle.pv_command_load.specs.Made.{IsCase, IsProjectOf, IsTableOf};
ghost use Rattle.pv_command_load.specs.declared.table.TableStop.TheVariants.{NoMemory};

use crate::case::case_line;
use crate::status::{CASE_REFUSED, NO_MEMORY, SOURCE_REFUSED, Status};
use pv_case::Case;
use pv_case_fit::{EntryFault, entry_of};
use pv_cells::{CellFault, Table};
use pv_pattern_read::named_in;
use pv_tree::Project;
use std::alloc::{AllocError, Global};
use thiserror::Error;

/// Why a command stops at the cells.
#[derive(Clone, Copy, Debug, PartialEq, Eq, Drop, Error)]
pub enum TableStop {
    /// The case's entry names no function block and no organization block.
    #[error("the entry names no block that may be entered")]
    NoEntry,
    /// The project has more than [`pv_types::MAX_LEAVES`] cells.
    #[error("the project has too many cells")]
    TooLarge,
    #[error("out of memory")]
    NoMemory,
}

impl From<AllocError> for TableStop {
    ghost from_gives = { λ _ stop. stop ≡ NoMemory };

    fn from(_error: AllocError) -> TableStop {
        TableStop::NoMemory
    }
}

impl From<EntryFault> for TableStop {
    ghost use Rattle.std.specs.Prelude.{◌≡◌};
    ghost use Rattle.pv_command_load.specs.Faults.{of_entry};

    ghost from_gives = { λ fault stop. stop ≡ of_entry fault };

    fn from(fault: EntryFault) -> TableStop {
        match fault {
            EntryFault::NoEntry => TableStop::NoEntry,
            EntryFault::NoMemory => TableStop::NoMemory,
        }
    }
}

impl From<CellFault> for TableStop {
    ghost use Rattle.std.specs.Prelude.{◌≡◌};
    ghost use Rattle.pv_command_load.specs.Faults.{of_cells};

    ghost from_gives = { λ fault stop. stop ≡ of_cells fault };

    fn from(fault: CellFault) -> TableStop {
        match fault {
            CellFault::TooLarge => TableStop::TooLarge,
            CellFault::NoMemory => TableStop::NoMemory,
        }
    }
}

impl TableStop {
    pub fn status(&self) -> Status
        ensures { result ≡ stopped_status table_status (table_stopped self.now) }
    {
        match self {
            TableStop::NoEntry => CASE_REFUSED,
            TableStop::TooLarge => SOURCE_REFUSED,
            TableStop::NoMemory => NO_MEMORY,
        }
    }

    /// The fault line; an error where memory ends, or ended before.
    pub fn text(&self, alloc: Global) -> Result<String, AllocError>
        ensures { IfOk result (λ text. stopped_text table_line (table_stopped self.now) ≡ Some (string_bytes text)) }
    {
        match self {
            TableStop::NoEntry => case_line(alloc, "NoEntry", "entry"),
            TableStop::TooLarge => String::from_str(alloc, "plcv: TooLarge cells 20000\n"),
            TableStop::NoMemory => Err(AllocError),
        }
    }
}

/// The number of the block that the case enters, and the table of the project there. The bytes that the texts of the requirement name have
/// cells, of those texts that read.
pub fn table_of(alloc: Global, case: &Case, project: &Project) -> Result<(u32, Table), TableStop>
    requires short { All (λ t. length (string_bytes t) ≤ MAX_SOURCE) case.now.pattern.expressions.items }
    requires few { length project.now.blocks.list.items < 2 ^ 32 }
    ensures found { (given : Given) → IsCase case.now given.case → IsProjectOf given project.now
        → IfOk result (λ made. (entered : Entered) × IsTableOf given entered made.0 made.1) }
    ensures stopped { (given : Given) → IsCase case.now given.case → IsProjectOf given project.now
        → IfErr result (StopsTable given) }
{
    let entry = entry_of(alloc, project.blocks(), case.entry.as_str())?;
    let named = named_in(alloc, case.pattern.expressions.as_slice())?;
    let table = Table::of(alloc, project, entry, named.as_slice())?;
    Ok((entry, table))
}
