//! What a pattern's text says over the names of a block.
ghost use Rattle.std.specs.Prelude.{◌≡◌, ◌<◌, ◌≤◌, length, map, Some, slice_get};
ghost use Rattle.pv_lex.specs.declared.lex.TheConstants.{MAX_SOURCE};
ghost use Rattle.pv_tree.specs.Tree.{BlockTree};
ghost use Rattle.pv_tree.specs.View.{block_tree};
ghost use Rattle.pv_names.specs.Entries.{block_of};
ghost use Rattle.pv_names.specs.Tables.{blocks_of, project_of};
ghost use Rattle.pv_mean.specs.ProjectSizes.{project_tree};
ghost use Rattle.pv_pattern_read.specs.Answers.{AnswersText};

use pv_names::{Entry, Scope, Tables, entries};
use pv_pattern_read::{TextFault, said};
use pv_tree::{Expr, Project};
use std::alloc::Global;

/// What the text says over the names of the block of this number in the project of these tables.
fn said_over(alloc: Global, tables: &Tables, entry: u32, text: &str) -> Result<Expr, TextFault>
    requires short { length text.now ≤ MAX_SOURCE }
    requires there { entry < length (blocks_of tables.now) }
    ensures { (block : BlockTree) → slice_get (blocks_of tables.now) entry ≡ Some block
        → AnswersText (record { project = project_of tables.now; block = block }) text.now result }
{
    match tables.entries().get(entry as usize) {
        Some(entered) => {
            let scope = Scope {
                tables,
                entry: entered,
            };
            said(&scope, alloc, text)
        }
        None => unreachable!(),
    }
}

/// The same of the project, where each block has its table.
fn said_among(
    alloc: Global,
    list: &[Entry],
    project: &Project,
    entry: u32,
    text: &str,
) -> Result<Expr, TextFault>
    requires short { length text.now ≤ MAX_SOURCE }
    requires there { entry < length project.now.blocks.list.items }
    requires tables { map block_of list.now ≡ map block_tree project.now.blocks.list.items }
    ensures { (block : BlockTree) → slice_get (map block_tree project.now.blocks.list.items) entry ≡ Some block
        → AnswersText (record { project = project_tree project.now; block = block }) text.now result }
{
    let Ok(tables) = Tables::of(alloc, list, project.symbols()) else {
        return Err(TextFault::NoMemory);
    };
    said_over(alloc, &tables, entry, text)
}

/// What the text says over the names of the block of this number, which there is, or its first fault.
pub fn said_at(alloc: Global, project: &Project, entry: u32, text: &str) -> Result<Expr, TextFault>
    requires short { length text.now ≤ MAX_SOURCE }
    requires there { entry < length project.now.blocks.list.items }
    ensures { (block : BlockTree) → slice_get (map block_tree project.now.blocks.list.items) entry ≡ Some block
        → AnswersText (record { project = project_tree project.now; block = block }) text.now result }
{
    let Ok(list) = entries(alloc, project.blocks().list.as_slice()) else {
        return Err(TextFault::NoMemory);
    };
    said_among(alloc, list.as_slice(), project, entry, text)
}
