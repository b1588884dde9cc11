//! How a project is made.
ghost use Rattle.std.specs.Prelude.{◌≡◌};
ghost use Rattle.pv_tree.specs.Projects.{project_tree};
ghost use Rattle.pv_tree.specs.Rules.{KeepsRules};

use crate::block::Blocks;
use crate::expr::Operand;
use crate::kept::Project;
use pv_types::Name;
use pv_word::Ty;

/// The project of these blocks and symbols, which break no rule.
pub fn project(blocks: Blocks, symbols: Vec<(Name, Operand, Ty)>) -> Project
    requires { KeepsRules (project_tree blocks.list.items symbols.items) }
    ensures blocks { result.blocks ≡ blocks }
    ensures symbols { result.symbols ≡ symbols }
{
    Project::of(blocks, symbols)
}
