//! Projects, which keep the rules.
ghost use Rattle.std.specs.Prelude.{◌≡◌};
ghost use Rattle.pv_tree.specs.Projects.{project_tree};
ghost use Rattle.pv_tree.specs.Rules.{KeepsRules};

use crate::block::Blocks;
use crate::expr::Operand;
use pv_types::Name;
use pv_word::Ty;

/// The blocks of all sources in their order, with the case's symbols, each with its address and its type; together they
/// break none of the rules of the language.
#[derive(Drop)]
pub struct Project {
    blocks: Blocks,
    symbols: Vec<(Name, Operand, Ty)>,
    ghost keeps: { KeepsRules (project_tree blocks.list.items symbols.items) },
}

impl Project {
    /// The project of these blocks and symbols, which break no rule.
    pub(crate) fn of(blocks: Blocks, symbols: Vec<(Name, Operand, Ty)>) -> Project
        requires { KeepsRules (project_tree blocks.list.items symbols.items) }
        ensures blocks { result.blocks ≡ blocks }
        ensures symbols { result.symbols ≡ symbols }
    {
        Project { blocks, symbols }
    }

    /// The blocks, in the order of the sources.
    pub fn blocks(&self) -> &Blocks
        ensures { result.now ≡ self.now.blocks }
    {
        &self.blocks
    }

    /// The symbols: the name, the operand that it stands for, and the type that it is read as.
    pub fn symbols(&self) -> &[(Name, Operand, Ty)]
        ensures { result.now ≡ self.now.symbols.items }
    {
        &self.symbols
    }
}
