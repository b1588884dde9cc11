//! Which operands begin in cells that live within one activation, and so may have no value yet.
ghost use Rattle.std.specs.Prelude.{◌≡◌};
ghost use Rattle.pv_tree.specs.View.{block_tree, operand_tree};
ghost use Rattle.pv_mean.specs.Layout as layout;
ghost use Rattle.pv_names.specs.Entries.{block_of};
ghost use Rattle.pv_names.specs.InScope.{scope_of};
ghost use Rattle.pv_sizes.specs.Checks as checks;

use pv_names::{Entry, Scope, is_const, own_value, quoted_value};
use pv_tree::{Block, BlockKind, Operand, Root};
use pv_types::{Name, Section};

/// Whether the variables of this section live within one activation.
fn is_brief_in(block: &Block, section: Section) -> bool
    ensures { result ≡ layout.is_brief_in (block_tree block.now) section }
{
    match &block.kind {
        BlockKind::Fb => matches!(section, Section::Temp),
        BlockKind::Fc | BlockKind::Ob | BlockKind::Db { .. } | BlockKind::Udt => !is_const(section),
    }
}

/// Whether a word begins a brief cell.
fn is_brief_word(entry: &Entry, name: &Name, hash: bool) -> bool
    ensures { result ≡ checks.is_brief_word (block_of entry.now) name.now.key hash }
{
    match entry.find(name) {
        Some(var) => is_brief_in(entry.block, var.of.section),
        None => own_value(entry.block, name, hash).is_some(),
    }
}

/// Whether an operand begins in a brief cell.
fn is_brief_root(entry: &Entry, root: &Root) -> bool
    ensures { result ≡ checks.is_brief_root (block_of entry.now) root.now }
{
    match root {
        Root::Local { name, hash, .. } => is_brief_word(entry, name, *hash),
        Root::Named(name) => quoted_value(entry.block, name).is_some(),
        Root::Area { .. } => false,
    }
}

/// Whether an operand is a brief cell, or a part of one.
pub(crate) fn is_brief(scope: &Scope, operand: &Operand) -> bool
    ensures { result ≡ checks.is_brief (scope_of scope.now) (operand_tree operand.now) }
{
    is_brief_root(scope.entry, &operand.root)
}
