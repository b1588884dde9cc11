//! Reads of variables that live for one activation of the entered block.
ghost use Rattle.std.specs.Prelude.{◌≡◌, map, option_map};
ghost use Rattle.std.specs.List.{list_any};
ghost use Rattle.pv_types.specs.View.{var_tree};
ghost use Rattle.pv_tree.specs.View.{block_tree, operand_tree};
ghost use Rattle.pv_names.specs.InScope.{scope_of};
ghost use Rattle.pv_pattern.specs.Texts as texts;

use pv_mean::activation_part;
use pv_names::Scope;
use pv_tree::{Block, Operand, Root};
use pv_types::Var;

/// Whether the block's variable lives for one activation.
fn is_brief_var(block: &Block, var: Option<Var>) -> bool
    ensures { result ≡ texts.is_brief_var (block_tree block.now) (option_map var_tree var.entry) }
{
    match var {
        Some(var) => activation_part(&block.kind).has(var.of.section),
        None => false,
    }
}

fn is_brief_root(scope: &Scope, root: &Root) -> bool
    ensures { result ≡ texts.is_brief_root (scope_of scope.now) root.now }
{
    match root {
        Root::Local { name, .. } => is_brief_var(scope.entry.block(), scope.entry.find(name)),
        Root::Named(_) | Root::Area { .. } => false,
    }
}

fn is_brief_operand(scope: &Scope, operand: &Operand) -> bool
    ensures { result ≡ texts.is_brief_operand (scope_of scope.now) (operand_tree operand.now) }
{
    is_brief_root(scope, &operand.root)
}

/// Whether one of the operands is such a variable or a part of one.
pub(crate) fn one_is_brief(scope: &Scope, operands: &[&Operand]) -> bool
    ensures { result ≡ list_any (texts.is_brief_operand (scope_of scope.now))
        (map (λ o. operand_tree o.now) operands.now) }
{
    for operand in operands {
        if is_brief_operand(scope, operand) {
            return true;
        }
    }
    false
}
