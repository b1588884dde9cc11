//! Laws of the first form, each the contract of a function that does nothing.
ghost use Rattle.std.specs.Prelude.{ℕ, List};
ghost use Rattle.pv_tree.specs.Tree.{OperandTree, BlockTree};
ghost use Rattle.pv_tree.specs.Scopes.{ProjectTree};
ghost use Rattle.pv_mean.specs.Cells.{View};
ghost use Rattle.pv_mean.specs.Sources.{source_of};
ghost use Rattle.pv_pattern.specs.Patterns.{Pattern};
ghost use Rattle.pv_bool_case.specs.Sources.{IsOneBlock, IsSourceOf};

use pv_pattern_read::laws::texts_are_one_expression;

/// What is run of a project of one block of the form with a pattern of the form is the source of the block alone, whose requirement names
/// no address; its machine does what that of the Boolean program does. Each scan is done, and a goal fails exactly where it is reached.
pub fn sources_are_of_one_block()
    ensures { (project : ProjectTree) (entered : BlockTree) (named : List OperandTree) (view : View) (texts : List (List ℕ))
        (p : Pattern) (turns : ℕ) → IsOneBlock project entered named view texts p
        → IsSourceOf entered turns p (source_of project entered named view turns) }
{
    texts_are_one_expression();
}
