//! What cells begin with, and what they are bound to.
ghost use Rattle.std.specs.Prelude.{◌≡◌, ℕ, ℤ, List, Some, Contains, slice_get};
ghost use Rattle.std.specs.List.{AllByRecursion};
ghost use Rattle.pv_word.specs.Types.{InRange};
ghost use Rattle.pv_tree.specs.Tree.{OperandTree, BlockTree};
ghost use Rattle.pv_tree.specs.Scopes.{ProjectTree};
ghost use Rattle.pv_tree.specs.Rules.{KeepsRules};
ghost use Rattle.pv_mean.specs.declared.cell.Cell.{Cell};
ghost use Rattle.pv_mean.specs.AreaBytes.{Bytes, bytes_of};
ghost use Rattle.pv_mean.specs.Cells.{View, table_of};
ghost use Rattle.pv_mean.specs.Sources.{source_of};
ghost use Rattle.pv_case_fit.specs.Inputs.{Views};
ghost use Rattle.pv_replay.specs.Replays.{HasStarts};
ghost use Rattle.pv_laws_starts.specs.Binding.{BindsInTypes};

/// In a project that keeps the rules each cell of the table, whichever of its blocks is entered,
/// begins with a value of its type.
pub fn cells_begin_in_their_types()
    ensures { (project : ProjectTree) (entry : BlockTree) (bytes : Bytes)
        → KeepsRules project → Contains project.blocks entry
        → AllByRecursion (λ c. InRange c.ty c.start) (table_of project entry bytes) }
{}

/// What a case says of a table's inputs, where each bound value fits, binds cells to values of
/// their types.
pub fn views_bind_in_types()
    ensures { (cells : List Cell) (params : List (List ℕ)) (bind : List (List ℕ × ℤ)) (view : View)
        → Views cells params bind view.params view.bound → BindsInTypes cells view }
{}

/// So a source of a project that keeps the rules begins in its types and is bound in them, where
/// what the case says of its cells binds them so, as it does where it fits.
pub fn sources_begin_in_their_types()
    ensures bound { (project : ProjectTree) (entry : BlockTree) (operands : List OperandTree)
        (view : View) (turns : ℕ) → KeepsRules project → Contains project.blocks entry
        → BindsInTypes (table_of project entry (bytes_of project operands)) view
        → HasStarts (source_of project entry operands view turns) }
    ensures fitting { (project : ProjectTree) (entry : BlockTree) (number : ℕ)
        (operands : List OperandTree) (params : List (List ℕ)) (bind : List (List ℕ × ℤ))
        (view : View) (turns : ℕ) → KeepsRules project
        → slice_get project.blocks number ≡ Some entry
        → Views (table_of project entry (bytes_of project operands)) params bind view.params
        view.bound
        → HasStarts (source_of project entry operands view turns) }
{}
