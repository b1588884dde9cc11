//! Where cells lie in their types, so do values, and what is written.
ghost use Rattle.std.specs.Prelude.{◌≡◌, ℤ, Some, Contains};
ghost use Rattle.pv_word.specs.declared.types.Ty.{Ty};
ghost use Rattle.pv_word.specs.Types.{InRange};
ghost use Rattle.pv_place.specs.declared.place.Place.{Place};
ghost use Rattle.pv_place.specs.Ranges.{AreWithin};
ghost use Rattle.pv_tree.specs.Tree.{ExprTree, OperandTree, BlockTree, read, assign};
ghost use Rattle.pv_tree.specs.Callees.{CallSite, runs, callee_of};
ghost use Rattle.pv_tree.specs.LiteralTypes.{Want, nothing};
ghost use Rattle.pv_tree.specs.Sorts.{own_type, taken};
ghost use Rattle.pv_tree.specs.Types.{sort_of_operand, type_of};
ghost use Rattle.pv_tree.specs.Parts.{Part, Spot as Statement, parts_of_block, spots_of_body};
ghost use Rattle.pv_tree.specs.Rules.{KeepsRules, Rule, BreaksInPattern};
ghost use Rattle.pv_mean.specs.Sources.{Source};
ghost use Rattle.pv_mean.specs.Frames.{Frame, visible_ranges};
ghost use Rattle.pv_mean.specs.Endings.{got};
ghost use Rattle.pv_mean.specs.Spots.{Spot};
ghost use Rattle.pv_mean.specs.Activations.{Activation, scope_in};
ghost use Rattle.pv_mean.specs.Values.{value, locate};
ghost use Rattle.pv_mean.specs.Calls.{instance_first};
ghost use Rattle.pv_mean.specs.Scans.{Visible, entry_activation, pattern_value};
ghost use Rattle.pv_laws_types.specs.Typed.{HasTable, IsAtWork, SpotHas, SymbolsSuit, ValuesAreFunctions, IsTyped};

use pv_mean::laws::tables_are_laid_out;
use pv_tree::{expressions_have_types, literal_indexes_lie_in_bounds};

/// In a project that keeps the rules, where a block is at work in a frame whose cells lie in their
/// types, the value of each expression in it lies in the type that it has by what is wanted of it;
/// what is read of an operand lies in the operand's; and so does the value of a pattern's expression
/// that breaks no rule, by visible cells alone.
pub fn values_lie_in_their_types()
    ensures part { (source : Source) (act : Activation) (frame : Frame) (p : Part) (ty : Ty) (v : ℤ)
        → IsTyped source act frame → Contains (parts_of_block source.project act.block) p
        → type_of (scope_in source act) p.want p.expr ≡ Some ty
        → value source act frame p.expr ≡ got v → InRange ty v }
    ensures operand { (source : Source) (act : Activation) (frame : Frame) (want : Want)
        (o : OperandTree) (ty : Ty) (v : ℤ) → IsTyped source act frame
        → type_of (scope_in source act) want (read o) ≡ Some ty
        → value source act frame (read o) ≡ got v → InRange ty v }
    ensures pattern { (source : Source) (values : Visible) (e : ExprTree) (ty : Ty) (v : ℤ)
        → KeepsRules source.project → SymbolsSuit source.project → HasTable source
        → Contains source.project.blocks source.entry
        → AreWithin (visible_ranges source.cells) values
        → ((rule : Rule) (at : Place)
        → BreaksInPattern rule (record { project = source.project; block = source.entry }) e at
        → ⊥)
        → type_of (record { project = source.project; block = source.entry }) nothing e ≡ Some ty
        → pattern_value source values e ≡ got v → InRange ty v }
{
    tables_are_laid_out();
    expressions_have_types();
    literal_indexes_lie_in_bounds();
}

/// The spot that an operand of a type names is one of that type: a cell of it, a bit of a BOOL, bytes
/// that are read as it, or a constant in it.
pub fn operands_name_spots_of_their_types()
    ensures { (source : Source) (act : Activation) (frame : Frame) (want : Want) (o : OperandTree)
        (spot : Spot) (ty : Ty) → IsTyped source act frame
        → own_type (taken want (sort_of_operand (scope_in source act) o)) ≡ Some ty
        → locate source act frame o ≡ got spot → SpotHas source act ty spot }
{
    tables_are_laid_out();
}

/// What an assignment writes lies in the type of the spot that it writes to, so that no wrap changes
/// it.
pub fn assigned_values_lie_in_the_targets_type()
    ensures { (source : Source) (act : Activation) (frame : Frame) (target : OperandTree)
        (place : Place) (e : ExprTree) (statement : Statement) (v : ℤ) (spot : Spot)
        → IsTyped source act frame → Contains (spots_of_body act.block.body) statement
        → statement.stmt ≡ assign target place e
        → value source act frame e ≡ got v → locate source act frame target ≡ got spot
        → (ty : Ty) × SpotHas source act ty spot × InRange ty v }
{
    tables_are_laid_out();
    expressions_have_types();
    literal_indexes_lie_in_bounds();
}

/// The entered block is at work, on the table's first cells.
pub fn entered_blocks_are_at_work()
    ensures { (source : Source) → HasTable source → Contains source.project.blocks source.entry
        → IsAtWork source (entry_activation source) }
{
    tables_are_laid_out();
}

/// The block that a call of one that is at work runs is at work, a function block in the instance that
/// the call names.
pub fn called_blocks_are_at_work()
    ensures { (source : Source) (act : Activation) (site : CallSite) (b : BlockTree)
        → KeepsRules source.project → SymbolsSuit source.project
        → ValuesAreFunctions source.project → HasTable source → IsAtWork source act
        → callee_of (scope_in source act) site ≡ runs b
        → IsAtWork source (record { block = b; first = instance_first source act site.call }) }
{
    tables_are_laid_out();
}
