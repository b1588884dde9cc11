//! Operators on bits, and assignments.
ghost use Rattle.std.specs.Prelude.{◌≡◌, ◌<◌, ◌≤◌, ◌+◌, ◌*◌, length, pos, ℕ, ℤ, Some, Contains};
ghost use Rattle.pv_word.specs.declared.types.Ty.{Ty};
ghost use Rattle.pv_word.specs.declared.types.Ty.TheVariants.{Bool, Byte};
ghost use Rattle.pv_word.specs.Types.{width_of, InRange, wrap_of};
ghost use Rattle.pv_place.specs.declared.place.Place.{Place};
ghost use Rattle.pv_tree.specs.declared.expr.UnaryOp.TheVariants.{Not};
ghost use Rattle.pv_tree.specs.declared.expr.BinaryOp.TheVariants.{And, Or, Xor};
ghost use Rattle.pv_tree.specs.Tree.{ExprTree, OperandTree, assign};
ghost use Rattle.pv_tree.specs.Parts.{Spot as Statement, spots_of_body};
ghost use Rattle.pv_mean.specs.Sources.{Source};
ghost use Rattle.pv_mean.specs.Frames.{Frame, visible_cells, type_of_visible, visible_value, brief_value};
ghost use Rattle.pv_mean.specs.Endings.{got, normal};
ghost use Rattle.pv_mean.specs.Spots.{Spot, visible, brief, bit, bytes, read_spot, write_spot};
ghost use Rattle.pv_mean.specs.Activations.{Activation};
ghost use Rattle.pv_mean.specs.Values.{unary_result, binary_result, value, locate};
ghost use Rattle.pv_mean.specs.Statements.{Calls, run_stmt};
ghost use Rattle.pv_laws_types.specs.Typed.{IsTyped};
ghost use Rattle.pv_laws_scans.specs.Areas.{AreBytes};

use pv_laws_types::laws::assigned_values_lie_in_the_targets_type;

/// On values of BOOL the operators are those of the truth tables: 1 is true, 0 is false.
pub fn operators_follow_the_truth_tables()
    ensures not_false { unary_result Not Bool (pos 0) ≡ pos 1 }
    ensures not_true { unary_result Not Bool (pos 1) ≡ pos 0 }
    ensures and_false_false { (place : Place) → binary_result And Bool place (pos 0) (pos 0) ≡ got (pos 0) }
    ensures and_false_true { (place : Place) → binary_result And Bool place (pos 0) (pos 1) ≡ got (pos 0) }
    ensures and_true_false { (place : Place) → binary_result And Bool place (pos 1) (pos 0) ≡ got (pos 0) }
    ensures and_true_true { (place : Place) → binary_result And Bool place (pos 1) (pos 1) ≡ got (pos 1) }
    ensures or_false_false { (place : Place) → binary_result Or Bool place (pos 0) (pos 0) ≡ got (pos 0) }
    ensures or_false_true { (place : Place) → binary_result Or Bool place (pos 0) (pos 1) ≡ got (pos 1) }
    ensures or_true_false { (place : Place) → binary_result Or Bool place (pos 1) (pos 0) ≡ got (pos 1) }
    ensures or_true_true { (place : Place) → binary_result Or Bool place (pos 1) (pos 1) ≡ got (pos 1) }
    ensures xor_false_false { (place : Place) → binary_result Xor Bool place (pos 0) (pos 0) ≡ got (pos 0) }
    ensures xor_false_true { (place : Place) → binary_result Xor Bool place (pos 0) (pos 1) ≡ got (pos 1) }
    ensures xor_true_false { (place : Place) → binary_result Xor Bool place (pos 1) (pos 0) ≡ got (pos 1) }
    ensures xor_true_true { (place : Place) → binary_result Xor Bool place (pos 1) (pos 1) ≡ got (pos 0) }
{}

/// Behind an assignment the target's spot has the value that the expression had before it, wrapped
/// to the type of its cell, which leaves a value of the type as it is; and it ends normally where
/// the expression has a value and the target a spot.
pub fn assigned_cells_have_the_value()
    ensures ends { (source : Source) (calls : Calls) (act : Activation) (frame : Frame)
        (target : OperandTree) (place : Place) (e : ExprTree) (v : ℤ) (spot : Spot)
        → value source act frame e ≡ got v → locate source act frame target ≡ got spot
        → run_stmt source calls act (assign target place e) frame
        ≡ normal (write_spot source frame spot v) }
    ensures visible { (source : Source) (calls : Calls) (act : Activation) (frame ended : Frame)
        (target : OperandTree) (place : Place) (e : ExprTree) (v : ℤ) (n : ℕ)
        → n < length frame.visible
        → value source act frame e ≡ got v → locate source act frame target ≡ got (visible n)
        → run_stmt source calls act (assign target place e) frame ≡ normal ended
        → visible_value ended n ≡ wrap_of (type_of_visible (visible_cells source.cells) n) v }
    ensures brief { (source : Source) (calls : Calls) (act : Activation) (frame ended : Frame)
        (target : OperandTree) (place : Place) (e : ExprTree) (v : ℤ) (ty : Ty) (n : ℕ)
        → n < length frame.brief
        → value source act frame e ≡ got v → locate source act frame target ≡ got (brief ty n)
        → run_stmt source calls act (assign target place e) frame ≡ normal ended
        → brief_value ended n ≡ Some (wrap_of ty v) }
    ensures bit { (source : Source) (calls : Calls) (act : Activation) (frame ended : Frame)
        (target : OperandTree) (place at_read : Place) (e : ExprTree) (v : ℤ) (n b : ℕ)
        → n < length frame.visible → type_of_visible (visible_cells source.cells) n ≡ Byte → b < 8
        → value source act frame e ≡ got v → locate source act frame target ≡ got (bit n b)
        → run_stmt source calls act (assign target place e) frame ≡ normal ended
        → read_spot ended at_read (bit n b) ≡ got (wrap_of Bool v) }
    ensures bytes { (source : Source) (calls : Calls) (act : Activation) (frame ended : Frame)
        (target : OperandTree) (place at_read : Place) (e : ExprTree) (v : ℤ) (ty : Ty) (n count : ℕ)
        → n + count ≤ length frame.visible → AreBytes source n count → 8 * count ≡ width_of ty
        → value source act frame e ≡ got v → locate source act frame target ≡ got (bytes ty n count)
        → run_stmt source calls act (assign target place e) frame ≡ normal ended
        → read_spot ended at_read (bytes ty n count) ≡ got (wrap_of ty v) }
    ensures own { (ty : Ty) (v : ℤ) → InRange ty v → wrap_of ty v ≡ v }
{}

/// By the rules the value isn't changed by the wrap: where a block of a project that keeps them is at
/// work in a frame whose cells lie in their types, the target's spot has behind an assignment the
/// value itself that the expression had before it.
pub fn assigned_cells_have_the_value_itself()
    ensures visible { (source : Source) (calls : Calls) (act : Activation) (frame ended : Frame)
        (target : OperandTree) (place : Place) (e : ExprTree) (statement : Statement) (v : ℤ) (n : ℕ)
        → IsTyped source act frame → Contains (spots_of_body act.block.body) statement
        → statement.stmt ≡ assign target place e
        → value source act frame e ≡ got v → locate source act frame target ≡ got (visible n)
        → run_stmt source calls act (assign target place e) frame ≡ normal ended
        → visible_value ended n ≡ v }
    ensures brief { (source : Source) (calls : Calls) (act : Activation) (frame ended : Frame)
        (target : OperandTree) (place : Place) (e : ExprTree) (statement : Statement) (v : ℤ)
        (ty : Ty) (n : ℕ)
        → IsTyped source act frame → Contains (spots_of_body act.block.body) statement
        → statement.stmt ≡ assign target place e → n < length frame.brief
        → value source act frame e ≡ got v → locate source act frame target ≡ got (brief ty n)
        → run_stmt source calls act (assign target place e) frame ≡ normal ended
        → brief_value ended n ≡ Some v }
    ensures bit { (source : Source) (calls : Calls) (act : Activation) (frame ended : Frame)
        (target : OperandTree) (place at_read : Place) (e : ExprTree) (statement : Statement)
        (v : ℤ) (n b : ℕ)
        → IsTyped source act frame → Contains (spots_of_body act.block.body) statement
        → statement.stmt ≡ assign target place e → n < length frame.visible
        → type_of_visible (visible_cells source.cells) n ≡ Byte → b < 8
        → value source act frame e ≡ got v → locate source act frame target ≡ got (bit n b)
        → run_stmt source calls act (assign target place e) frame ≡ normal ended
        → read_spot ended at_read (bit n b) ≡ got v }
    ensures bytes { (source : Source) (calls : Calls) (act : Activation) (frame ended : Frame)
        (target : OperandTree) (place at_read : Place) (e : ExprTree) (statement : Statement)
        (v : ℤ) (ty : Ty) (n count : ℕ)
        → IsTyped source act frame → Contains (spots_of_body act.block.body) statement
        → statement.stmt ≡ assign target place e
        → n + count ≤ length frame.visible → AreBytes source n count → 8 * count ≡ width_of ty
        → value source act frame e ≡ got v → locate source act frame target ≡ got (bytes ty n count)
        → run_stmt source calls act (assign target place e) frame ≡ normal ended
        → read_spot ended at_read (bytes ty n count) ≡ got v }
{
    assigned_values_lie_in_the_targets_type();
}
