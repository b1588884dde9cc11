//! Laws of the instructions of STL, each the contract of a function that does nothing.
ghost use Rattle.std.specs.Prelude.{◌≡◌, ◌≢◌, ◌++◌, ℕ, ℤ, pos, ◌+ℤ◌, List, [], ◌∷◌, true, false, Some, None};
ghost use Rattle.pv_word.specs.declared.types.Ty.{Ty};
ghost use Rattle.pv_word.specs.declared.types.Ty.TheVariants.{Int};
ghost use Rattle.pv_word.specs.Types.{width_of, InRange, wrap_of, pattern_of};
ghost use Rattle.pv_place.specs.declared.place.Place.{Place};
ghost use Rattle.pv_place.specs.declared.trap.TrapKind.TheVariants.{Unset};
ghost use Rattle.pv_tree.specs.declared.instr.Op.{Op};
ghost use Rattle.pv_tree.specs.declared.instr.Op.TheVariants.{Set, Assign, Close, L, T, AddI};
ghost use Rattle.pv_tree.specs.Tree.{OperandTree, InstrTree};
ghost use Rattle.pv_tree.specs.InstructionGroups.{opening, group_of};
ghost use Rattle.pv_mean.specs.Sources.{Source};
ghost use Rattle.pv_mean.specs.Frames.{Frame, visible_value};
ghost use Rattle.pv_mean.specs.Endings.{got, and_then, ended, trapped, end_of};
ghost use Rattle.pv_mean.specs.Spots.{Spot, read_spot, write_spot};
ghost use Rattle.pv_mean.specs.Activations.{Activation};
ghost use Rattle.pv_mean.specs.Values.{locate};
ghost use Rattle.pv_mean.specs.Statements.{Calls};
ghost use Rattle.pv_mean.specs.Registers.{Logic, Working, no_logic, result_of, resulting, with_logic};
ghost use Rattle.pv_mean.specs.BitLogic.{join};
ghost use Rattle.pv_mean.specs.Accumulators.{low, number, put, overflows, codes_by, became, loaded};
ghost use Rattle.pv_mean.specs.Instructions.{operand_type, with_registers, onward, at_word, junction, step};
ghost use Rattle.pv_mean.specs.InstructionRuns.{here, run_instructions, run_stl};
ghost use Rattle.pv_mean.specs.InstructionReads.{reads, HaveValues};
ghost use Rattle.pv_mean.specs.Doings.{HoldsOf, EachInstruction};
ghost use Rattle.pv_mean.specs.Correct.{IsApart, CallLeaves};
ghost use Rattle.pv_mean.specs.CorrectInstructions.{plainly, is_comparison, having, having_open, AreUnlabelled};

/// A comparison of numbers gives the same whatever the result before it was: it joins to nothing.
pub fn comparisons_forget_the_result_before()
    ensures { (source : Source) (calls : Calls) (act : Activation) (i : InstrTree) (w : Working)
        (l : Logic) → is_comparison i.op ≡ true
        → step source calls act i (having w l) ≡ step source calls act i w }
{}

/// SET and then `=` store 1 at the operand's spot, whatever the bits were, and end the chain.
pub fn set_and_assign_store_1()
    ensures { (source : Source) (calls : Calls) (act : Activation) (o : OperandTree) (spot : Spot)
        (p q : Place) (w : Working) → locate source act w.frame o ≡ got spot
        → run_instructions source calls act
        (plainly Set None None p ∷ plainly Assign (Some o) None q ∷ []) here w
        ≡ ended (onward (record {
          registers = with_logic w.registers (resulting false true);
          frame = write_spot source w.frame spot (pos 1);
        })) }
{}

/// Instructions without labels run one list behind the other, where the first ends at its end.
pub fn unlabelled_instructions_run_behind_one_another()
    ensures { (source : Source) (calls : Calls) (act : Activation) (front back : List InstrTree)
        (w v : Working) → AreUnlabelled front
        → run_instructions source calls act front here w ≡ ended (onward v)
        → run_instructions source calls act (front ++ back) here w
        ≡ run_instructions source calls act back here v }
{}

/// What stands between an opening and its closing runs with the bits of a block's start; its result
/// then goes to the bits before as one bit of the opening's function, and all else is as the inner
/// instructions left it.
pub fn nestings_give_what_they_hold()
    ensures { (source : Source) (calls : Calls) (act : Activation) (o : Op) (body : List InstrTree)
        (p q : Place) (w v : Working) → group_of o ≡ opening → AreUnlabelled body
        → run_instructions source calls act body here (having_open w no_logic
        (record { outer = w.registers.logic; junction = junction o } ∷ w.registers.nestings))
        ≡ ended (onward v)
        → v.registers.nestings
        ≡ record { outer = w.registers.logic; junction = junction o } ∷ w.registers.nestings
        → run_instructions source calls act
        (plainly o None None p ∷ body ++ plainly Close None None q ∷ []) here w
        ≡ at_word q (end_of (and_then (result_of q v.registers.logic)
        (λ e. and_then (join q (junction o) e w.registers.logic)
        (λ l. got (onward (having_open v l w.registers.nestings)))))) }
{}

/// L and then T move a value: the second operand takes the bits of the first. Between operands of
/// one type it is the value itself, and between two of one width all bits stay.
pub fn loads_and_transfers_move_values()
    ensures moved { (source : Source) (calls : Calls) (act : Activation) (o p : OperandTree)
        (from to : Spot) (v : ℤ) (q r : Place) (w : Working) → locate source act w.frame o ≡ got from
        → read_spot w.frame q from ≡ got v → locate source act w.frame p ≡ got to
        → run_instructions source calls act
        (plainly L (Some o) None q ∷ plainly T (Some p) None r ∷ []) here w
        ≡ ended (onward (record {
          registers = loaded (pos (pattern_of (operand_type source act o) v)) w.registers;
          frame = write_spot source w.frame to (wrap_of (operand_type source act p)
              (pos (pattern_of (operand_type source act o) v)));
        })) }
    ensures one_type { (ty : Ty) (v : ℤ) → InRange ty v → wrap_of ty (pos (pattern_of ty v)) ≡ v }
    ensures one_width { (from to : Ty) (v : ℤ) → width_of from ≡ width_of to
        → pattern_of to (wrap_of to (pos (pattern_of from v))) ≡ pattern_of from v }
{}

/// `+I` adds the low words as numbers with a sign: the low word is the wrapped sum, CC1 and CC0 are
/// those of the wrapped sum, and OV is 1 exactly where INT doesn't hold the sum.
pub fn sums_of_words_are_wrapped()
    ensures step { (source : Source) (calls : Calls) (act : Activation) (place : Place) (w : Working)
        (a b : ℤ) → w.registers.accu1 ≡ Some a → w.registers.accu2 ≡ Some b
        → step source calls act (plainly AddI None None place) w
        ≡ ended (onward (with_registers w (became w.registers
        (put low a (number low b +ℤ number low a))
        (codes_by (overflows Int (number low b +ℤ number low a))
        (wrap_of Int (number low b +ℤ number low a)))))) }
    ensures low_word { (a n : ℤ) → number low (put low a n) ≡ wrap_of Int n }
    ensures in_range { (ty : Ty) (n : ℤ) → overflows ty n ≡ false → InRange ty n }
    ensures fits { (ty : Ty) (n : ℤ) → InRange ty n → overflows ty n ≡ false }
{}

/// An instruction with a value in all that it reads (`reads` is the table) never traps for want of
/// one. A call isn't meant, since what is called reads on its own.
pub fn instructions_with_values_are_never_unset()
    ensures { (source : Source) (calls : Calls) (act : Activation) (i : InstrTree) (w : Working)
        (place : Place) → i.call ≡ None → HaveValues source act i w (reads i i.op)
        → step source calls act i w ≢ trapped Unset place }
{}

/// A visible cell keeps its value through an STL block where each operand that an instruction writes
/// names another, wherever its indexes lead, and each call leaves the cell.
pub fn instructions_leave_other_cells()
    ensures { (source : Source) (calls : Calls) (act : Activation) (n : ℕ)
        (instructions : List InstrTree) (frame : Frame) (v : ℤ)
        → EachInstruction (IsApart source act n) (CallLeaves calls act n) instructions
        → visible_value frame n ≡ v
        → HoldsOf (λ f. visible_value f n ≡ v) (run_stl source calls act instructions frame) }
{}
