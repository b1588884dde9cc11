//! Laws of single steps: operators, spots, statements, loops, calls. Each is the contract of a function
//! that does nothing.
ghost use Rattle.std.specs.Prelude.{◌≡◌, ◌≢◌, ◌<◌, ◌≤◌, ℕ, ℤ, pos, negsuc, List, [], length, Bool, true, false};
ghost use Rattle.pv_word.specs.declared.types.Ty.{Ty};
ghost use Rattle.pv_word.specs.declared.types.Ty.TheVariants.{Int, Dint};
ghost use Rattle.pv_word.specs.Types.{InRange, wrap_of};
ghost use Rattle.pv_word.specs.Division.{quotient, remainder, IsDivision};
ghost use Rattle.pv_place.specs.declared.place.Place.{Place};
ghost use Rattle.pv_place.specs.declared.trap.TrapKind.TheVariants.{DivideByZero};
ghost use Rattle.pv_tree.specs.declared.expr.BinaryOp.TheVariants.{Div, Mod};
ghost use Rattle.pv_tree.specs.Tree.{ExprTree, StmtTrees, if_, while_, arms, no_arms, else_};
ghost use Rattle.pv_tree.specs.Callees.{CallSite};
ghost use Rattle.pv_mean.specs.Sources.{Source};
ghost use Rattle.pv_mean.specs.Frames.{Frame, visible_cells, type_of_visible, visible_value};
ghost use Rattle.pv_mean.specs.Endings.{got, trap, Ending, normal, by_over};
ghost use Rattle.pv_mean.specs.Spots.{visible, brief, read_spot, write_spot};
ghost use Rattle.pv_mean.specs.Activations.{Activation};
ghost use Rattle.pv_mean.specs.Values.{is_true, binary_result, value};
ghost use Rattle.pv_mean.specs.Statements.{Calls, Counting, is_on_the_way, for_turns, run_stmt, run_stmts};
ghost use Rattle.pv_mean.specs.Calls.{Linked, Passed, copy_all_in, copy_all_out};
ghost use Rattle.pv_mean.specs.Doings.{EachInList, HoldsAt, HoldsIfGot};
ghost use Rattle.pv_mean.specs.Correct.{IsApart, CallLeaves, Takes, behind_turns, LeavesVariable};

/// The least value divided by -1 is itself, and leaves nothing.
pub fn least_by_minus_one_is_itself()
    ensures int { (place : Place)
        → binary_result Div Int place (negsuc 32767) (negsuc 0) ≡ got (negsuc 32767) }
    ensures dint { (place : Place)
        → binary_result Div Dint place (negsuc 2147483647) (negsuc 0) ≡ got (negsuc 2147483647) }
    ensures int_rest { (place : Place)
        → binary_result Mod Int place (negsuc 32767) (negsuc 0) ≡ got (pos 0) }
    ensures dint_rest { (place : Place)
        → binary_result Mod Dint place (negsuc 2147483647) (negsuc 0) ≡ got (pos 0) }
{}

/// A divisor of zero traps at the operator. By any other the quotient is wrapped and the remainder
/// isn't, and on whole numbers the two are a division: quotient times divisor plus remainder is the
/// dividend, and the remainder is the smaller and has the dividend's sign.
pub fn quotient_and_remainder_are_a_division()
    ensures zero { (ty : Ty) (place : Place) (a : ℤ)
        → binary_result Div ty place a (pos 0) ≡ trap DivideByZero place }
    ensures zero_rest { (ty : Ty) (place : Place) (a : ℤ)
        → binary_result Mod ty place a (pos 0) ≡ trap DivideByZero place }
    ensures quotient { (ty : Ty) (place : Place) (a b : ℤ) → b ≢ pos 0
        → binary_result Div ty place a b ≡ got (wrap_of ty (quotient a b)) }
    ensures remainder { (ty : Ty) (place : Place) (a b : ℤ) → b ≢ pos 0
        → InRange ty a → InRange ty b
        → binary_result Mod ty place a b ≡ got (remainder a b) }
    ensures division { (a b : ℤ) → b ≢ pos 0 → IsDivision a b (quotient a b) (remainder a b) }
{}

/// What is written to a cell is read there, wrapped to the cell's type.
pub fn written_cells_have_the_value()
    ensures visible { (source : Source) (frame : Frame) (n : ℕ) (v : ℤ) (place : Place)
        → n < length frame.visible
        → read_spot (write_spot source frame (visible n) v) place (visible n)
        ≡ got (wrap_of (type_of_visible (visible_cells source.cells) n) v) }
    ensures brief { (source : Source) (frame : Frame) (ty : Ty) (n : ℕ) (v : ℤ) (place : Place)
        → n < length frame.brief
        → read_spot (write_spot source frame (brief ty n) v) place (brief ty n) ≡ got (wrap_of ty v) }
{}

/// A visible cell keeps its value where each target names another, wherever its indexes lead, and
/// each call leaves the cell.
pub fn untouched_cells_keep_their_value()
    ensures { (source : Source) (calls : Calls) (act : Activation) (n : ℕ) (statements : StmtTrees)
        (frame : Frame) (v : ℤ)
        → EachInList (IsApart source act n) (CallLeaves calls act n) statements
        → visible_value frame n ≡ v
        → HoldsAt (λ f. visible_value f n ≡ v) (run_stmts source calls act statements frame) }
{}

/// Of an IF with ELSE the first list runs where the condition is true, else the second.
pub fn if_runs_one_of_its_lists()
    ensures first { (source : Source) (calls : Calls) (act : Activation) (frame : Frame)
        (c : ExprTree) (s t : StmtTrees) (place : Place) (v : ℤ)
        → value source act frame c ≡ got v → is_true v ≡ true
        → run_stmt source calls act (if_ (arms c s no_arms) (else_ t) place) frame
        ≡ run_stmts source calls act s frame }
    ensures second { (source : Source) (calls : Calls) (act : Activation) (frame : Frame)
        (c : ExprTree) (s t : StmtTrees) (place : Place) (v : ℤ)
        → value source act frame c ≡ got v → is_true v ≡ false
        → run_stmt source calls act (if_ (arms c s no_arms) (else_ t) place) frame
        ≡ run_stmts source calls act t frame }
{}

/// A loop of no turns leaves the frame.
pub fn loops_of_no_turns_do_nothing()
    ensures while_loop { (source : Source) (calls : Calls) (act : Activation) (frame : Frame)
        (c : ExprTree) (s : StmtTrees) (place : Place) (v : ℤ)
        → value source act frame c ≡ got v → is_true v ≡ false
        → run_stmt source calls act (while_ c s place) frame ≡ normal frame }
    ensures for_loop { (source : Source) (loop : Counting) (body : Frame → Ending) (n : ℕ) (count : ℤ)
        (frame : Frame)
        → is_on_the_way loop.by count loop.last ≡ false
        → for_turns source loop body n count frame ≡ normal frame }
{}

/// A FOR over a body that ends normally and leaves the variable makes exactly the turns that its
/// counts give, or is over where the bound is smaller. The frames and counts are such as the law's
/// user names: frames that have the variable's cell, and counts that it holds.
pub fn for_makes_the_turns_that_its_counts_give()
    ensures within { (source : Source) (loop : Counting) (body : Frame → Ending)
        (turn : Frame → Frame) (fits : Frame → Bool) (is_count : ℤ → Bool)
        → LeavesVariable source loop fits is_count body turn
        → (turns bound : ℕ) (count : ℤ) (frame : Frame) → fits frame ≡ true → is_count count ≡ true
        → Takes loop count turns → turns ≤ bound
        → (turns ≢ 0 → read_spot frame loop.variable_place loop.variable ≡ got count)
        → for_turns source loop body bound count frame
        ≡ normal (behind_turns source loop turn count turns frame) }
    ensures past { (source : Source) (loop : Counting) (body : Frame → Ending)
        (turn : Frame → Frame) (fits : Frame → Bool) (is_count : ℤ → Bool)
        → LeavesVariable source loop fits is_count body turn
        → (turns bound : ℕ) (count : ℤ) (frame : Frame) → fits frame ≡ true → is_count count ≡ true
        → Takes loop count turns → bound < turns
        → (turns ≢ 0 → read_spot frame loop.variable_place loop.variable ≡ got count)
        → for_turns source loop body bound count frame ≡ by_over loop.place }
{}

/// Copying a call's parameters in writes nothing of the caller's own cells.
pub fn parameters_are_copied_in_by_value()
    ensures { (source : Source) (caller : Activation) (site : CallSite) (callee : Activation)
        (passed : List Passed) (l : Linked)
        → HoldsIfGot (λ m. m.outer ≡ l.outer) (copy_all_in source caller site callee passed l) }
{}

/// A call without arguments copies nothing, so an instance's inputs are those that an earlier call
/// left.
pub fn calls_without_arguments_copy_nothing()
    ensures inward { (source : Source) (caller : Activation) (site : CallSite) (callee : Activation)
        (passed : List Passed) (l : Linked) → site.call.args ≡ []
        → copy_all_in source caller site callee passed l ≡ got l }
    ensures outward { (source : Source) (caller : Activation) (site : CallSite) (callee : Activation)
        (passed : List Passed) (l : Linked) → site.call.args ≡ []
        → copy_all_out source caller site callee passed l ≡ got l }
{}
