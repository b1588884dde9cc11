//! Laws of the first form: a scan of such a source is its Boolean program's. Each is the contract of a
//! function that does nothing.
ghost use Rattle.std.specs.Prelude.{◌≡◌, ℕ, List, All};
ghost use Rattle.pv_place.specs.Ranges.{AreWithin};
ghost use Rattle.pv_tree.specs.Tree.{ExprTree, OperandTree, BlockTree};
ghost use Rattle.pv_bool.specs.Tree.{IsProgram};
ghost use Rattle.pv_bool.specs.Scans.{start as program_start};
ghost use Rattle.pv_bool.specs.Machine.{numbers_of};
ghost use Rattle.pv_mean.specs.Frames.{Image, Input, Params, image_ranges, input_ranges};
ghost use Rattle.pv_mean.specs.Runs.{start};
ghost use Rattle.pv_pattern.specs.Patterns.{Pattern};
ghost use Rattle.pv_bool_form.specs.FirstForm.{IsFirstOperand, IsFirstExpr, IsFirstPattern, IsFirstForm, IsFirstBlock};
ghost use Rattle.pv_bool_form.specs.Programs.{first_source, program_of, pattern_program};
ghost use Rattle.pv_bool_form.specs.Correct.{IsScanOfProgram, IsScanOfPattern};
ghost use Rattle.pv_bool_form.specs.Machines.{IsOfSource};

/// On the first form, where patterns name its words alone: a scan from an image and an input within
/// their ranges is the Boolean program's, and so is the start. The program names only its own bits.
pub fn scans_are_the_programs()
    ensures scan { (block : BlockTree) (patterns : List OperandTree) (bound : ℕ) (a : ExprTree)
        (image : Image) (input : Input)
        → IsFirstForm block → All (IsFirstOperand block.vars) patterns → IsFirstExpr block.vars a
        → AreWithin (image_ranges (first_source block patterns bound).cells) image
        → AreWithin (input_ranges (first_source block patterns bound).cells) input
        → IsScanOfProgram (first_source block patterns bound) a image input }
    ensures start { (block : BlockTree) (patterns : List OperandTree) (bound : ℕ) (a : ExprTree)
        (params : Params)
        → IsFirstForm block → All (IsFirstOperand block.vars) patterns
        → start (first_source block patterns bound) params
        ≡ numbers_of (program_start (program_of (first_source block patterns bound) a).bits) }
    ensures names { (block : BlockTree) (patterns : List OperandTree) (bound : ℕ) (a : ExprTree)
        → IsFirstForm block → All (IsFirstOperand block.vars) patterns → IsFirstExpr block.vars a
        → IsProgram (program_of (first_source block patterns bound) a) }
{}

/// The same of patterns: a scan from an image and an input within their ranges is done, as the program of
/// the pattern has it, and fails exactly where the program's requirement doesn't hold at its end. So
/// of a pattern that asks for a goal it fails exactly where the goal is reached. The start is the
/// program's too, and the program names only its own bits.
pub fn scans_are_the_patterns()
    ensures scan { (block : BlockTree) (patterns : List OperandTree) (bound : ℕ) (p : Pattern)
        (image : Image) (input : Input)
        → IsFirstForm block → All (IsFirstOperand block.vars) patterns → IsFirstPattern block.vars p
        → AreWithin (image_ranges (first_source block patterns bound).cells) image
        → AreWithin (input_ranges (first_source block patterns bound).cells) input
        → IsScanOfPattern (first_source block patterns bound) p image input }
    ensures start { (block : BlockTree) (patterns : List OperandTree) (bound : ℕ) (p : Pattern)
        (params : Params)
        → IsFirstForm block → All (IsFirstOperand block.vars) patterns
        → start (first_source block patterns bound) params
        ≡ numbers_of (program_start (pattern_program (first_source block patterns bound) p).bits) }
    ensures names { (block : BlockTree) (patterns : List OperandTree) (bound : ℕ) (p : Pattern)
        → IsFirstForm block → All (IsFirstOperand block.vars) patterns → IsFirstPattern block.vars p
        → IsProgram (pattern_program (first_source block patterns bound) p) }
{}

/// The machine of a block with a pattern of the form has the ranges, starts, steps and failing of its
/// Boolean program's, and so meets the same queries.
pub fn machines_are_the_programs()
    ensures { (block : BlockTree) (patterns : List OperandTree) (bound : ℕ) (p : Pattern)
        → IsFirstBlock block → All (IsFirstOperand block.vars) patterns → IsFirstPattern block.vars p
        → IsOfSource (first_source block patterns bound) p }
{}
