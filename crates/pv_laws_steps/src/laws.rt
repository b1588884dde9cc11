//! The machine of STL, and the run of a block.
ghost use Rattle.std.specs.Prelude.{◌≡◌, List, Contains};
ghost use Rattle.pv_tree.specs.Tree.{InstrTree, stl};
ghost use Rattle.pv_tree.specs.Rules.{KeepsRules};
ghost use Rattle.pv_mean.specs.Sources.{Source};
ghost use Rattle.pv_mean.specs.Frames.{Frame};
ghost use Rattle.pv_mean.specs.Endings.{Ended};
ghost use Rattle.pv_mean.specs.Activations.{Activation};
ghost use Rattle.pv_mean.specs.Statements.{Calls};
ghost use Rattle.pv_mean.specs.InstructionRuns.{run_stl};
ghost use Rattle.pv_laws_steps.specs.Machine.{State, Runs, first_state};

/// In a block of a project that keeps the rules the machine's single steps, from the first
/// instruction on, are a list that ends as the run of the block does; and from any state there is
/// one list at most, with one end.
pub fn runs_are_lists_of_steps()
    ensures ends { (source : Source) (calls : Calls) (act : Activation)
        (instructions : List InstrTree) (frame : Frame) → KeepsRules source.project
        → Contains source.project.blocks act.block → act.block.body ≡ stl instructions
        → (states : List State) × Runs source calls act instructions (first_state frame) states
        (run_stl source calls act instructions frame) }
    ensures one { (source : Source) (calls : Calls) (act : Activation)
        (instructions : List InstrTree) (s : State) (states others : List State)
        (end other : Ended Frame) → Runs source calls act instructions s states end
        → Runs source calls act instructions s others other
        → (states ≡ others) × (end ≡ other) }
{}
