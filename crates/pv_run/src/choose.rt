//! Which statements of an IF or a CASE run.
ghost use Rattle.std.specs.Prelude.{◌≡◌, ◌≤◌, ℕ, length, int_le, ◌&&◌};
ghost use Rattle.pv_tree.specs.Tree.{ArmTrees, BranchTrees, BlockTree, Choices};
ghost use Rattle.pv_mean.specs.Sources.{Source};
ghost use Rattle.pv_mean.specs.Statements.{is_chosen};
ghost use Rattle.pv_eval.specs.Means.{activation};
ghost use Rattle.pv_run.specs.Choosing.{arm_chosen, branch_chosen};
ghost use Rattle.pv_run.specs.Code.{AreArms, AreBranches, AreChoices};
ghost use Rattle.pv_run.specs.Runs.{frame_in, Chooses, ChoosesBranch};

use crate::program::{Choice, List, Program, Span};
use crate::stop::Stop;

/// Whether the value lies between the ends of the choice.
fn lies_in(choice: &Choice, v: i64) -> bool
    ensures { result ≡ int_le choice.now.low v && int_le v choice.now.high }
{
    choice.low <= v && v <= choice.high
}

impl Program {
    /// The list behind the first condition that is true.
    pub(crate) fn arm_of(
        &self,
        arms: Span,
        first: u32,
        visible: &[i64],
        brief: &[Option<i64>],
        scratch: &mut [i64],
    ) -> Result<Option<List>, Stop>
        requires { self.now.scratch ≤ length scratch.old }
        ensures { (source : Source) (block : BlockTree) (k : ℕ) (trees : ArmTrees)
            → AreArms source block self.now k arms.first arms.end trees
            → Chooses source block self.now k result
            (arm_chosen source (activation block first) (frame_in visible.now brief.now) trees) }
    {
        for i in arms.first..arms.end {
            let Some(arm) = self.arms.get(i) else {
                return Ok(None);
            };
            match self.holds(arm.condition, first, visible, brief, scratch) {
                Ok(true) => return Ok(Some(arm.body)),
                Ok(false) => {}
                Err(stop) => return Err(stop),
            }
        }
        Ok(None)
    }

    /// Whether the value is one of the choices.
    fn is_chosen(&self, choices: Span, v: i64) -> bool
        ensures { (block : BlockTree) (first : ℕ) (trees : Choices)
            → AreChoices block self.now choices.first choices.end trees
            → result ≡ is_chosen (activation block first) v trees }
    {
        for i in choices.first..choices.end {
            let Some(choice) = self.choices.get(i) else {
                return false;
            };
            if lies_in(choice, v) {
                return true;
            }
        }
        false
    }

    /// The list of the first branch that has the value.
    pub(crate) fn branch_of(&self, branches: Span, v: i64) -> Option<List>
        ensures { (source : Source) (block : BlockTree) (k first : ℕ) (trees : BranchTrees)
            → AreBranches source block self.now k branches.first branches.end trees
            → ChoosesBranch source block self.now k result (branch_chosen (activation block first) v trees) }
    {
        for i in branches.first..branches.end {
            let Some(branch) = self.branches.get(i) else {
                return None;
            };
            if self.is_chosen(branch.choices, v) {
                return Some(branch.body);
            }
        }
        None
    }
}
