//! What is answered of a project of which each rule was looked for.
ghost use Rattle.std.specs.Prelude.{◌≡◌};
ghost use Rattle.pv_place.specs.declared.place.Place.{Place};
ghost use Rattle.pv_tree.specs.Projects.{project_tree};
ghost use Rattle.pv_tree.specs.Rules.{Rule, Breaks};
ghost use Rattle.pv_rules_decl.specs.Answers.{AnswersProject};
ghost use Rattle.pv_rules_decl.specs.Least.{AreNear, HasRule};

use crate::fault::RuleFault;
use crate::least::{Found, least_of};
use pv_tree::{Blocks, Operand, Project, project};
use pv_types::Name;
use pv_word::Ty;

/// The project of these blocks and symbols, or the first breach, by the nearest place of each rule that they may break.
pub fn answered(
    blocks: Blocks,
    symbols: Vec<(Name, Operand, Ty)>,
    all: &[Found],
) -> Result<Project, RuleFault>
    requires near { AreNear (λ rule at. Breaks rule
        (project_tree blocks.list.items symbols.items) at) all.now }
    requires each { (rule : Rule) (at : Place)
        → Breaks rule (project_tree blocks.list.items symbols.items) at → HasRule rule all.now }
    ensures { AnswersProject (project_tree blocks.list.items symbols.items) result }
{
    match least_of(all) {
        Some(breach) => Err(RuleFault::Broken(breach)),
        None => Ok(project(blocks, symbols)),
    }
}
