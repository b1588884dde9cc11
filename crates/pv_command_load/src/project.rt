//! The third stage of a command: the rules of the language, over all sources.
ghost use Rattle.std.specs.Prelude.{◌≡◌, map, Some, IfOk, IfErr, string_bytes};
ghost use Rattle.pv_tree.specs.View.{block_trees};
ghost use Rattle.pv_rules_decl.specs.Names.{rule_of};
ghost use Rattle.pv_command_load.specs.Refusals as refusals;
ghost use Rattle.pv_command_load.specs.Refusals.{project_line};
ghost use Rattle.pv_command_load.specs.Positions.{place_text, LiesAmong};
ghost use Rattle.pv_command_load.specs.ReadTexts.{AreRead};
ghost use Rattle.pv_command_load.specs.Subjects.{Given};
ghost use Rattle.pv_command_load.specs.Stopped.{refused, stopped_status, stopped_text};
ghost use Rattle.pv_command_load.specs.Stops.{text_tree, at_text, project_stopped, StopsProject};
ghost use Rattle.pv_command_load.specs.Made.{AreGiven, IsProjectOf, in_project};
ghost use Rattle.pv_command_load.specs.declared.project.ProjectStop.TheVariants.{NoMemory};

use crate::position::{SourcePosition, SourceText};
use crate::source::place_line;
use crate::status::{NO_MEMORY, SOURCE_REFUSED, Status};
use pv_case::Symbol;
use pv_rules::check;
use pv_rules_decl::{Breach, Rule, RuleFault};
use pv_tree::{Blocks, Operand, Project};
use pv_types::Name;
use pv_word::Ty;
use std::alloc::{AllocError, Global};
use thiserror::Error;

/// Why a command stops at the rules.
#[derive(Debug, Drop, Error)]
pub enum ProjectStop {
    /// The first breach, with its place.
    #[error("a rule is broken")]
    Broken { rule: Rule, at: SourcePosition },
    #[error("out of memory")]
    NoMemory,
}

impl From<AllocError> for ProjectStop {
    ghost from_gives = { λ _ stop. stop ≡ NoMemory };

    fn from(_error: AllocError) -> ProjectStop {
        ProjectStop::NoMemory
    }
}

/// The fault line of a broken rule.
fn rule_line(alloc: Global, rule: Rule, at: &SourcePosition) -> Result<String, AllocError>
    ensures { IfOk result (λ text. string_bytes text ≡ project_line (refusals.rule (rule_of rule) (at_text at.now))) }
{
    let number = rule.number();
    let what = format!(in alloc; "Rule {number}")?;
    place_line(alloc, at, what.as_str())
}

impl ProjectStop {
    pub fn status(&self) -> Status
        ensures { result ≡ stopped_status (λ refusal. 3) (project_stopped self.now) }
    {
        match self {
            ProjectStop::Broken { .. } => SOURCE_REFUSED,
            ProjectStop::NoMemory => NO_MEMORY,
        }
    }

    /// The fault line; an error where memory ends, or ended before.
    pub fn text(&self, alloc: Global) -> Result<String, AllocError>
        ensures { IfOk result (λ text. stopped_text project_line (project_stopped self.now) ≡ Some (string_bytes text)) }
    {
        match self {
            ProjectStop::Broken { rule, at } => rule_line(alloc, *rule, at),
            ProjectStop::NoMemory => Err(AllocError),
        }
    }
}

/// The symbols as a project has them.
fn symbols_of(alloc: Global, symbols: Vec<Symbol>) -> Result<Vec<(Name, Operand, Ty)>, AllocError>
    ensures { IfOk result (λ list. list.items ≡ map in_project symbols.items) }
{
    symbols
        .into_iter()
        .map(|symbol| (symbol.name, symbol.at, symbol.ty))
        .collect(alloc)
}

/// The stop at a breach.
fn broken(alloc: Global, sources: &[SourceText], breach: Breach) -> Result<ProjectStop, AllocError>
    requires { LiesAmong (map text_tree sources.now) breach.place }
    ensures { IfOk result (λ stop. project_stopped stop
        ≡ refused (refusals.rule (rule_of breach.rule) (place_text (map text_tree sources.now) breach.place))) }
{
    let at = SourcePosition::of(alloc, sources, breach.place)?;
    Ok(ProjectStop::Broken {
        rule: breach.rule,
        at,
    })
}

/// The project of the blocks of these sources, as which they are read, and of these symbols.
pub fn project_of(
    alloc: Global,
    sources: &[SourceText],
    blocks: Blocks,
    symbols: Vec<Symbol>,
) -> Result<Project, ProjectStop>
    requires { AreRead (map text_tree sources.now) (block_trees blocks.list.items) }
    ensures found { (given : Given) → AreGiven sources.now blocks.list.items symbols.items given
        → IfOk result (IsProjectOf given) }
    ensures stopped { (given : Given) → AreGiven sources.now blocks.list.items symbols.items given
        → IfErr result (StopsProject given) }
{
    let symbols = symbols_of(alloc, symbols)?;
    match check(alloc, blocks, symbols) {
        Ok(project) => Ok(project),
        Err(RuleFault::Broken(breach)) => Err(broken(alloc, sources, breach)?),
        Err(RuleFault::NoMemory) => Err(ProjectStop::NoMemory),
    }
}
