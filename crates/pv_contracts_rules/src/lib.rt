//! Contract tests of `pv_names` and of the rules of the language, `pv_rules_expr` to `pv_rules`.
//!
//! Each of these public calls stands here once more, with the library's clauses, by the call itself. An edit of `must-fail` gives a wrong
//! answer in its place.
#![tactic(auto)]

ghost use Rattle.pv_names.specs.Entries.{block_of};
ghost use Rattle.pv_names.specs.Firsts.{number_in, or_number};
ghost use Rattle.pv_names.specs.InScope.{scope_of};
ghost use Rattle.pv_names.specs.Sorts.{want_tree};
ghost use Rattle.pv_names.specs.Tables.{project_of};
ghost use Rattle.pv_names.specs.Unique.{HaveUniqueNames};
ghost use Rattle.pv_rules.specs.NoInstructions.{ArePlain};
ghost use Rattle.pv_rules_call.specs.Links.{AreLinks};
ghost use Rattle.pv_rules_code.specs.AreInCode.{AreInCode};
ghost use Rattle.pv_rules_decl.specs.Answers.{AnswersProject};
ghost use Rattle.pv_rules_decl.specs.Patterns.{AnswersPattern};
ghost use Rattle.pv_rules_expr.specs.Nearest.{IsNearest, Nears};
ghost use Rattle.pv_tree.specs.Parts.{parts_of};
ghost use Rattle.pv_tree.specs.Projects.{project_tree};
ghost use Rattle.pv_tree.specs.Rules.Chains.{IsCycle};
ghost use Rattle.pv_tree.specs.Rules.DoubledNames.{IsDoubledName};
ghost use Rattle.pv_tree.specs.Rules.Jumps.{IsWrongLabel};
ghost use Rattle.pv_tree.specs.Rules.Misfits.{Misapplies};
ghost use Rattle.pv_tree.specs.Scopes.{ProjectTree};
ghost use Rattle.pv_tree.specs.Tree.{BlockTree};
ghost use Rattle.pv_tree.specs.View.{block_tree, expr_tree};
ghost use Rattle.std.specs.Prelude.{Any, IfOk, IsTrue, List, None, OnOk, Some, bytes_eq, length, map, slice_get, ℕ, ◌<◌, ◌↔◌, ◌≡◌};

use pv_names::{Entry, Firsts, Scope, Tables, Want};
use pv_place::Place;
use pv_rules_call::Links;
use pv_rules_code::CodeNear;
use pv_rules_decl::RuleFault;
use pv_tree::{Block, Blocks, Expr, Operand, Project};
use pv_types::Name;
use pv_word::Ty;
use std::alloc::{AllocError, Global};

/// [`Firsts::new`].
pub fn firsts(alloc: Global) -> Firsts
    ensures { (key : List ℕ) → number_in result key ≡ None }
{
    Firsts::new(alloc)
}

/// [`Firsts::push`].
pub fn push(into: &mut Firsts, name: &Name, number: usize) -> Result<(), AllocError>
    ensures { OnOk result ((key : List ℕ) → number_in into.new key
        ≡ or_number (number_in into.old key) (bytes_eq key name.now.key) number) }
{
    into.push(name, number)
}

/// [`Entry::has_unique_names`].
pub fn has_unique_names(entry: &Entry) -> bool
    ensures { IsTrue result ↔ HaveUniqueNames (block_of entry.now).vars }
{
    entry.has_unique_names()
}

/// [`pv_rules_expr::nearer`].
pub fn nearer(nearest: Option<Place>, place: &Place) -> Option<Place>
    ensures { Nears (λ at. place.now ≡ at) nearest result }
{
    pv_rules_expr::nearer(nearest, place)
}

/// [`pv_rules_expr::misapplied_in`].
pub fn misapplied_in(
    scope: &Scope,
    alloc: Global,
    want: Want,
    e: &Expr,
) -> Result<Option<Place>, AllocError>
    ensures { let scope = scope_of scope.now in IfOk result (IsNearest
        (λ at. Any (λ p. Misapplies scope at p.expr)
        (parts_of scope (want_tree want) (expr_tree e.now)))) }
{
    pv_rules_expr::misapplied_in(scope, alloc, want, e)
}

/// [`pv_rules_code::nearest_in_code`].
pub fn nearest_in_code<'p>(alloc: Global, tables: &'p Tables<'p>) -> Result<CodeNear, AllocError>
    ensures { IfOk result (λ n. AreInCode (project_of tables.now) n) }
{
    pv_rules_code::nearest_in_code(alloc, tables)
}

/// [`pv_rules_instr::wrong_label`].
pub fn wrong_label<'p>(alloc: Global, tables: &'p Tables<'p>) -> Result<Option<Place>, AllocError>
    ensures { IfOk result (IsNearest (IsWrongLabel (project_of tables.now))) }
{
    pv_rules_instr::wrong_label(alloc, tables)
}

/// [`pv_rules_call::calls_by_number`].
pub fn calls_by_number<'p>(alloc: Global, tables: &'p Tables<'p>) -> Result<Vec<Links>, AllocError>
    ensures { IfOk result (λ v. AreLinks (project_of tables.now) v.items) }
{
    pv_rules_call::calls_by_number(alloc, tables)
}

/// [`pv_rules_call::call_cycle`].
pub fn call_cycle(alloc: Global, links: &[Links]) -> Result<Option<Place>, AllocError>
    ensures { (project : ProjectTree) → AreLinks project links.now → IfOk result (IsNearest (IsCycle project)) }
{
    pv_rules_call::call_cycle(alloc, links)
}

/// [`pv_rules_decl::doubled_name`].
pub fn doubled_name(alloc: Global, blocks: &[Block]) -> Result<Option<Place>, AllocError>
    ensures { (project : ProjectTree) → project.blocks ≡ map block_tree blocks.now
        → IfOk result (λ r. IsNearest (IsDoubledName project) r) }
{
    pv_rules_decl::doubled_name(alloc, blocks)
}

/// [`pv_rules_decl::check_expression`].
pub fn check_expression(
    alloc: Global,
    e: &Expr,
    project: &Project,
    entry: u32,
) -> Result<Ty, RuleFault>
    requires { entry < length project.now.blocks.list.items }
    ensures { let tree = project_tree project.now.blocks.list.items project.now.symbols.items in
        (block : BlockTree) → slice_get tree.blocks entry ≡ Some block
        → AnswersPattern (record { project = tree; block = block }) (expr_tree e.now) result }
{
    pv_rules_decl::check_expression(alloc, e, project, entry)
}

/// [`pv_rules::check`].
pub fn check(
    alloc: Global,
    blocks: Blocks,
    symbols: Vec<(Name, Operand, Ty)>,
) -> Result<Project, RuleFault>
    ensures { AnswersProject (project_tree blocks.list.items symbols.items) result }
{
    pv_rules::check(alloc, blocks, symbols)
}

/// [`pv_rules::has_no_instructions`].
pub fn has_no_instructions(blocks: &[Block]) -> bool
    ensures { IsTrue result ↔ ArePlain (map block_tree blocks.now) }
{
    pv_rules::has_no_instructions(blocks)
}
