//! The expressions of patterns: the type of one, or the first breach in it.
ghost use Rattle.std.specs.Prelude.{◌≡◌, ◌<◌, IfOk, Some, Contains, slice_get, length, map};
ghost use Rattle.pv_tree.specs.Tree.{BlockTree};
ghost use Rattle.pv_tree.specs.Projects.{project_tree};
ghost use Rattle.pv_tree.specs.View.{block_tree, expr_tree};
ghost use Rattle.pv_tree.specs.Rules.{BreaksInPattern, KeepsRules};
ghost use Rattle.pv_names.specs.Entries.{block_of};
ghost use Rattle.pv_names.specs.InScope.{scope_of};
ghost use Rattle.pv_names.specs.Tables.{blocks_of, project_of};
ghost use Rattle.pv_rules_decl.specs.Least.{IsFirst};
ghost use Rattle.pv_rules_decl.specs.Patterns.{AnswersPattern};

use crate::fault::{Breach, Rule, RuleFault};
use crate::least::{least_of, make_found};
use pv_names::{Entry, Scope, Tables, Want, entries, first_place};
use pv_rules_expr::{is_whole, look_for_all, nearer_of, nothing_near, where_is};
use pv_tree::{Expr, Project, patterns_have_types};
use pv_word::Ty;
use std::alloc::{AllocError, Global};

/// The first breach in a pattern's expression.
pub fn pattern_breach(scope: &Scope, alloc: Global, e: &Expr) -> Result<Option<Breach>, AllocError>
    ensures { IfOk result (IsFirst
        (λ rule at. BreaksInPattern rule (scope_of scope.now) (expr_tree e.now) at)) }
{
    let mut near = nothing_near();
    let sort = look_for_all(scope, alloc, Want::Nothing, e, &mut near)?;
    let whole = where_is(is_whole(sort), first_place(e));
    let misused = nearer_of(near.misapplied, near.misused);
    let misfit = nearer_of(misused, whole);
    let pattern = nearer_of(near.divides, near.moving);
    let all = [
        make_found(Rule::MissingName, near.missing),
        make_found(Rule::Misfit, misfit),
        make_found(Rule::OutOfRange, near.outside),
        make_found(Rule::BeyondBounds, near.beyond),
        make_found(Rule::NotCallable, near.void),
        make_found(Rule::WrongAddress, near.address),
        make_found(Rule::NoPattern, pattern),
    ];
    Ok(least_of(all.as_slice()))
}

/// The type of a pattern's expression, or the first breach in it.
fn pattern_type(scope: &Scope, alloc: Global, e: &Expr) -> Result<Ty, RuleFault>
    requires keeps { KeepsRules (scope_of scope.now).project }
    requires inside { Contains (scope_of scope.now).project.blocks (scope_of scope.now).block }
    ensures { AnswersPattern (scope_of scope.now) (expr_tree e.now) result }
{
    if let Some(breach) = pattern_breach(scope, alloc, e)? {
        return Err(RuleFault::Broken(breach));
    }
    patterns_have_types();
    match scope.type_of(alloc, Want::Nothing, e)? {
        Some(ty) => Ok(ty),
        None => unreachable!(),
    }
}

/// The type of a pattern's expression over the names of the block of this number, or the first breach in it.
fn type_in_block(alloc: Global, e: &Expr, tables: &Tables, number: u32) -> Result<Ty, RuleFault>
    requires number { number < length (blocks_of tables.now) }
    requires keeps { KeepsRules (project_of tables.now) }
    ensures { (block : BlockTree) → slice_get (blocks_of tables.now) number ≡ Some block
        → AnswersPattern (record { project = project_of tables.now; block = block })
        (expr_tree e.now) result }
{
    match tables.entries().get(number as usize) {
        Some(entered) => {
            let scope = Scope {
                tables,
                entry: entered,
            };
            pattern_type(&scope, alloc, e)
        }
        None => unreachable!(),
    }
}

/// The same of the project's block of this number, where each block has its table.
fn type_among(
    alloc: Global,
    e: &Expr,
    all: &[Entry],
    project: &Project,
    number: u32,
) -> Result<Ty, RuleFault>
    requires tables { map block_of all.now ≡ map block_tree project.now.blocks.list.items }
    requires number { number < length project.now.blocks.list.items }
    ensures { let tree = project_tree project.now.blocks.list.items project.now.symbols.items in
        (block : BlockTree) → slice_get tree.blocks number ≡ Some block
        → AnswersPattern (record { project = tree; block = block }) (expr_tree e.now) result }
{
    let tables = Tables::of(alloc, all, project.symbols())?;
    type_in_block(alloc, e, &tables, number)
}

/// The type of a pattern's expression over the names of a block of the project, given by its number in their order; else the first
/// breach in it, the one on patterns included: the least place, and of the rules that are broken there the least.
pub fn check_expression(
    alloc: Global,
    e: &Expr,
    project: &Project,
    entry: u32,
) -> Result<Ty, RuleFault>
    requires { entry < length project.now.blocks.list.items }
    ensures { let tree = project_tree project.now.blocks.list.items project.now.symbols.items in
        (block : BlockTree) → slice_get tree.blocks entry ≡ Some block
        → AnswersPattern (record { project = tree; block = block }) (expr_tree e.now) result }
{
    let all = entries(alloc, project.blocks().list.as_slice())?;
    type_among(alloc, e, all.as_slice(), project, entry)
}
