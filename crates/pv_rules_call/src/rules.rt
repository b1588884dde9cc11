//! The rules on chains of calls, over the blocks of a project: each gives the least place at which it is broken.
ghost use Rattle.std.specs.Prelude.{IfOk};
ghost use Rattle.pv_tree.specs.Rules.Chains.{IsCycle, IsTooDeep};
ghost use Rattle.pv_tree.specs.Scopes.{ProjectTree};
ghost use Rattle.pv_names.specs.Tables.{project_of};
ghost use Rattle.pv_rules_expr.specs.Nearest.{IsNearest};
ghost use Rattle.pv_rules_call.specs.Links.{AreLinks};

use crate::by_number::{cycle, deep_call};
use crate::gathered::links_of_all;
use crate::links::Links;
use pv_names::Tables;
use pv_place::Place;
use std::alloc::{AllocError, Global};

/// Of each block of a project, in their order, the calls that run a block. A call that can't be made isn't among them.
pub fn calls_by_number<'p>(alloc: Global, tables: &'p Tables<'p>) -> Result<Vec<Links>, AllocError>
    ensures { IfOk result (λ v. AreLinks (project_of tables.now) v.items) }
{
    links_of_all(alloc, tables)
}

/// The least place of a call from which calls lead back to its block, by the calls of each block as [`calls_by_number`] gives them.
pub fn call_cycle(alloc: Global, links: &[Links]) -> Result<Option<Place>, AllocError>
    ensures { (project : ProjectTree) → AreLinks project links.now → IfOk result (IsNearest (IsCycle project)) }
{
    cycle(alloc, links)
}

/// The least place of a call in a block that a chain of calls has as its eighth, by the calls of each block as [`calls_by_number`] gives
/// them.
pub fn call_too_deep(alloc: Global, links: &[Links]) -> Result<Option<Place>, AllocError>
    ensures { (project : ProjectTree) → AreLinks project links.now → IfOk result (IsNearest (IsTooDeep project)) }
{
    deep_call(alloc, links)
}
