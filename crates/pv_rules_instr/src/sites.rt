//! The rules on instructions, over the blocks of a project: each gives the least place at which it is broken.
ghost use Rattle.std.specs.Prelude.{◌≡◌, IfOk, None, map, option_and_then};
ghost use Rattle.pv_tree.specs.InstructionGroups as groups;
ghost use Rattle.pv_tree.specs.Rules.Behind.{IsRefused};
ghost use Rattle.pv_tree.specs.Rules.Jumps.{IsWrongLabel, IsWrongRange};
ghost use Rattle.pv_tree.specs.Rules.OpenNestings.{IsWrongNesting};
ghost use Rattle.pv_tree.specs.View.{instr_tree};
ghost use Rattle.pv_names.specs.InScope.{scope_of};
ghost use Rattle.pv_names.specs.Tables.{project_of};
ghost use Rattle.pv_rules_expr.specs.Nearest.{IsNearest};
ghost use Rattle.pv_rules_expr.specs.NearestIn.{nearest_in};
ghost use Rattle.pv_rules_instr.specs.AtOperands.{literal_at, operand_at, outside_at, refused_at};
ghost use Rattle.pv_rules_instr.specs.Sites.{IsOutsideBehind, body_place, each_place, list_place, project_place};

use crate::group::group_of;
use crate::label::label_place;
use crate::literal::{literal_place, outside_literal};
use crate::nesting::nesting_place;
use crate::operand::operand_place;
use crate::range::range_place;
use pv_names::{Scope, Tables};
use pv_place::Place;
use pv_rules_expr::nearer_of;
use pv_tree::{Body, Instr};
use std::alloc::{AllocError, Global};

/// What is looked for at an instruction by itself: an operand or a literal that it doesn't take, or a literal outside its type.
#[derive(Clone, Copy)]
pub(crate) enum Each {
    Refused,
    Outside,
}

/// What is looked for in the instructions of a block.
#[derive(Clone, Copy)]
pub(crate) enum Site {
    /// At each by itself.
    Each(Each),
    /// A missing or doubled label.
    Label,
    /// A range of a backward jump that is entered or crosses.
    Range,
    /// A nesting that is wrong.
    Nesting,
}

/// The place of an operand that an instruction doesn't take.
fn refused_operand(scope: &Scope, alloc: Global, instr: &Instr) -> Result<Option<Place>, AllocError>
    ensures { let i = instr_tree instr.now in IfOk result (λ o. o ≡ option_and_then
        (operand_at (scope_of scope.now) (groups.group_of i.op)) i.operand) }
{
    match instr.operand() {
        Some(operand) => operand_place(scope, alloc, group_of(instr.op), operand),
        None => Ok(None),
    }
}

/// The place of a literal that an instruction doesn't take.
fn refused_literal(instr: &Instr) -> Option<Place>
    ensures { let i = instr_tree instr.now in result
        ≡ option_and_then (literal_at (groups.group_of i.op)) i.literal }
{
    match instr.literal() {
        Some(literal) => literal_place(group_of(instr.op), literal),
        None => None,
    }
}

/// The place of a literal behind an instruction that is outside its type.
fn outside_place(instr: &Instr) -> Option<Place>
    ensures { result ≡ outside_at (instr_tree instr.now) }
{
    match instr.literal() {
        Some(literal) => outside_literal(group_of(instr.op), literal),
        None => None,
    }
}

/// The place of what an instruction doesn't take.
fn refused_place(scope: &Scope, alloc: Global, instr: &Instr) -> Result<Option<Place>, AllocError>
    ensures { IfOk result (λ o. o ≡ refused_at (scope_of scope.now) (instr_tree instr.now)) }
{
    let operand = refused_operand(scope, alloc, instr)?;
    Ok(nearer_of(operand, refused_literal(instr)))
}

/// Where an instruction by itself breaks the rule.
fn each_place(
    scope: &Scope,
    alloc: Global,
    what: Each,
    instr: &Instr,
) -> Result<Option<Place>, AllocError>
    ensures { IfOk result (λ o. o ≡ each_place what (scope_of scope.now) (instr_tree instr.now)) }
{
    match what {
        Each::Refused => refused_place(scope, alloc, instr),
        Each::Outside => Ok(outside_place(instr)),
    }
}

/// The nearest place of instructions by themselves.
fn nearest_each(
    scope: &Scope,
    alloc: Global,
    what: Each,
    list: &[Instr],
) -> Result<Option<Place>, AllocError>
    ensures { IfOk result (λ o. o ≡ nearest_in (each_place what (scope_of scope.now))
        (map instr_tree list.now) None) }
{
    let mut best = None;
    for instr in list {
        let found = each_place(scope, alloc, what, instr)?;
        best = nearer_of(best, found);
    }
    Ok(best)
}

/// The nearest place in the instructions of a block.
fn list_place(
    scope: &Scope,
    alloc: Global,
    what: Site,
    list: &[Instr],
) -> Result<Option<Place>, AllocError>
    ensures { IfOk result (λ o. o
        ≡ list_place what (scope_of scope.now) (map instr_tree list.now)) }
{
    match what {
        Site::Each(each) => nearest_each(scope, alloc, each, list),
        Site::Label => label_place(alloc, list),
        Site::Range => range_place(alloc, list),
        Site::Nesting => nesting_place(alloc, list),
    }
}

/// The nearest place in a block.
fn body_place(scope: &Scope, alloc: Global, what: Site) -> Result<Option<Place>, AllocError>
    ensures { IfOk result (λ o. o ≡ body_place what (scope_of scope.now)) }
{
    match &scope.entry.block.body {
        Body::Stl(list) => list_place(scope, alloc, what, list.as_slice()),
        Body::Scl(_) => Ok(None),
        Body::Starts(_) => Ok(None),
    }
}

/// The nearest place in the blocks of a project.
fn nearest_site<'p>(
    alloc: Global,
    tables: &'p Tables<'p>,
    what: Site,
) -> Result<Option<Place>, AllocError>
    ensures { IfOk result (λ o. o ≡ project_place what (project_of tables.now)) }
{
    let mut best = None;
    for entry in tables.entries() {
        let scope = Scope { tables, entry };
        let found = body_place(&scope, alloc, what)?;
        best = nearer_of(best, found);
    }
    Ok(best)
}

/// The least place of a jump's label that is missing in its block, or of a label that is doubled.
pub fn wrong_label<'p>(alloc: Global, tables: &'p Tables<'p>) -> Result<Option<Place>, AllocError>
    ensures { IfOk result (IsNearest (IsWrongLabel (project_of tables.now))) }
{
    nearest_site(alloc, tables, Site::Label)
}

/// The least place at which the range of a backward jump is entered elsewhere than at its label, or crosses another.
pub fn wrong_range<'p>(alloc: Global, tables: &'p Tables<'p>) -> Result<Option<Place>, AllocError>
    ensures { IfOk result (IsNearest (IsWrongRange (project_of tables.now))) }
{
    nearest_site(alloc, tables, Site::Range)
}

/// The least place of a nesting that is too deep, isn't closed or opened, or of what may not stand inside one.
pub fn wrong_nesting<'p>(alloc: Global, tables: &'p Tables<'p>) -> Result<Option<Place>, AllocError>
    ensures { IfOk result (IsNearest (IsWrongNesting (project_of tables.now))) }
{
    nearest_site(alloc, tables, Site::Nesting)
}

/// The least place of an operand or a literal that its instruction doesn't take.
pub fn refused_operand_or_literal<'p>(
    alloc: Global,
    tables: &'p Tables<'p>,
) -> Result<Option<Place>, AllocError>
    ensures { IfOk result (IsNearest (IsRefused (project_of tables.now))) }
{
    nearest_site(alloc, tables, Site::Each(Each::Refused))
}

/// The least place of a literal behind an instruction that is outside its type.
pub fn outside_behind<'p>(
    alloc: Global,
    tables: &'p Tables<'p>,
) -> Result<Option<Place>, AllocError>
    ensures { IfOk result (IsNearest (IsOutsideBehind (project_of tables.now))) }
{
    nearest_site(alloc, tables, Site::Each(Each::Outside))
}
