//! Contract tests of expressions, operands, reads and writes.
ghost use Rattle.std.specs.Prelude.{◌≡◌, IfOk, OnOk};
ghost use Rattle.pv_tree.specs.View.{expr_tree, operand_tree};
ghost use Rattle.pv_names.specs.Sorts.{want_tree};
ghost use Rattle.pv_mean.specs.Sources.{Source};
ghost use Rattle.pv_resolve.specs.Contexts.{block_in};
ghost use Rattle.pv_terms.specs.Pushed.{IsTable};
ghost use Rattle.pv_variables.specs.Begun.{origin_of};
ghost use Rattle.pv_access.specs.Accesses as accesses;
ghost use Rattle.pv_access.specs.Given.{IsWriting};
ghost use Rattle.pv_access.specs.Pushed.{Sets};
ghost use Rattle.pv_lower.specs.Lowered as lowered;
ghost use Rattle.pv_lower.specs.Lowering.{IsLowering, Lowers, IsAccess, Accesses};
ghost use Rattle.pv_lower.specs.Storages as storages;

use pv_access::{Check, Storage, Writing};
use pv_flow::{Node, Set};
use pv_lower::{Access, LowerFault, Lowering};
use pv_names::Want;
use pv_place::Place;
use pv_tree::{Expr, Operand};
use pv_word::Ty;
use std::alloc::Global;

/// [`pv_lower::Lowering::expression`].
pub fn expression(
    lowering: &Lowering,
    alloc: Global,
    nodes: &mut Vec<Node>,
    checks: &mut Vec<Check>,
    want: Want,
    e: &Expr,
) -> Result<u32, LowerFault>
    ensures { (source : Source) → IsLowering lowering.now source → IsTable nodes.old.items
        → IfOk result (λ n. Lowers nodes.old.items nodes.new.items checks.old.items checks.new.items n
        (lowered.lowered source (block_in lowering.now.context) (want_tree want) (expr_tree e.now))) }
{
    lowering.expression(alloc, nodes, checks, want, e)
}

/// [`pv_lower::Lowering::expression_as`].
pub fn expression_as(
    lowering: &Lowering,
    alloc: Global,
    nodes: &mut Vec<Node>,
    checks: &mut Vec<Check>,
    ty: Ty,
    e: &Expr,
) -> Result<u32, LowerFault>
    ensures { (source : Source) → IsLowering lowering.now source → IsTable nodes.old.items
        → IfOk result (λ n. Lowers nodes.old.items nodes.new.items checks.old.items checks.new.items n
        (lowered.lowered_as source (block_in lowering.now.context) ty (expr_tree e.now))) }
{
    lowering.expression_as(alloc, nodes, checks, ty, e)
}

/// [`pv_lower::Lowering::operand`].
pub fn operand<'p>(
    lowering: &Lowering<'_, 'p>,
    alloc: Global,
    nodes: &mut Vec<Node>,
    checks: &mut Vec<Check>,
    operand: &Operand,
) -> Result<Access<'p>, LowerFault>
    ensures { (source : Source) → IsLowering lowering.now source → IsTable nodes.old.items
        → IfOk result (λ a. Accesses nodes.old.items nodes.new.items checks.old.items checks.new.items a
        (lowered.accessed source (block_in lowering.now.context) (operand_tree operand.now))) }
{
    lowering.operand(alloc, nodes, checks, operand)
}

/// [`pv_lower::Lowering::storage`].
pub fn storage<'p>(lowering: &Lowering<'_, 'p>, access: &Access<'p>) -> Result<Storage, LowerFault>
    ensures { (source : Source) → IsLowering lowering.now source
        → IfOk result (λ s. s ≡ storages.storage_at source (block_in lowering.now.context) (origin_of access.now.begin)) }
{
    lowering.storage(access)
}

/// [`pv_lower::Lowering::reads`].
pub fn reads<'p>(
    lowering: &Lowering<'_, 'p>,
    nodes: &mut Vec<Node>,
    checks: &mut Vec<Check>,
    access: &Access<'p>,
    ty: Ty,
    place: Place,
) -> Result<u32, LowerFault>
    ensures { (source : Source) (a : storages.Access) → IsLowering lowering.now source → IsTable nodes.old.items
        → IsAccess nodes.old.items access.now a
        → IfOk result (λ n. Lowers nodes.old.items nodes.new.items checks.old.items checks.new.items n
        (lowered.read_at source (block_in lowering.now.context) ty a place)) }
{
    lowering.reads(nodes, checks, access, ty, place)
}

/// [`pv_lower::Lowering::writes`].
pub fn writes<'p>(
    lowering: &Lowering<'_, 'p>,
    alloc: Global,
    nodes: &mut Vec<Node>,
    sets: &mut Vec<Set>,
    access: &Access<'p>,
    writing: Writing,
) -> Result<(), LowerFault>
    ensures { (source : Source) (a : storages.Access) (w : accesses.Writing) → IsLowering lowering.now source
        → IsTable nodes.old.items → IsAccess nodes.old.items access.now a → IsWriting nodes.old.items writing w
        → OnOk result (Sets nodes.old.items nodes.new.items sets.old.items sets.new.items
        (accesses.write_sets (storages.storage_at source (block_in lowering.now.context) a.origin) a.moves w)) }
{
    lowering.writes(alloc, nodes, sets, access, writing)
}
