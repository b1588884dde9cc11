//! The rules that a project breaks in its code, in the values of data blocks or in its declarations: of each the least place, by those
//! of its code and of these values.
ghost use Rattle.std.specs.Prelude.{◌≡◌, IfOk, map};
ghost use Rattle.pv_tree.specs.Scopes.{ProjectTree};
ghost use Rattle.pv_tree.specs.View.{block_tree};
ghost use Rattle.pv_tree.specs.Rules.Addresses.{IsWrongAddress};
ghost use Rattle.pv_tree.specs.Rules.Arrays.{IsBeyondBounds};
ghost use Rattle.pv_tree.specs.Rules.Misfits.{IsMisfit};
ghost use Rattle.pv_tree.specs.Rules.MissingNames.{IsMissingName};
ghost use Rattle.pv_tree.specs.Rules.OutOfRange.{IsOutOfRange};
ghost use Rattle.pv_names.specs.Tables.{project_of};
ghost use Rattle.pv_rules_code.specs.AreInCode.{AreInCode};
ghost use Rattle.pv_rules_decl.specs.ValueNears.{AreInValues};
ghost use Rattle.pv_rules_expr.specs.Nearest.{IsNearest};

use pv_names::Tables;
use pv_place::Place;
use pv_rules_code::CodeNear;
use pv_rules_decl::{ValueNear, misfit_start, misplaced_date, outside_start};
use pv_rules_expr::nearer_of;
use pv_rules_instr::outside_behind;
use pv_tree::Block;
use std::alloc::{AllocError, Global};

/// The least place of a name that isn't declared, or of a field that is missing.
pub(crate) fn missing_name(code: CodeNear, values: ValueNear) -> Option<Place>
    ensures { (project : ProjectTree) → AreInCode project code → AreInValues project values
        → IsNearest (IsMissingName project) result }
{
    let rest = nearer_of(values.starts.missing, values.indexes.missing);
    nearer_of(code.missing, rest)
}

/// The least place of a literal index beyond the bounds.
pub(crate) fn beyond_bounds(code: CodeNear, values: ValueNear) -> Option<Place>
    ensures { (project : ProjectTree) → AreInCode project code → AreInValues project values
        → IsNearest (IsBeyondBounds project) result }
{
    let rest = nearer_of(values.starts.beyond, values.indexes.beyond);
    nearer_of(code.beyond, rest)
}

/// The least place of an address that there isn't.
pub(crate) fn wrong_address(code: CodeNear, values: ValueNear) -> Option<Place>
    ensures { (project : ProjectTree) → AreInCode project code → AreInValues project values
        → IsNearest (IsWrongAddress project) result }
{
    nearer_of(code.address, values.indexes.address)
}

/// The least place of a literal outside its type.
pub(crate) fn out_of_range<'p>(
    alloc: Global,
    tables: &'p Tables<'p>,
    code: CodeNear,
    values: ValueNear,
) -> Result<Option<Place>, AllocError>
    requires code { AreInCode (project_of tables.now) code }
    requires values { AreInValues (project_of tables.now) values }
    ensures { IfOk result (IsNearest (IsOutOfRange (project_of tables.now))) }
{
    let start = outside_start(alloc, tables)?;
    let behind = outside_behind(alloc, tables)?;
    let given = nearer_of(values.starts.outside, values.indexes.outside);
    let starts = nearer_of(start, given);
    let rest = nearer_of(starts, behind);
    Ok(nearer_of(code.outside, rest))
}

/// The least place where types don't fit. The blocks are those of the tables.
pub(crate) fn misfit<'p>(
    alloc: Global,
    tables: &'p Tables<'p>,
    blocks: &[Block],
    code: CodeNear,
    values: ValueNear,
) -> Result<Option<Place>, AllocError>
    requires blocks { (project_of tables.now).blocks ≡ map block_tree blocks.now }
    requires code { AreInCode (project_of tables.now) code }
    requires values { AreInValues (project_of tables.now) values }
    ensures { IfOk result (IsNearest (IsMisfit (project_of tables.now))) }
{
    let date = misplaced_date(alloc, blocks)?;
    let start = misfit_start(alloc, tables)?;
    let index = nearer_of(values.indexes.misapplied, values.indexes.misused);
    let places = nearer_of(values.starts.misused, index);
    let given = nearer_of(values.starts.misfit, places);
    let starts = nearer_of(start, given);
    let declared = nearer_of(date, starts);
    let rest = nearer_of(code.misused, declared);
    Ok(nearer_of(code.misfit, rest))
}
