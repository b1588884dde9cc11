//! What begins somewhere, as variables.
ghost use Rattle.std.specs.Prelude.{◌≡◌, IfOk};
ghost use Rattle.pv_types.specs.Tree.{plain};
ghost use Rattle.pv_tree.specs.Tree.{BlockTree};
ghost use Rattle.pv_mean.specs.Layout.{Laid};
ghost use Rattle.pv_mean.specs.Sources.{Source};
ghost use Rattle.pv_eval.specs.Operands.{spot_of};
ghost use Rattle.pv_resolve.specs.Laying.{laid_tree};
ghost use Rattle.pv_variables.specs.Begun.{origin_in, origin_of};
ghost use Rattle.pv_variables.specs.Numbered.{AreNumbers};
ghost use Rattle.pv_variables.specs.Variables as variables;
ghost use Rattle.pv_lower.specs.Storages as storages;

use crate::fault::LowerFault;
use pv_access::Storage;
use pv_eval::Spot;
use pv_names::Held;
use pv_resolve::{Begin, LaidLevel, Where};
use pv_variables::Numbers;
use pv_word::Ty;

/// The variable of a visible cell of a data block or an area, where 32 bits hold its number.
fn table_variable(numbers: &Numbers, cell: u32) -> Result<u32, LowerFault>
    ensures { (source : Source) (block : BlockTree) → AreNumbers numbers.now source block
        → IfOk result (λ n. n ≡ variables.table_variable source block cell) }
{
    match numbers
        .bound
        .checked_add(cell.saturating_sub(numbers.entry))
    {
        Some(n) => Ok(n),
        None => Err(LowerFault::TooLarge),
    }
}

/// The variable of a brief cell. By the rules the block has each that a name or a step leads to.
fn brief_variable(numbers: &Numbers, cell: usize) -> Result<u32, LowerFault>
    ensures { (source : Source) (block : BlockTree) → AreNumbers numbers.now source block
        → IfOk result (λ n. n ≡ variables.brief_variable source block cell) }
{
    match numbers.briefs.as_slice().get(cell) {
        Some(n) => Ok(*n),
        None => Err(LowerFault::TooLarge),
    }
}

/// A cell of a simple type.
fn cell_in(numbers: &Numbers, part: Where, ty: Ty, first: u32) -> Result<Storage, LowerFault>
    ensures { (source : Source) (block : BlockTree) (l : Laid) → AreNumbers numbers.now source block
        → l.ty ≡ plain ty → l.first ≡ first
        → IfOk result (λ s. s ≡ storages.storage_at source block (origin_in part l)) }
{
    match part {
        Where::Own => Ok(Storage::Cell(ty, first)),
        Where::Visible => Ok(Storage::Cell(ty, table_variable(numbers, first)?)),
        Where::Brief => Ok(Storage::Brief(ty, brief_variable(numbers, first as usize)?)),
    }
}

/// A whole array, structure or instance is held by no variable.
fn part_in(numbers: &Numbers, part: Where, laid: LaidLevel) -> Result<Storage, LowerFault>
    ensures { (source : Source) (block : BlockTree) → AreNumbers numbers.now source block
        → IfOk result (λ s. s ≡ storages.storage_at source block (origin_in part (laid_tree laid.entry))) }
{
    match laid.ty {
        Held::Plain(ty) => cell_in(numbers, part, ty, laid.first),
        Held::Array { .. } | Held::Struct(_) | Held::Named(..) | Held::Unread => {
            Ok(Storage::Nowhere)
        }
    }
}

/// What is held at one spot.
fn spot_in(numbers: &Numbers, spot: Spot) -> Result<Storage, LowerFault>
    ensures { (source : Source) (block : BlockTree) → AreNumbers numbers.now source block
        → IfOk result (λ s. s ≡ storages.storage_at_spot source block (spot_of spot)) }
{
    match spot {
        Spot::Visible(_) | Spot::Nowhere => Ok(Storage::Nowhere),
        Spot::Brief(ty, cell) => Ok(Storage::Brief(ty, brief_variable(numbers, cell)?)),
        Spot::Bit(byte, bit) => Ok(Storage::Bit(table_variable(numbers, byte)?, bit)),
        Spot::Bytes(ty, byte, count) => {
            Ok(Storage::Bytes(ty, table_variable(numbers, byte)?, count))
        }
        Spot::Fixed(v) => Ok(Storage::Fixed(i128::from(v))),
    }
}

/// What is held where something begins.
pub(crate) fn storage_at(numbers: &Numbers, begin: Begin) -> Result<Storage, LowerFault>
    ensures { (source : Source) (block : BlockTree) → AreNumbers numbers.now source block
        → IfOk result (λ s. s ≡ storages.storage_at source block (origin_of begin.entry)) }
{
    match begin {
        Begin::In(part, laid) => part_in(numbers, part, laid),
        Begin::At(spot) => spot_in(numbers, spot),
    }
}
