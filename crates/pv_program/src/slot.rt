//! Cells of parameters, and the first cells of instances, by where names begin.
ghost use Rattle.std.specs.Prelude.{◌≡◌, ◌<◌, ◌^◌, ℕ, IfOk, IsOk};
ghost use Rattle.pv_types.specs.Tree.{TypeTree, plain};
ghost use Rattle.pv_mean.specs.Activations as act;
ghost use Rattle.pv_run.specs.Code.{slot_spot, first_of};
ghost use Rattle.pv_tree.specs.Scopes.{ProjectTree};
ghost use Rattle.pv_resolve.specs.Begins.{begin_at, begins_in};
ghost use Rattle.pv_resolve.specs.Rooms.{BeginsRoomy};
ghost use Rattle.pv_program.specs.Led.{IsSlotted, HasSlot};

use pv_eval::Spot;
use pv_names::Held;
use pv_resolve::{Begin, ResolveFault, Where};
use pv_run::{First, Slot};
use pv_word::Ty;

/// A cell of a simple type. A parameter's isn't one of a data block.
fn cell(part: Where, ty: Ty, first: u32) -> Result<Slot, ResolveFault>
    ensures spot { (begin : ℕ) → IfOk result (λ s. slot_spot begin s
        ≡ act.spot_of (begins_in part begin (record { ty = plain ty; first = first }))) }
    ensures room { IsSlotted part → IsOk result }
{
    match part {
        Where::Own => Ok(Slot::Own(first)),
        Where::Brief => Ok(Slot::Brief(ty, first)),
        Where::Visible => Err(ResolveFault::TooLarge),
    }
}

/// The cell of a parameter by where its name begins. A whole array, structure or instance has none.
pub(crate) fn slot_of(begin: Begin) -> Result<Slot, ResolveFault>
    ensures spot { (first : ℕ) → IfOk result (λ s. slot_spot first s
        ≡ act.spot_of (begin_at begin.entry first)) }
    ensures room { HasSlot begin.entry → IsOk result }
{
    match begin {
        Begin::In(part, laid) => match laid.ty {
            Held::Plain(ty) => cell(part, ty, laid.first),
            Held::Array { .. } | Held::Struct(_) | Held::Named(..) | Held::Unread => {
                Ok(Slot::Nowhere)
            }
        },
        Begin::At(Spot::Nowhere) => Ok(Slot::Nowhere),
        Begin::At(
            Spot::Visible(_) | Spot::Brief(..) | Spot::Bit(..) | Spot::Bytes(..) | Spot::Fixed(_),
        ) => Err(ResolveFault::TooLarge),
    }
}

/// A number of 16 bits.
fn short(n: u32) -> Result<u16, ResolveFault>
    ensures value { IfOk result (λ v. v ≡ n) }
    ensures short { n < 2 ^ 16 → IsOk result }
{
    match u16::try_from(n) {
        Ok(v) => Ok(v),
        Err(_) => Err(ResolveFault::TooLarge),
    }
}

/// The first cell of what is laid out from this number on.
fn first_among(part: Where, n: u32) -> Result<First, ResolveFault>
    ensures first { (k : ℕ) (ty : TypeTree) → IfOk result (λ f. first_of k f
        ≡ act.first_visible (begins_in part k (record { ty = ty; first = n }))) }
    ensures short { n < 2 ^ 16 → IsOk result }
{
    match part {
        Where::Own => {
            let own = short(n)?;
            Ok(First::Own(own))
        }
        Where::Visible => {
            let at = short(n)?;
            Ok(First::At(at))
        }
        Where::Brief => Ok(First::At(0)),
    }
}

/// The first cell of an instance by where its name begins. What has no visible cells has the number 0.
pub(crate) fn first_of(begin: Begin) -> Result<First, ResolveFault>
    ensures first { (k : ℕ) → IfOk result (λ f. first_of k f
        ≡ act.first_visible (begin_at begin.entry k)) }
    ensures room { (project : ProjectTree) → BeginsRoomy project 0 (begin_at begin.entry 0)
        → IsOk result }
{
    match begin {
        Begin::In(part, laid) => first_among(part, laid.first),
        Begin::At(_) => Ok(First::At(0)),
    }
}
