//! What is laid out, level by level, with the exact number of its first cell.
ghost use Rattle.std.specs.Prelude.{◌≡◌, ◌<◌, Option, IfOk, IsOk, IfSome, option_map};
ghost use Rattle.pv_mean.specs.declared.count.TheConstants.{BEYOND};
ghost use Rattle.pv_mean.specs.Layout as layout;
ghost use Rattle.pv_mean.specs.LaidOut as counted;
ghost use Rattle.pv_resolve.specs.Laying.{laid_tree};

use crate::fault::ResolveFault;
use pv_mean::{BEYOND, Laid};
use pv_names::{Held, level_of};

/// One level of a type, and the number of the cell from which on it is laid out.
#[derive(Clone, Copy)]
pub struct LaidLevel<'p> {
    pub ty: Held<'p>,
    pub first: u32,
}

/// What was found, where its number is exact.
fn exact_one(found: Laid) -> Result<LaidLevel, ResolveFault>
    ensures value { (l : layout.Laid) → counted.laid_tree found.entry ≡ counted.capped_laid l
        → IfOk result (λ laid. laid_tree laid ≡ l) }
    ensures near { (l : layout.Laid) → counted.laid_tree found.entry ≡ counted.capped_laid l
        → l.first < BEYOND → IsOk result }
{
    if found.first >= BEYOND {
        return Err(ResolveFault::TooLarge);
    }
    let ty = level_of(found.ty);
    let first = found.first;
    Ok(LaidLevel { ty, first })
}

/// The same where it may be that nothing was found.
pub(crate) fn exact(found: Option<Laid>) -> Result<Option<LaidLevel>, ResolveFault>
    ensures value { (o : Option layout.Laid)
        → option_map counted.laid_tree found.entry ≡ option_map counted.capped_laid o
        → IfOk result (λ laid. option_map laid_tree laid ≡ o) }
    ensures near { (o : Option layout.Laid)
        → option_map counted.laid_tree found.entry ≡ option_map counted.capped_laid o
        → IfSome o (λ l. l.first < BEYOND) → IsOk result }
{
    match found {
        Some(found) => {
            let laid = exact_one(found)?;
            Ok(Some(laid))
        }
        None => Ok(None),
    }
}
