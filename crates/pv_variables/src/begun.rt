//! Where names begin, and steps behind them, as the definitions have them apart from the activation.
ghost use Rattle.std.specs.Prelude.{◌≡◌, ◌<◌, ◌+◌, ◌*◌, ◌^◌, ◌-ℤ◌, ◌&&◌, ℕ, true, int_le, unsigned_abs, IfOk, IfSome, IsOk, IsOkAnd};
ghost use Rattle.pv_tree.specs.Scopes.{ProjectTree};
ghost use Rattle.pv_mean.specs.Sources.{Source};
ghost use Rattle.pv_resolve.specs.declared.begin.Begin.TheVariants.{In};
ghost use Rattle.pv_tree.specs.Rules.{KeepsRules};
ghost use Rattle.pv_resolve.specs.Begins.{HasSpot, begin_at};
ghost use Rattle.pv_resolve.specs.Rooms.{HasRoom, FitsRoot, BeginsRoomy};
ghost use Rattle.pv_resolve.specs.Contexts.{IsContext, block_in};
ghost use Rattle.pv_variables.specs.Begun.{origin_of, origin_moved, code_element, IsElements, ElementsLie};
ghost use Rattle.pv_variables.specs.Origins as origins;

use crate::count::size_of;
use pv_eval::Spot;
use pv_names::{Held, level_of};
use pv_resolve::{Begin, Context, LaidLevel, ResolveFault, Where};
use pv_tree::Root;
use pv_types::Name;

/// The bounds of an array, how many cells an element takes, and where the first one lies.
#[derive(Clone, Copy)]
pub struct Elements<'p> {
    pub low: i128,
    pub high: i128,
    pub stride: u32,
    pub head: Begin<'p>,
}

/// What an operand begins with.
pub fn placed<'p>(context: &Context<'p>, root: &Root) -> Result<Begin<'p>, ResolveFault>
    ensures value { (source : Source) → IsContext context.now source
        → IfOk result (λ b. origin_of b ≡ origins.placed source (block_in context.now) root.now) }
    ensures spot { IfOk result HasSpot }
    ensures room { (source : Source) → IsContext context.now source
        → HasRoom source (block_in context.now) → FitsRoot root.now
        → IsOkAnd result (λ b. BeginsRoomy source.project 0 (begin_at b 0)) }
{
    context.root(root)
}

/// The field of this name behind it.
pub fn field_placed<'p>(
    context: &Context<'p>,
    begin: Begin<'p>,
    name: &Name,
) -> Result<Begin<'p>, ResolveFault>
    ensures value { (source : Source) → IsContext context.now source
        → IfOk result (λ b. origin_of b
        ≡ origins.field_placed source.project (origin_of begin.entry) name.now.key) }
    ensures spot { IfOk result HasSpot }
    ensures room { (source : Source) (more : ℕ) → IsContext context.now source
        → KeepsRules source.project → BeginsRoomy source.project more (begin_at begin.entry 0)
        → IsOkAnd result (λ b. BeginsRoomy source.project more (begin_at b 0)) }
{
    context.field(begin, name)
}

/// The elements of what is laid out, if it is an array.
fn elements_in<'p>(
    context: &Context<'p>,
    part: Where,
    laid: LaidLevel<'p>,
) -> Result<Option<Elements<'p>>, ResolveFault>
    ensures value { (source : Source) → IsContext context.now source
        → IfOk result (IsElements source.project (origins.elements_placed (origin_of (In part laid.entry)))) }
    ensures spot { IfOk result (λ o. IfSome o (λ e. HasSpot e.head)) }
    ensures room { (source : Source) (more : ℕ) → IsContext context.now source
        → BeginsRoomy source.project more (begin_at (In part laid.entry) 0)
        → IsOkAnd result (λ o. IfSome o (ElementsLie source.project more)) }
{
    match laid.ty {
        Held::Array { low, high, of, .. } => {
            let stride = size_of(context, of)?;
            let ty = level_of(of);
            let first = laid.first;
            Ok(Some(Elements {
                low,
                high,
                stride,
                head: Begin::In(part, LaidLevel { ty, first }),
            }))
        }
        Held::Plain(_) | Held::Struct(_) | Held::Named(..) | Held::Unread => Ok(None),
    }
}

/// The elements of what begins there, if it is an array.
pub fn elements_placed<'p>(
    context: &Context<'p>,
    begin: Begin<'p>,
) -> Result<Option<Elements<'p>>, ResolveFault>
    ensures value { (source : Source) → IsContext context.now source
        → IfOk result (IsElements source.project (origins.elements_placed (origin_of begin.entry))) }
    ensures spot { IfOk result (λ o. IfSome o (λ e. HasSpot e.head)) }
    ensures room { (source : Source) (more : ℕ) → IsContext context.now source
        → BeginsRoomy source.project more (begin_at begin.entry 0)
        → IsOkAnd result (λ o. IfSome o (ElementsLie source.project more)) }
{
    match begin {
        Begin::In(part, laid) => elements_in(context, part, laid),
        Begin::At(_) => Ok(None),
    }
}

/// So many cells further, where 32 bits hold the number.
fn moved(first: u32, steps: u128, stride: u32) -> Result<u32, ResolveFault>
    ensures value { IfOk result (λ n. n ≡ first + steps * stride) }
    ensures room { steps < 2 ^ 32 → first + steps * stride < 2 ^ 32 → IsOk result }
{
    let Ok(few) = u32::try_from(steps) else {
        return Err(ResolveFault::TooLarge);
    };
    let Some(behind) = few.checked_mul(stride) else {
        return Err(ResolveFault::TooLarge);
    };
    match first.checked_add(behind) {
        Some(n) => Ok(n),
        None => Err(ResolveFault::TooLarge),
    }
}

/// The element at an index within the bounds.
fn element_in<'p>(elements: &Elements<'p>, index: &i128) -> Result<Begin<'p>, ResolveFault>
    ensures value { IfOk result (λ b. origin_of b
        ≡ origin_moved (unsigned_abs (index.now -ℤ elements.now.low) * elements.now.stride) (origin_of elements.now.head)) }
    ensures spot { HasSpot elements.now.head → IfOk result HasSpot }
    ensures room { (project : ProjectTree) (more : ℕ) → ElementsLie project more elements.now
        → int_le elements.now.low index.now && int_le index.now elements.now.high ≡ true
        → IsOkAnd result (λ b. BeginsRoomy project more (begin_at b 0)) }
{
    match elements.head {
        Begin::In(part, laid) => {
            let first = moved(laid.first, index.abs_diff(elements.low), elements.stride)?;
            let ty = laid.ty;
            Ok(Begin::In(part, LaidLevel { ty, first }))
        }
        Begin::At(spot) => Ok(Begin::At(spot)),
    }
}

/// Whether a number lies between bounds.
fn lies_between(low: &i128, index: &i128, high: &i128) -> bool
    ensures { result ≡ int_le low.now index.now && int_le index.now high.now }
{
    *low <= *index && *index <= *high
}

/// The element of an array at an index, where it lies within the bounds.
fn element_among<'p>(elements: &Elements<'p>, index: &i128) -> Result<Begin<'p>, ResolveFault>
    ensures value { IfOk result (λ b. origin_of b ≡ code_element elements.now index.now) }
    ensures spot { HasSpot elements.now.head → IfOk result HasSpot }
    ensures room { (project : ProjectTree) (more : ℕ) → ElementsLie project more elements.now
        → IsOkAnd result (λ b. BeginsRoomy project more (begin_at b 0)) }
{
    if lies_between(&elements.low, index, &elements.high) {
        element_in(elements, index)
    } else {
        Ok(Begin::At(Spot::Nowhere))
    }
}

/// The same where there may be no array.
fn element_of<'p>(found: Option<Elements<'p>>, index: &i128) -> Result<Begin<'p>, ResolveFault>
    ensures value { (project : ProjectTree) (o : origins.Origin) → IsElements project (origins.elements_placed o) found.entry
        → IfOk result (λ b. origin_of b ≡ origins.element_placed project o index.now) }
    ensures spot { IfSome found.entry (λ e. HasSpot e.head) → IfOk result HasSpot }
    ensures room { (project : ProjectTree) (more : ℕ) → IfSome found.entry (ElementsLie project more)
        → IsOkAnd result (λ b. BeginsRoomy project more (begin_at b 0)) }
{
    match found {
        Some(elements) => element_among(&elements, index),
        None => Ok(Begin::At(Spot::Nowhere)),
    }
}

/// The element at an index that is known.
pub fn element_placed<'p>(
    context: &Context<'p>,
    begin: Begin<'p>,
    index: &i128,
) -> Result<Begin<'p>, ResolveFault>
    ensures value { (source : Source) → IsContext context.now source
        → IfOk result (λ b. origin_of b
        ≡ origins.element_placed source.project (origin_of begin.entry) index.now) }
    ensures spot { IfOk result HasSpot }
    ensures room { (source : Source) (more : ℕ) → IsContext context.now source
        → BeginsRoomy source.project more (begin_at begin.entry 0)
        → IsOkAnd result (λ b. BeginsRoomy source.project more (begin_at b 0)) }
{
    let found = elements_placed(context, begin)?;
    element_of(found, index)
}
