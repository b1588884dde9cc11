//! Numbers of cells and of variables, exact or refused.
ghost use Rattle.std.specs.Prelude.{◌≡◌, ◌<◌, ◌+◌, ◌*◌, ◌^◌, IfOk, IsOk, not, if◌then◌else◌};
ghost use Rattle.pv_mean.specs.declared.count.TheConstants.{BEYOND};
ghost use Rattle.pv_types.specs.View.{type_tree};
ghost use Rattle.pv_tree.specs.View.{block_tree};
ghost use Rattle.pv_mean.specs.Layout as layout;
ghost use Rattle.pv_mean.specs.Layout.{size_in};
ghost use Rattle.pv_mean.specs.Frames.{is_brief, visible_len};
ghost use Rattle.pv_mean.specs.Sources.{Source};
ghost use Rattle.pv_resolve.specs.Contexts.{IsContext};

use pv_mean::{BEYOND, Cell};
use pv_place::Role;
use pv_resolve::{Context, ResolveFault};
use pv_tree::Block;
use pv_types::DeclType;

/// The sum, where 32 bits hold it.
pub(crate) fn added(a: u32, b: u32) -> Result<u32, ResolveFault>
    ensures value { IfOk result (λ n. n ≡ a + b) }
    ensures room { a + b < 2 ^ 32 → IsOk result }
{
    match a.checked_add(b) {
        Some(n) => Ok(n),
        None => Err(ResolveFault::TooLarge),
    }
}

/// Behind so many cells, each with its 'set'.
pub(crate) fn behind(n: u32, count: u32) -> Result<u32, ResolveFault>
    ensures value { IfOk result (λ m. m ≡ n + 2 * count) }
    ensures room { n + 2 * count < 2 ^ 32 → IsOk result }
{
    let once = added(n, count)?;
    added(once, count)
}

/// How many cells a type has.
pub(crate) fn size_of(context: &Context, ty: &DeclType) -> Result<u32, ResolveFault>
    ensures value { (source : Source) → IsContext context.now source
        → IfOk result (λ n. n ≡ size_in source.project (type_tree ty.now)) }
    ensures room { (source : Source) → IsContext context.now source
        → size_in source.project (type_tree ty.now) < BEYOND → IsOk result }
{
    let size = context.sizes.of_type(ty);
    if size >= BEYOND {
        return Err(ResolveFault::TooLarge);
    }
    Ok(size)
}

/// How many visible cells a block has of its own, where it is entered.
pub(crate) fn entry_size(context: &Context, block: &Block) -> Result<u32, ResolveFault>
    ensures value { (source : Source) → IsContext context.now source
        → IfOk result (λ n. n ≡ layout.entry_size source.project (block_tree block.now)) }
    ensures room { (source : Source) → IsContext context.now source
        → layout.entry_size source.project (block_tree block.now) < BEYOND → IsOk result }
{
    let own = context.sizes.of_entry(block);
    if own >= BEYOND {
        return Err(ResolveFault::TooLarge);
    }
    Ok(own)
}

/// 1 of a visible cell, 0 of a brief one.
fn shown(role: Role) -> u32
    ensures { result ≡ (if not (is_brief role) then 1 else 0) }
{
    match role {
        Role::Input | Role::Param | Role::Kept => 1,
        Role::Brief => 0,
    }
}

/// How many of the cells are visible.
pub(crate) fn visible_in(cells: &[Cell]) -> Result<u32, ResolveFault>
    ensures value { IfOk result (λ n. n ≡ visible_len cells.now) }
    ensures room { visible_len cells.now < 2 ^ 32 → IsOk result }
{
    let mut n = 0;
    for cell in cells {
        n = added(n, shown(cell.role))?;
    }
    Ok(n)
}
