//! A block of a project whose names are found.
ghost use Rattle.std.specs.Prelude.{◌≡◌, ◌+◌, ◌≤◌, ◌↔◌, IfOk, IfErr, IfSome, Err, Some, option_map, slice_get};
ghost use Rattle.pv_mean.specs.declared.count.TheConstants.{BEYOND};
ghost use Rattle.pv_resolve.specs.declared.fault.ResolveFault.TheVariants.{TooLarge};
ghost use Rattle.pv_tree.specs.View.{block_tree};
ghost use Rattle.pv_tree.specs.Scopes.{first_block};
ghost use Rattle.pv_names.specs.Entries.{block_of};
ghost use Rattle.pv_names.specs.Tables.{blocks_of, project_of};
ghost use Rattle.pv_mean.specs.Layout as layout;
ghost use Rattle.pv_mean.specs.Sources.{Source};
ghost use Rattle.pv_mean.specs.Sized.{sized_project};
ghost use Rattle.pv_bytes.specs.Lent.{bytes_tree};
ghost use Rattle.pv_resolve.specs.Contexts.{IsContext, block_in};
ghost use Rattle.pv_resolve.specs.Firsts.{AreFirsts};

use crate::fault::ResolveFault;
use crate::firsts::FirstCells;
use pv_bytes::AreaBytes;
use pv_mean::{BEYOND, Sizes};
use pv_names::{Entry, Scope};
use pv_tree::Block;

/// A block of a project, and where its cells lie.
#[derive(Clone, Copy)]
pub struct Context<'p> {
    pub scope: Scope<'p>,
    /// Those of the project.
    pub sizes: &'p Sizes<'p>,
    /// The number of the first cell of data blocks, behind the entered block's.
    pub data_first: u32,
    /// The number of the first cell of the areas' bytes, behind the data blocks'.
    pub bytes_first: u32,
    pub bytes: AreaBytes<'p>,
    /// The number of the block among those of the project, if that is known.
    pub number: Option<usize>,
    /// Where the variables of the project's blocks lie, if that was found; else each name takes a walk along them.
    pub firsts: Option<&'p FirstCells>,
}

/// The context of a block of a project that is entered at a block, where these bytes have cells. It is too large exactly where the
/// entered block and the data blocks have more cells than a table may have.
pub fn context_of<'p>(
    scope: Scope<'p>,
    sizes: &'p Sizes<'p>,
    entered: &Block,
    bytes: AreaBytes<'p>,
) -> Result<Context<'p>, ResolveFault>
    ensures context { (source : Source) → project_of scope.entry.tables.now ≡ source.project
        → sized_project sizes.now ≡ source.project → block_tree entered.now ≡ source.entry
        → bytes_tree bytes.entry ≡ source.bytes → IfOk result (λ c. IsContext c source) }
    ensures scope { IfOk result (λ c. c.scope ≡ scope.entry) }
    ensures too_large { (result ≡ Err TooLarge)
        ↔ (BEYOND ≤ layout.entry_size (sized_project sizes.now) (block_tree entered.now)
        + layout.data_size (sized_project sizes.now) (sized_project sizes.now).blocks) }
    ensures fault { IfErr result (λ e. e ≡ TooLarge) }
{
    let data_first = sizes.of_entry(entered);
    let behind = sizes.of_data_blocks();
    let bytes_first = data_first + behind;
    if bytes_first >= BEYOND {
        return Err(ResolveFault::TooLarge);
    }
    Ok(Context {
        scope,
        sizes,
        data_first,
        bytes_first,
        bytes,
        number: None,
        firsts: None,
    })
}

/// The same context, where the variables of its project's blocks lie so.
pub fn with_firsts<'p>(context: Context<'p>, firsts: &'p FirstCells) -> Context<'p>
    ensures is { (source : Source) → IsContext context.entry source
        → AreFirsts firsts.now source.project → IsContext result source }
    ensures scope { result.scope ≡ context.entry.scope }
    ensures block { block_in result ≡ block_in context.entry }
{
    Context {
        firsts: Some(firsts),
        ..context
    }
}

/// The context of the project's block of this number, if there is one.
pub fn context_at<'p>(context: Context<'p>, number: usize) -> Option<Context<'p>>
    ensures is { (source : Source) → IsContext context.entry source
        → IfSome result (λ c. IsContext c source) }
    ensures block { option_map block_in result
        ≡ slice_get (blocks_of context.entry.scope.tables.now) number }
{
    match context.scope.tables.entries().get(number) {
        Some(entry) => Some(Context {
            scope: Scope {
                tables: context.scope.tables,
                entry,
            },
            number: Some(number),
            ..context
        }),
        None => None,
    }
}

/// The context of another block of the project, which is the first of its name.
pub fn context_in<'p>(context: Context<'p>, entry: &'p Entry<'p>) -> Context<'p>
    ensures is { (source : Source) → IsContext context.entry source
        → first_block source.project.blocks (block_of entry.now).name.key
        ≡ Some (block_of entry.now) → IsContext result source }
    ensures block { block_in result ≡ block_of entry.now }
{
    Context {
        scope: Scope {
            tables: context.scope.tables,
            entry,
        },
        number: context.scope.tables.number_of(&entry.block().name),
        ..context
    }
}
