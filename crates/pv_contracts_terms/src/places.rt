//! Contract tests of where the cells of a block lie, and of its variables.
ghost use Rattle.std.specs.Prelude.{◌≡◌, ◌+◌, ◌-◌, ◌<◌, ℕ, Some, slice_get, map, length, IfOk, IfErr, IsOkAnd, IfSome};
ghost use Rattle.pv_types.specs.Named.{types_of};
ghost use Rattle.pv_tree.specs.NamedTypes.{types_of_project};
ghost use Rattle.pv_tree.specs.View.{block_tree};
ghost use Rattle.pv_tree.specs.Rules.{KeepsRules};
ghost use Rattle.pv_mean.specs.declared.count.TheConstants.{BEYOND};
ghost use Rattle.pv_mean.specs.Cells.{leaves_of_block};
ghost use Rattle.pv_mean.specs.Sources.{Source};
ghost use Rattle.pv_flow.specs.View.{variable_of};
ghost use Rattle.pv_resolve.specs.declared.fault.ResolveFault.TheVariants.{NoMemory};
ghost use Rattle.pv_resolve.specs.Begins.{HasSpot, begin_at};
ghost use Rattle.pv_resolve.specs.Contexts.{IsContext, block_in};
ghost use Rattle.pv_resolve.specs.Rooms.{HasRoom, FitsRoot, BeginsRoomy};
ghost use Rattle.pv_variables.specs.Begun.{origin_of, IsElements, ElementsLie};
ghost use Rattle.pv_variables.specs.Numbered.{AreNumbers};
ghost use Rattle.pv_variables.specs.Origins as origins;
ghost use Rattle.pv_variables.specs.Variables as variables;

use pv_flow::Variable;
use pv_mean::Cell;
use pv_resolve::{Begin, Context, ResolveFault};
use pv_tree::{Block, Root};
use pv_types::{Name, Types};
use pv_variables::{Elements, Numbers};
use std::alloc::Global;

/// [`pv_variables::placed`].
pub fn placed<'p>(context: &Context<'p>, root: &Root) -> Result<Begin<'p>, ResolveFault>
    ensures value { (source : Source) → IsContext context.now source
        → IfOk result (λ b. origin_of b ≡ origins.placed source (block_in context.now) root.now) }
    ensures spot { IfOk result HasSpot }
    ensures room { (source : Source) → IsContext context.now source
        → HasRoom source (block_in context.now) → FitsRoot root.now
        → IsOkAnd result (λ b. BeginsRoomy source.project 0 (begin_at b 0)) }
{
    pv_variables::placed(context, root)
}

/// [`pv_variables::field_placed`].
pub fn field_placed<'p>(
    context: &Context<'p>,
    begin: Begin<'p>,
    name: &Name,
) -> Result<Begin<'p>, ResolveFault>
    ensures value { (source : Source) → IsContext context.now source
        → IfOk result (λ b. origin_of b
        ≡ origins.field_placed source.project (origin_of begin.entry) name.now.key) }
    ensures spot { IfOk result HasSpot }
    ensures room { (source : Source) (more : ℕ) → IsContext context.now source
        → KeepsRules source.project → BeginsRoomy source.project more (begin_at begin.entry 0)
        → IsOkAnd result (λ b. BeginsRoomy source.project more (begin_at b 0)) }
{
    pv_variables::field_placed(context, begin, name)
}

/// [`pv_variables::elements_placed`].
pub fn elements_placed<'p>(
    context: &Context<'p>,
    begin: Begin<'p>,
) -> Result<Option<Elements<'p>>, ResolveFault>
    ensures value { (source : Source) → IsContext context.now source
        → IfOk result (IsElements source.project (origins.elements_placed (origin_of begin.entry))) }
    ensures spot { IfOk result (λ o. IfSome o (λ e. HasSpot e.head)) }
    ensures room { (source : Source) (more : ℕ) → IsContext context.now source
        → BeginsRoomy source.project more (begin_at begin.entry 0)
        → IsOkAnd result (λ o. IfSome o (ElementsLie source.project more)) }
{
    pv_variables::elements_placed(context, begin)
}

/// [`pv_variables::element_placed`].
pub fn element_placed<'p>(
    context: &Context<'p>,
    begin: Begin<'p>,
    index: &i128,
) -> Result<Begin<'p>, ResolveFault>
    ensures value { (source : Source) → IsContext context.now source
        → IfOk result (λ b. origin_of b
        ≡ origins.element_placed source.project (origin_of begin.entry) index.now) }
    ensures spot { IfOk result HasSpot }
    ensures room { (source : Source) (more : ℕ) → IsContext context.now source
        → BeginsRoomy source.project more (begin_at begin.entry 0)
        → IsOkAnd result (λ b. BeginsRoomy source.project more (begin_at b 0)) }
{
    pv_variables::element_placed(context, begin, index)
}

/// [`pv_variables::numbers_of`].
pub fn numbers_of(alloc: Global, context: &Context, cells: &[Cell]) -> Result<Numbers, ResolveFault>
    ensures numbers { (source : Source) → IsContext context.now source → source.cells ≡ cells.now
        → IfOk result (λ n. AreNumbers n source (block_in context.now)) }
    ensures room { (source : Source) → IsContext context.now source → source.cells ≡ cells.now
        → HasRoom source (block_in context.now) → length source.cells < BEYOND
        → IfErr result (λ e. e ≡ NoMemory) }
{
    pv_variables::numbers_of(alloc, context, cells)
}

/// [`Numbers::brief`].
pub fn brief(numbers: &Numbers, cell: usize) -> u32
    ensures { (n : ℕ) → slice_get numbers.now.briefs.items cell ≡ Some n → result ≡ n }
{
    numbers.brief(cell)
}

/// [`Numbers::table`].
pub fn table(numbers: &Numbers, cell: u32) -> u32
    ensures { numbers.now.bound + (cell - numbers.now.entry) < 4294967296
        → result ≡ numbers.now.bound + (cell - numbers.now.entry) }
{
    numbers.table(cell)
}

/// [`pv_variables::variables_of`].
pub fn variables_of(
    alloc: Global,
    context: &Context,
    types: &Types,
    entered: &Block,
    cells: &[Cell],
) -> Result<Vec<Variable>, ResolveFault>
    ensures variables { (source : Source) → IsContext context.now source → types_of types.now ≡ types_of_project source.project
        → block_tree entered.now ≡ source.entry → source.cells ≡ cells.now
        → IfOk result (λ v. map variable_of v.items ≡ variables.variables_of source (block_in context.now)) }
    ensures room { (source : Source) → IsContext context.now source → types_of types.now ≡ types_of_project source.project
        → HasRoom source (block_in context.now) → length (leaves_of_block source.project (block_in context.now)) < BEYOND
        → IfErr result (λ e. e ≡ NoMemory) }
{
    pv_variables::variables_of(alloc, context, types, entered, cells)
}
