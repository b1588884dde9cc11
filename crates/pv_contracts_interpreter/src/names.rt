//! Contract tests of `pv_resolve`.
ghost use Rattle.pv_bytes.specs.Lent.{bytes_tree};
ghost use Rattle.pv_eval.specs.Means.{activation};
ghost use Rattle.pv_eval.specs.Ready.{Evaluates, Locates};
ghost use Rattle.pv_mean.specs.Activations as act;
ghost use Rattle.pv_mean.specs.Layout as layout;
ghost use Rattle.pv_mean.specs.Sized.{sized_project};
ghost use Rattle.pv_mean.specs.Sources.{Source};
ghost use Rattle.pv_mean.specs.Values.{field_begins};
ghost use Rattle.pv_mean.specs.declared.count.TheConstants.{BEYOND};
ghost use Rattle.pv_names.specs.Entries.{block_of};
ghost use Rattle.pv_names.specs.Tables.{blocks_of, project_of};
ghost use Rattle.pv_resolve.specs.Begins.{HasSpot, begin_at, begins_behind};
ghost use Rattle.pv_resolve.specs.Contexts.{IsContext, block_in};
ghost use Rattle.pv_resolve.specs.Firsts.{AreFirsts};
ghost use Rattle.pv_resolve.specs.Rooms.{BeginsRoomy, FitsExpr, FitsOperand, FitsRoot, HasRoom};
ghost use Rattle.pv_resolve.specs.declared.fault.ResolveFault.TheVariants.{NoMemory, TooLarge};
ghost use Rattle.pv_tree.specs.Rules.{KeepsRules};
ghost use Rattle.pv_tree.specs.Scopes.{first_block};
ghost use Rattle.pv_tree.specs.View.{block_tree, expr_tree, operand_tree};
ghost use Rattle.pv_types.specs.Leaves.{start_value};
ghost use Rattle.std.specs.Int.{w64};
ghost use Rattle.std.specs.Prelude.{Err, FitsSigned, IfErr, IfOk, IfSome, IsOk, Option, Some, option_map, slice_get, ℕ, ℤ, ◌+◌, ◌↔◌, ◌≡◌, ◌≤◌};

use pv_bytes::AreaBytes;
use pv_eval::{Expression, Target};
use pv_mean::Sizes;
use pv_names::{Entry, Scope};
use pv_resolve::{Begin, Context, FirstCells, ResolveFault};
use pv_tree::{Block, Expr, Operand, Root};
use pv_types::{Name, Vars};
use std::alloc::{AllocError, Global};

/// [`pv_resolve::start_of`].
pub fn start_of(of: &Vars) -> Result<i64, ResolveFault>
    ensures value { IfOk result (λ v. v ≡ start_value of.now.start) }
    ensures fits { FitsSigned w64 (start_value of.now.start) → IsOk result }
{
    pv_resolve::start_of(of)
}

/// [`pv_resolve::number_of`].
pub fn number_of(n: &i128) -> Result<i64, ResolveFault>
    ensures value { IfOk result (λ v. v ≡ n.now) }
    ensures fits { FitsSigned w64 n.now → IsOk result }
    ensures too_large { IfErr result (λ e. (e ≡ TooLarge) × (FitsSigned w64 n.now → ⊥)) }
{
    pv_resolve::number_of(n)
}

/// [`Context::word`].
pub fn word<'p>(context: &Context<'p>, name: &Name, hash: bool) -> Result<Begin<'p>, ResolveFault>
    ensures value { (source : Source) (first : ℕ) → IsContext context.now source
        → IfOk result (λ b. begin_at b first ≡ act.word_begins source
        (activation (block_in context.now) first) name.now.key hash) }
    ensures spot { IfOk result HasSpot }
    ensures room { (source : Source) → IsContext context.now source
        → HasRoom source (block_in context.now) → IsOk result }
{
    context.word(name, hash)
}

/// [`Context::name`].
pub fn name<'p>(context: &Context<'p>, name: &Name) -> Result<Begin<'p>, ResolveFault>
    ensures value { (source : Source) (first : ℕ) → IsContext context.now source
        → IfOk result (λ b. begin_at b first ≡ act.name_begins source
        (activation (block_in context.now) first) name.now.key) }
    ensures spot { IfOk result HasSpot }
    ensures room { (source : Source) → IsContext context.now source
        → HasRoom source (block_in context.now) → IsOk result }
{
    context.name(name)
}

/// [`Context::root`].
pub fn root<'p>(context: &Context<'p>, root: &Root) -> Result<Begin<'p>, ResolveFault>
    ensures value { (source : Source) (first : ℕ) → IsContext context.now source
        → IfOk result (λ b. begin_at b first ≡ act.root_begins source
        (activation (block_in context.now) first) root.now) }
    ensures spot { IfOk result HasSpot }
    ensures room { (source : Source) → IsContext context.now source
        → HasRoom source (block_in context.now) → FitsRoot root.now → IsOk result }
{
    context.root(root)
}

/// [`Context::field`].
pub fn field<'p>(
    context: &Context<'p>,
    begin: Begin<'p>,
    name: &Name,
) -> Result<Begin<'p>, ResolveFault>
    ensures value { (source : Source) → IsContext context.now source
        → IfOk result (λ b. (address : Option ℕ) (a : ℤ) (first : ℕ)
        → begins_behind address a (begin_at b first)
        ≡ field_begins source (begins_behind address a (begin_at begin.entry first)) name.now.key) }
    ensures spot { IfOk result HasSpot }
    ensures room { (source : Source) (more : ℕ) → IsContext context.now source
        → KeepsRules source.project
        → BeginsRoomy source.project more (begin_at begin.entry 0) → IsOk result }
{
    context.field(begin, name)
}

/// [`pv_resolve::context_of`].
pub fn context_of<'p>(
    scope: Scope<'p>,
    sizes: &'p Sizes<'p>,
    entered: &Block,
    bytes: AreaBytes<'p>,
) -> Result<Context<'p>, ResolveFault>
    ensures context { (source : Source) → project_of scope.entry.tables.now ≡ source.project
        → sized_project sizes.now ≡ source.project → block_tree entered.now ≡ source.entry
        → bytes_tree bytes.entry ≡ source.bytes → IfOk result (λ c. IsContext c source) }
    ensures scope { IfOk result (λ c. c.scope ≡ scope.entry) }
    ensures too_large { (result ≡ Err TooLarge)
        ↔ (BEYOND ≤ layout.entry_size (sized_project sizes.now) (block_tree entered.now)
        + layout.data_size (sized_project sizes.now) (sized_project sizes.now).blocks) }
{
    pv_resolve::context_of(scope, sizes, entered, bytes)
}

/// [`pv_resolve::with_firsts`].
pub fn with_firsts<'p>(context: Context<'p>, firsts: &'p FirstCells) -> Context<'p>
    ensures is { (source : Source) → IsContext context.entry source
        → AreFirsts firsts.now source.project → IsContext result source }
    ensures scope { result.scope ≡ context.entry.scope }
    ensures block { block_in result ≡ block_in context.entry }
{
    pv_resolve::with_firsts(context, firsts)
}

/// [`pv_resolve::context_at`].
pub fn context_at<'p>(context: Context<'p>, number: usize) -> Option<Context<'p>>
    ensures is { (source : Source) → IsContext context.entry source
        → IfSome result (λ c. IsContext c source) }
    ensures block { option_map block_in result
        ≡ slice_get (blocks_of context.entry.scope.tables.now) number }
{
    pv_resolve::context_at(context, number)
}

/// [`pv_resolve::context_in`].
pub fn context_in<'p>(context: Context<'p>, entry: &'p Entry<'p>) -> Context<'p>
    ensures is { (source : Source) → IsContext context.entry source
        → first_block source.project.blocks (block_of entry.now).name.key
        ≡ Some (block_of entry.now) → IsContext result source }
    ensures block { block_in result ≡ block_of entry.now }
{
    pv_resolve::context_in(context, entry)
}

/// [`FirstCells::of`].
pub fn firsts_of(alloc: Global, context: &Context) -> Result<FirstCells, AllocError>
    ensures { (source : Source) → IsContext context.now source
        → IfOk result (λ f. AreFirsts f source.project) }
{
    FirstCells::of(alloc, context)
}

/// [`Context::expression`].
pub fn expression(context: &Context, alloc: Global, e: &Expr) -> Result<Expression, ResolveFault>
    ensures evaluates { (source : Source) → IsContext context.now source
        → IfOk result (λ x. Evaluates source (block_in context.now) x (expr_tree e.now)) }
    ensures room { (source : Source) → IsContext context.now source
        → HasRoom source (block_in context.now) → FitsExpr (expr_tree e.now)
        → IfErr result (λ e. e ≡ NoMemory) }
{
    context.expression(alloc, e)
}

/// [`Context::target`].
pub fn target(context: &Context, alloc: Global, operand: &Operand) -> Result<Target, ResolveFault>
    ensures locates { (source : Source) → IsContext context.now source
        → IfOk result (λ t. Locates source (block_in context.now) t (operand_tree operand.now)) }
    ensures room { (source : Source) → IsContext context.now source
        → HasRoom source (block_in context.now) → FitsOperand (operand_tree operand.now)
        → IfErr result (λ e. e ≡ NoMemory) }
{
    context.target(alloc, operand)
}
