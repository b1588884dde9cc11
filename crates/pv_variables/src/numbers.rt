//! Where the variables of a block's automaton lie.
ghost use Rattle.std.specs.Prelude.{◌≡◌, ◌<◌, ◌+◌, ◌-◌, ℕ, ◌*◌, ◌^◌, ◌∷◌, [], ◌++◌, length, IfOk, IfErr, IsOk, OnOk, Some, map, slice_get, is_some, if◌then◌else◌};
ghost use Rattle.pv_types.specs.View.{type_tree, var_tree};
ghost use Rattle.pv_tree.specs.View.{block_tree};
ghost use Rattle.pv_mean.specs.declared.count.TheConstants.{BEYOND};
ghost use Rattle.pv_mean.specs.Layout.{size_in, size_among, is_brief_in};
ghost use Rattle.pv_mean.specs.Sources.{Source};
ghost use Rattle.pv_resolve.specs.declared.fault.ResolveFault.TheVariants.{NoMemory};
ghost use Rattle.pv_resolve.specs.Contexts.{IsContext, block_in};
ghost use Rattle.pv_resolve.specs.Rooms.{HasRoom};
ghost use Rattle.pv_variables.specs.Numbered.{AreNumbers, HasNext, two_apart, found_so_far, with_cells, with_variable, with_variables};
ghost use Rattle.pv_variables.specs.Variables as variables;

use crate::count::{added, behind, entry_size, size_of, visible_in};
use pv_mean::{Cell, activation_part};
use pv_resolve::{Context, ResolveFault};
use pv_tree::{Block, BlockKind};
use pv_types::{Section, Var};
use std::alloc::Global;

/// How many variables are bound and shared, the number of the first visible cell that isn't the entry's own, of each brief cell of an
/// activation the number of its variable, behind which its 'set' is, and the number of the first register of a block of STL.
#[derive(Drop)]
pub struct Numbers {
    pub bound: u32,
    pub shared: u32,
    pub entry: u32,
    pub briefs: Vec<u32>,
    pub registers: u32,
}

/// The next numbers of a bound variable and of one of the block's own.
#[derive(Clone, Copy)]
struct Next {
    bound: u32,
    own: u32,
}

/// Whether a variable of the block lies where its caller puts it: a function's parameter.
pub(crate) fn is_bound_in(block: &Block, section: Section) -> bool
    ensures { result ≡ variables.is_bound_in (block_tree block.now) section }
{
    match &block.kind {
        BlockKind::Fc => match section {
            Section::Input | Section::Output | Section::InOut => true,
            Section::Static | Section::Temp | Section::Const => false,
        },
        BlockKind::Fb | BlockKind::Ob | BlockKind::Db { .. } | BlockKind::Udt => false,
    }
}

/// How many cells a variable has that lies where its caller puts it.
fn bound_in(context: &Context, block: &Block, var: &Var) -> Result<u32, ResolveFault>
    ensures value { (source : Source) → IsContext context.now source
        → IfOk result (λ n. n ≡ (if variables.is_bound_in (block_tree block.now) var.now.of.now.section
        then size_in source.project (type_tree var.now.of.now.ty) else 0)) }
    ensures room { (source : Source) → IsContext context.now source
        → (if variables.is_bound_in (block_tree block.now) var.now.of.now.section
        then size_in source.project (type_tree var.now.of.now.ty) else 0) < BEYOND → IsOk result }
{
    if is_bound_in(block, var.of.section) {
        size_of(context, &var.of.ty)
    } else {
        Ok(0)
    }
}

/// How many cells those of these variables have.
fn bound_among(context: &Context, block: &Block, vars: &[Var]) -> Result<u32, ResolveFault>
    ensures value { (source : Source) → IsContext context.now source
        → IfOk result (λ n. n ≡ size_among source.project (variables.is_bound_in (block_tree block.now)) (map var_tree vars.now)) }
    ensures room { (source : Source) → IsContext context.now source
        → size_among source.project (variables.is_bound_in (block_tree block.now)) (map var_tree vars.now) < BEYOND
        → IsOk result }
{
    let mut cells = 0;
    for var in vars {
        cells = added(cells, bound_in(context, block, var)?)?;
    }
    Ok(cells)
}

/// 1 of a function with a value, 0 of any other block.
fn value_count(block: &Block) -> u32
    ensures { result ≡ variables.value_count (block_tree block.now) }
{
    match block.interface.value {
        Some(_) => 1,
        None => 0,
    }
}

/// How many variables of the block are bound.
fn bound_count(context: &Context, block: &Block, vars: &[Var]) -> Result<u32, ResolveFault>
    requires { map var_tree vars.now ≡ (block_tree block.now).vars }
    ensures value { (source : Source) → IsContext context.now source
        → IfOk result (λ n. n ≡ variables.bound_count source (block_tree block.now)) }
    ensures room { (source : Source) → IsContext context.now source
        → HasRoom source (block_tree block.now) → IsOk result }
{
    let own = entry_size(context, block)?;
    let params = bound_among(context, block, vars)?;
    let brief = added(params, value_count(block))?;
    behind(own, brief)
}

/// Numbers of so many brief cells, two apart; and the next one.
fn push_cells(briefs: &mut Vec<u32>, first: u32, count: u32) -> Result<u32, ResolveFault>
    ensures cells { OnOk result (briefs.new.items ≡ briefs.old.items ++ two_apart count first) }
    ensures next { IfOk result (λ n. n ≡ first + 2 * count) }
    ensures room { first + 2 * count < 2 ^ 32 → IfErr result (λ e. e ≡ NoMemory) }
{
    let mut n = first;
    for _k in 0..count {
        briefs.push(n)?;
        n = added(n, 2)?;
    }
    Ok(n)
}

/// Numbers of so many brief cells, bound ones or the block's own.
fn push_sized(
    briefs: &mut Vec<u32>,
    bound: bool,
    count: u32,
    next: Next,
) -> Result<Next, ResolveFault>
    ensures value { IfOk result (λ n. found_so_far briefs.new.items n
        ≡ with_cells bound count (found_so_far briefs.old.items next)) }
    ensures room { HasNext (with_cells bound count (found_so_far briefs.old.items next))
        → IfErr result (λ e. e ≡ NoMemory) }
{
    if bound {
        let behind = push_cells(briefs, next.bound, count)?;
        Ok(Next {
            bound: behind,
            own: next.own,
        })
    } else {
        let own = push_cells(briefs, next.own, count)?;
        Ok(Next {
            bound: next.bound,
            own,
        })
    }
}

/// The numbers of a variable's cells, which live within one activation.
fn push_brief(
    context: &Context,
    block: &Block,
    briefs: &mut Vec<u32>,
    next: Next,
    var: &Var,
) -> Result<Next, ResolveFault>
    ensures value { (source : Source) → IsContext context.now source
        → IfOk result (λ n. found_so_far briefs.new.items n
        ≡ with_cells (variables.is_bound_in (block_tree block.now) var.now.of.now.section) (size_in source.project (type_tree var.now.of.now.ty))
        (found_so_far briefs.old.items next)) }
    ensures room { (source : Source) → IsContext context.now source
        → size_in source.project (type_tree var.now.of.now.ty) < BEYOND
        → HasNext (with_cells (variables.is_bound_in (block_tree block.now) var.now.of.now.section)
        (size_in source.project (type_tree var.now.of.now.ty)) (found_so_far briefs.old.items next))
        → IfErr result (λ e. e ≡ NoMemory) }
{
    let count = size_of(context, &var.of.ty)?;
    push_sized(briefs, is_bound_in(block, var.of.section), count, next)
}

/// The same of a variable that may live elsewhere.
fn push_variable(
    context: &Context,
    block: &Block,
    briefs: &mut Vec<u32>,
    next: Next,
    var: &Var,
) -> Result<Next, ResolveFault>
    ensures value { (source : Source) → IsContext context.now source
        → IfOk result (λ n. found_so_far briefs.new.items n
        ≡ with_variable source.project (block_tree block.now) (var_tree var.now) (found_so_far briefs.old.items next)) }
    ensures room { (source : Source) → IsContext context.now source
        → (if is_brief_in (block_tree block.now) var.now.of.now.section
        then size_in source.project (type_tree var.now.of.now.ty) else 0) < BEYOND
        → HasNext (with_variable source.project (block_tree block.now) (var_tree var.now) (found_so_far briefs.old.items next))
        → IfErr result (λ e. e ≡ NoMemory) }
{
    if activation_part(&block.kind).has(var.of.section) {
        push_brief(context, block, briefs, next, var)
    } else {
        Ok(next)
    }
}

/// The numbers of all of these variables' cells.
fn push_variables(
    context: &Context,
    block: &Block,
    briefs: &mut Vec<u32>,
    next: Next,
    vars: &[Var],
) -> Result<Next, ResolveFault>
    ensures value { (source : Source) → IsContext context.now source
        → IfOk result (λ n. found_so_far briefs.new.items n
        ≡ with_variables source.project (block_tree block.now) (map var_tree vars.now) (found_so_far briefs.old.items next)) }
    ensures room { (source : Source) → IsContext context.now source
        → size_among source.project (is_brief_in (block_tree block.now)) (map var_tree vars.now) < BEYOND
        → HasNext (with_variables source.project (block_tree block.now) (map var_tree vars.now) (found_so_far briefs.old.items next))
        → IfErr result (λ e. e ≡ NoMemory) }
{
    let mut so_far = next;
    for var in vars {
        so_far = push_variable(context, block, briefs, so_far, var)?;
    }
    Ok(so_far)
}

/// The number of a function's value, behind its parameters.
fn push_value(briefs: &mut Vec<u32>, block: &Block, next: u32) -> Result<(), ResolveFault>
    ensures value { OnOk result (briefs.new.items ≡ briefs.old.items ++ two_apart (variables.value_count (block_tree block.now)) next) }
    ensures memory { IfErr result (λ e. e ≡ NoMemory) }
{
    if let Some(_) = block.interface.value {
        briefs.push(next)?;
    }
    Ok(())
}

impl Numbers {
    /// The variable of a brief cell; of what is none, 0.
    pub fn brief(&self, cell: usize) -> u32
        ensures { (n : ℕ) → slice_get self.now.briefs.items cell ≡ Some n → result ≡ n }
    {
        match self.briefs.as_slice().get(cell) {
            Some(n) => *n,
            None => 0,
        }
    }

    /// The variable of a visible cell of a data block or an area.
    pub fn table(&self, cell: u32) -> u32
        ensures { self.now.bound + (cell - self.now.entry) < 4294967296
            → result ≡ self.now.bound + (cell - self.now.entry) }
    {
        self.bound.saturating_add(cell.saturating_sub(self.entry))
    }
}

/// The numbers of the block of a context, where the project has this table.
pub fn numbers_of(alloc: Global, context: &Context, cells: &[Cell]) -> Result<Numbers, ResolveFault>
    ensures numbers { (source : Source) → IsContext context.now source → source.cells ≡ cells.now
        → IfOk result (λ n. AreNumbers n source (block_in context.now)) }
    ensures room { (source : Source) → IsContext context.now source → source.cells ≡ cells.now
        → HasRoom source (block_in context.now) → length source.cells < BEYOND
        → IfErr result (λ e. e ≡ NoMemory) }
{
    let block = context.scope.entry.block();
    let vars = context.scope.entry.vars();
    let bound = bound_count(context, block, vars)?;
    let shared = visible_in(cells)?.saturating_sub(context.data_first);
    let own = added(bound, shared)?;
    let mut briefs = Vec::new(alloc);
    let next = push_variables(context, block, &mut briefs, Next { bound: 0, own }, vars)?;
    push_value(&mut briefs, block, next.bound)?;
    Ok(Numbers {
        bound,
        shared,
        entry: context.data_first,
        briefs,
        registers: next.own,
    })
}
