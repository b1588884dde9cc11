//! The variables of a block's automaton, in their order.
ghost use Rattle.std.specs.Prelude.{◌≡◌, ◌<◌, ◌∷◌, [], ◌++◌, List, length, map, flat_map, option_to_list, not, IfOk, IfErr, OnOk, if◌then◌else◌};
ghost use Rattle.pv_place.specs.declared.role.Role.TheVariants.{Kept, Brief};
ghost use Rattle.pv_types.specs.Named.{types_of};
ghost use Rattle.pv_types.specs.Leaves as layout;
ghost use Rattle.pv_tree.specs.NamedTypes.{types_of_project};
ghost use Rattle.pv_tree.specs.Scopes.{ProjectTree, has_key};
ghost use Rattle.pv_tree.specs.View.{block_tree};
ghost use Rattle.pv_mean.specs.declared.cell.Cell.{Cell};
ghost use Rattle.pv_mean.specs.declared.count.TheConstants.{BEYOND};
ghost use Rattle.pv_mean.specs.Cells.{leaves_of_block, entry_cells};
ghost use Rattle.pv_mean.specs.Frames.{is_brief};
ghost use Rattle.pv_mean.specs.Layout as sections;
ghost use Rattle.pv_mean.specs.Sources.{Source};
ghost use Rattle.pv_flow.specs.View.{variable_of};
ghost use Rattle.pv_resolve.specs.declared.fault.ResolveFault.TheVariants.{NoMemory};
ghost use Rattle.pv_resolve.specs.Contexts.{IsContext, block_in};
ghost use Rattle.pv_resolve.specs.Rooms.{HasRoom};
ghost use Rattle.pv_variables.specs.Listed.{Adds, is_own_in, leaf_variables, front_of, rest_of};
ghost use Rattle.pv_variables.specs.Variables as variables;

use crate::count::entry_size;
use crate::numbers::is_bound_in;
use pv_flow::Variable;
use pv_mean::{Cell, activation_part};
use pv_names::is_stl;
use pv_place::Role;
use pv_resolve::{Context, ResolveFault};
use pv_tree::{Block, BlockKind};
use pv_types::{FlattenFault, Leaf, Leaves, Section, Types, flatten};
use pv_word::Ty;
use std::alloc::{AllocError, Global};

/// What of a block's declarations is put behind other variables.
#[derive(Clone, Copy)]
enum Group {
    /// A function block's instance, which lies where its caller puts it.
    Instance,
    /// A function's parameters.
    Params,
    /// What else lives within one activation.
    Own,
}

/// Puts a variable behind others.
fn push(vars: &mut Vec<Variable>, role: Role, ty: Ty) -> Result<(), AllocError>
    ensures { OnOk result (Adds vars.old.items vars.new.items (variables.plain_variable role ty ∷ [])) }
{
    vars.push(Variable {
        ty,
        role,
        start: 0,
        only: None,
    })?;
    Ok(())
}

/// Puts a variable with its 'set' behind others.
fn push_with_set(vars: &mut Vec<Variable>, role: Role, ty: Ty) -> Result<(), AllocError>
    ensures { OnOk result (Adds vars.old.items vars.new.items (variables.with_set role ty)) }
{
    push(vars, role, ty)?;
    push(vars, role, Ty::Bool)
}

// ---- declarations

/// The role of a parameter: what a function gives begins without a value.
fn role_of_param(section: Section) -> Role
    ensures { result ≡ variables.role_of_param section }
{
    match section {
        Section::Output => Role::Brief,
        Section::Input | Section::InOut | Section::Static | Section::Temp | Section::Const => {
            Role::Kept
        }
    }
}

/// Whether a variable is temporary.
fn is_temp(section: Section) -> bool
    ensures { result ≡ sections.is_temp section }
{
    match section {
        Section::Temp => true,
        Section::Input | Section::Output | Section::InOut | Section::Static | Section::Const =>
            false,
    }
}

/// Whether a variable lives within one activation.
fn is_brief_in(block: &Block, section: Section) -> bool
    ensures { result ≡ sections.is_brief_in (block_tree block.now) section }
{
    activation_part(&block.kind).has(section)
}

/// Whether a variable lives within one activation and is no parameter of a function.
fn is_own(block: &Block, section: Section) -> bool
    ensures { result ≡ is_own_in (block_tree block.now) section }
{
    is_brief_in(block, section) && !is_bound_in(block, section)
}

/// The cell of a function block's instance, unless the leaf is temporary.
fn push_held(vars: &mut Vec<Variable>, leaf: &Leaf) -> Result<(), AllocError>
    ensures { OnOk result (Adds vars.old.items vars.new.items
        (if not (sections.is_temp leaf.now.section) then variables.plain_variable Kept leaf.now.ty ∷ [] else [])) }
{
    if is_temp(leaf.section) {
        return Ok(());
    }
    push(vars, Role::Kept, leaf.ty)
}

/// The cell of a function's parameter, if the leaf is of one.
fn push_param(vars: &mut Vec<Variable>, block: &Block, leaf: &Leaf) -> Result<(), AllocError>
    ensures { OnOk result (Adds vars.old.items vars.new.items (if variables.is_bound_in (block_tree block.now) leaf.now.section
        then variables.with_set (variables.role_of_param leaf.now.section) leaf.now.ty else [])) }
{
    if !is_bound_in(block, leaf.section) {
        return Ok(());
    }
    push_with_set(vars, role_of_param(leaf.section), leaf.ty)
}

/// The cell of the block's own, if the leaf is of one.
fn push_brief(vars: &mut Vec<Variable>, block: &Block, leaf: &Leaf) -> Result<(), AllocError>
    ensures { OnOk result (Adds vars.old.items vars.new.items
        (if is_own_in (block_tree block.now) leaf.now.section then variables.with_set Brief leaf.now.ty else [])) }
{
    if !is_own(block, leaf.section) {
        return Ok(());
    }
    push_with_set(vars, Role::Brief, leaf.ty)
}

/// The variables of a leaf, if it is of the group.
fn push_leaf(
    vars: &mut Vec<Variable>,
    block: &Block,
    group: Group,
    leaf: &Leaf,
) -> Result<(), AllocError>
    ensures { OnOk result (Adds vars.old.items vars.new.items (leaf_variables group (block_tree block.now) leaf.now)) }
{
    match group {
        Group::Instance => push_held(vars, leaf),
        Group::Params => push_param(vars, block, leaf),
        Group::Own => push_brief(vars, block, leaf),
    }
}

/// The variables of the leaves of the group.
fn push_leaves(
    vars: &mut Vec<Variable>,
    block: &Block,
    group: Group,
    leaves: &[Leaf],
) -> Result<(), AllocError>
    ensures { OnOk result (Adds vars.old.items vars.new.items
        (flat_map (leaf_variables group (block_tree block.now)) leaves.now)) }
{
    for leaf in leaves {
        push_leaf(vars, block, group, leaf)?;
    }
    Ok(())
}

/// The cell of a function's value.
fn push_value(vars: &mut Vec<Variable>, block: &Block) -> Result<(), AllocError>
    ensures { OnOk result (Adds vars.old.items vars.new.items
        (flat_map (variables.with_set Brief) (option_to_list (block_tree block.now).value))) }
{
    match block.interface.value {
        Some(ty) => push_with_set(vars, Role::Brief, ty),
        None => Ok(()),
    }
}

/// What a block of STL works with: two accumulators, /FC, RLO, OR, OV, CC1 and CC0.
fn push_registers(vars: &mut Vec<Variable>, block: &Block) -> Result<(), AllocError>
    ensures { OnOk result (Adds vars.old.items vars.new.items (variables.register_variables (block_tree block.now))) }
{
    if !is_stl(&block.body) {
        return Ok(());
    }
    push_with_set(vars, Role::Brief, Ty::Dword)?;
    push_with_set(vars, Role::Brief, Ty::Dword)?;
    push(vars, Role::Brief, Ty::Bool)?;
    push_with_set(vars, Role::Brief, Ty::Bool)?;
    push(vars, Role::Brief, Ty::Bool)?;
    push_with_set(vars, Role::Brief, Ty::Bool)?;
    push_with_set(vars, Role::Brief, Ty::Bool)?;
    push_with_set(vars, Role::Brief, Ty::Bool)
}

// ---- cells of the table

/// Whether a cell is visible.
fn is_visible(role: Role) -> bool
    ensures { result ≡ not (is_brief role) }
{
    match role {
        Role::Input | Role::Param | Role::Kept => true,
        Role::Brief => false,
    }
}

/// Puts the variable of a cell behind others.
fn push_cell(vars: &mut Vec<Variable>, cell: &Cell) -> Result<(), AllocError>
    ensures { OnOk result (Adds vars.old.items vars.new.items (variables.variable_of_cell cell.now ∷ [])) }
{
    vars.push(Variable {
        ty: cell.ty,
        role: cell.role,
        start: cell.start,
        only: cell.bound,
    })?;
    Ok(())
}

/// The variable of a cell, if it is the next of so many visible ones; and how many are still to come.
fn push_next(vars: &mut Vec<Variable>, cell: &Cell, left: u32) -> Result<u32, AllocError>
    ensures { IfOk result (λ m. (rest : List Cell) → map variable_of vars.new.items ++ front_of m rest
        ≡ map variable_of vars.old.items ++ front_of left (cell.now ∷ rest)) }
{
    if !is_visible(cell.role) {
        return Ok(left);
    }
    if left > 0 {
        push_cell(vars, cell)?;
        return Ok(left - 1);
    }
    Ok(0)
}

/// The first so many of the visible cells.
fn push_front(vars: &mut Vec<Variable>, cells: &[Cell], count: u32) -> Result<(), AllocError>
    ensures { OnOk result (Adds vars.old.items vars.new.items (front_of count cells.now)) }
{
    let mut left = count;
    for cell in cells {
        left = push_next(vars, cell, left)?;
    }
    Ok(())
}

/// The variable of a cell, if it is visible and none of so many are left out; and how many still are.
fn push_behind(vars: &mut Vec<Variable>, cell: &Cell, left: u32) -> Result<u32, AllocError>
    ensures { IfOk result (λ m. (rest : List Cell) → map variable_of vars.new.items ++ rest_of m rest
        ≡ map variable_of vars.old.items ++ rest_of left (cell.now ∷ rest)) }
{
    if !is_visible(cell.role) {
        return Ok(left);
    }
    if left > 0 {
        return Ok(left - 1);
    }
    push_cell(vars, cell)?;
    Ok(0)
}

/// The visible cells but the first so many.
fn push_rest(vars: &mut Vec<Variable>, cells: &[Cell], count: u32) -> Result<(), AllocError>
    ensures { OnOk result (Adds vars.old.items vars.new.items (rest_of count cells.now)) }
{
    let mut left = count;
    for cell in cells {
        left = push_behind(vars, cell, left)?;
    }
    Ok(())
}

// ---- all of them

/// A function block's instance; of any other block nothing.
fn push_instance(vars: &mut Vec<Variable>, block: &Block, leaves: &[Leaf]) -> Result<(), AllocError>
    ensures { (project : ProjectTree) → leaves.now ≡ leaves_of_block project (block_tree block.now)
        → OnOk result (Adds vars.old.items vars.new.items
        (map (λ c. variables.plain_variable Kept c.ty) (entry_cells project (block_tree block.now)))) }
{
    match block.kind {
        BlockKind::Fb => push_leaves(vars, block, Group::Instance, leaves),
        BlockKind::Fc | BlockKind::Ob | BlockKind::Db { .. } | BlockKind::Udt => Ok(()),
    }
}

/// The bound variables of a block that is called.
fn push_called(vars: &mut Vec<Variable>, block: &Block, leaves: &[Leaf]) -> Result<(), AllocError>
    ensures { (project : ProjectTree) → leaves.now ≡ leaves_of_block project (block_tree block.now)
        → OnOk result (Adds vars.old.items vars.new.items (variables.bound_of_called project (block_tree block.now))) }
{
    push_instance(vars, block, leaves)?;
    push_leaves(vars, block, Group::Params, leaves)?;
    push_value(vars, block)
}

/// The bound variables of a block that is entered: the first cells of the table.
fn push_entered(
    vars: &mut Vec<Variable>,
    context: &Context,
    block: &Block,
    cells: &[Cell],
) -> Result<(), ResolveFault>
    ensures adds { (source : Source) → IsContext context.now source → source.cells ≡ cells.now
        → OnOk result (Adds vars.old.items vars.new.items
        (front_of (sections.entry_size source.project (block_tree block.now)) source.cells)) }
    ensures room { (source : Source) → IsContext context.now source
        → HasRoom source (block_tree block.now) → IfErr result (λ e. e ≡ NoMemory) }
{
    let own = entry_size(context, block)?;
    push_front(vars, cells, own)?;
    Ok(())
}

/// Whether the block is the one that is entered.
fn is_entry(entered: &Block, block: &Block) -> bool
    ensures { result ≡ has_key (block_tree entered.now).name.key (block_tree block.now).name }
{
    entered.name == block.name
}

/// The bound variables of a block.
fn push_bound(
    vars: &mut Vec<Variable>,
    context: &Context,
    block: &Block,
    entered: &Block,
    leaves: &[Leaf],
    cells: &[Cell],
) -> Result<(), ResolveFault>
    ensures adds { (source : Source) → IsContext context.now source → block_tree entered.now ≡ source.entry
        → source.cells ≡ cells.now → leaves.now ≡ leaves_of_block source.project (block_tree block.now)
        → OnOk result (Adds vars.old.items vars.new.items (variables.bound_variables source (block_tree block.now))) }
    ensures room { (source : Source) → IsContext context.now source
        → HasRoom source (block_tree block.now) → IfErr result (λ e. e ≡ NoMemory) }
{
    if is_entry(entered, block) {
        return push_entered(vars, context, block, cells);
    }
    push_called(vars, block, leaves)?;
    Ok(())
}

/// The block's own variables.
fn push_own(vars: &mut Vec<Variable>, block: &Block, leaves: &[Leaf]) -> Result<(), AllocError>
    ensures { (source : Source) → leaves.now ≡ leaves_of_block source.project (block_tree block.now)
        → OnOk result (Adds vars.old.items vars.new.items (variables.own_variables source (block_tree block.now))) }
{
    push_leaves(vars, block, Group::Own, leaves)?;
    push_registers(vars, block)
}

/// All variables of a block.
fn push_all(
    vars: &mut Vec<Variable>,
    context: &Context,
    block: &Block,
    entered: &Block,
    leaves: &[Leaf],
    cells: &[Cell],
) -> Result<(), ResolveFault>
    ensures adds { (source : Source) → IsContext context.now source → block_tree entered.now ≡ source.entry
        → source.cells ≡ cells.now → leaves.now ≡ leaves_of_block source.project (block_tree block.now)
        → OnOk result (Adds vars.old.items vars.new.items (variables.variables_of source (block_tree block.now))) }
    ensures room { (source : Source) → IsContext context.now source
        → HasRoom source (block_tree block.now) → IfErr result (λ e. e ≡ NoMemory) }
{
    push_bound(vars, context, block, entered, leaves, cells)?;
    push_rest(vars, cells, context.data_first)?;
    push_own(vars, block, leaves)?;
    Ok(())
}

/// The leaves of a block's declarations.
fn leaves_in(alloc: Global, block: &Block, types: &Types) -> Result<Leaves, ResolveFault>
    ensures leaves { IfOk result (λ leaves. leaves ≡ layout.leaves_of (types_of types.now) (block_tree block.now).vars) }
    ensures room { length (layout.leaves_of (types_of types.now) (block_tree block.now).vars) < BEYOND
        → IfErr result (λ e. e ≡ NoMemory) }
{
    match flatten(alloc, block.interface.vars.as_slice(), types) {
        Ok(leaves) => Ok(leaves),
        Err(FlattenFault::TooLarge) => Err(ResolveFault::TooLarge),
        Err(FlattenFault::NoMemory) => Err(ResolveFault::NoMemory),
    }
}

/// The variables of the automaton of a context's block, in a project with these named types and this table, which is entered at a block:
/// each with its type, its role, its start and the one value that a bound parameter may have.
///
/// `TooLarge` where the block's declarations, or an instance of it, have more cells than a table may have.
pub fn variables_of(
    alloc: Global,
    context: &Context,
    types: &Types,
    entered: &Block,
    cells: &[Cell],
) -> Result<Vec<Variable>, ResolveFault>
    ensures variables { (source : Source) → IsContext context.now source → types_of types.now ≡ types_of_project source.project
        → block_tree entered.now ≡ source.entry → source.cells ≡ cells.now
        → IfOk result (λ v. map variable_of v.items ≡ variables.variables_of source (block_in context.now)) }
    ensures room { (source : Source) → IsContext context.now source → types_of types.now ≡ types_of_project source.project
        → HasRoom source (block_in context.now) → length (leaves_of_block source.project (block_in context.now)) < BEYOND
        → IfErr result (λ e. e ≡ NoMemory) }
{
    let block = context.scope.entry.block();
    let leaves = leaves_in(alloc, block, types)?;
    let mut vars = Vec::new(alloc);
    push_all(&mut vars, context, block, entered, leaves.as_slice(), cells)?;
    Ok(vars)
}
