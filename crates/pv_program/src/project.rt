//! The program of a project.
ghost use Rattle.std.specs.Prelude.{◌≡◌, ◌++◌, ◌∷◌, [], IfOk, IfErr, OnOk, Some, length, map, slice_get};
ghost use Rattle.pv_tree.specs.View.{block_tree};
ghost use Rattle.pv_names.specs.Entries.{block_of};
ghost use Rattle.pv_names.specs.Tables.{project_of};
ghost use Rattle.pv_mean.specs.Frames as frames;
ghost use Rattle.pv_mean.specs.Sources.{Source};
ghost use Rattle.pv_mean.specs.ProjectSizes.{project_tree};
ghost use Rattle.pv_mean.specs.Sized.{sized_project};
ghost use Rattle.pv_eval.specs.Writes.{TypesOf};
ghost use Rattle.pv_run.specs.Code.{IsProgram};
ghost use Rattle.pv_bytes.specs.Lent.{bytes_tree};
ghost use Rattle.pv_resolve.specs.Contexts.{IsContext};
ghost use Rattle.pv_laws_room.specs.Reached.{IsRun};
ghost use Rattle.pv_program.specs.declared.fault.ProgramFault.TheVariants.{NoMemory};
ghost use Rattle.pv_program.specs.Growth.{Coded};
ghost use Rattle.pv_program.specs.Ready.{IsReached};
ghost use Rattle.pv_program.specs.Spelled.{AreSpelled};
ghost use Rattle.pv_program.specs.Reached.{AreCodes, AreMade};

use crate::fault::ProgramFault;
use crate::reach::reached;
use pv_bytes::AreaBytes;
use pv_laws_room::laws::{bodies_fit, reached_blocks_have_room};
use pv_mean::{Cell, Sizes};
use pv_names::{Entry, Scope, Tables, entries};
use pv_place::Role;
use pv_resolve::{Context, FirstCells, context_of, with_firsts};
use pv_run::{Code, Program};
use pv_tree::Project;
use pv_word::Ty;
use std::alloc::{AllocError, Global};

fn is_brief(role: Role) -> bool
    ensures { result ≡ frames.is_brief role }
{
    match role {
        Role::Brief => true,
        Role::Input | Role::Param | Role::Kept => false,
    }
}

/// Puts the type of a cell behind others, if the cell is visible.
fn push_visible(types: &mut Vec<Ty>, cell: &Cell) -> Result<(), AllocError>
    ensures { OnOk result (types.new.items
        ≡ types.old.items ++ map (λ c. c.ty) (frames.visible_cells (cell.now ∷ []))) }
{
    if !is_brief(cell.role) {
        types.push(cell.ty)?;
    }
    Ok(())
}

/// The types of the visible cells.
fn visible_types(alloc: Global, cells: &[Cell]) -> Result<Vec<Ty>, AllocError>
    ensures { IfOk result (λ types. types.items
        ≡ map (λ c. c.ty) (frames.visible_cells cells.now)) }
{
    let mut types = Vec::new(alloc);
    for cell in cells {
        push_visible(&mut types, cell)?;
    }
    Ok(types)
}

/// A program of nothing yet.
fn begun(alloc: Global, types: Vec<Ty>, bound: u32, entry: usize) -> Program
    ensures types { result.types ≡ types }
    ensures bound { result.bound ≡ bound }
    ensures entry { result.entry ≡ entry }
    ensures calls { result.calls.items ≡ [] }
{
    Program {
        stmts: Vec::new(alloc),
        instrs: Vec::new(alloc),
        arms: Vec::new(alloc),
        branches: Vec::new(alloc),
        choices: Vec::new(alloc),
        calls: Vec::new(alloc),
        inward: Vec::new(alloc),
        outward: Vec::new(alloc),
        blocks: Vec::new(alloc),
        entry,
        values: Vec::new(alloc),
        targets: Vec::new(alloc),
        types,
        bound,
        scratch: 0,
        widest: 0,
        ranges: 0,
    }
}

/// The program with this code of its blocks.
fn with_blocks(program: Program, blocks: Vec<Option<Code>>) -> Program
    ensures bound { result.bound ≡ program.bound }
    ensures entry { result.entry ≡ program.entry }
    ensures is { (source : Source) → AreCodes source program blocks.items
        → AreMade blocks.items program.calls.items (length program.calls.items)
        → Coded blocks.items program.entry → TypesOf source program.types.items
        → source.bound ≡ program.bound
        → slice_get source.project.blocks program.entry ≡ Some source.entry
        → IsProgram source result }
{
    let mut program = program;
    program.blocks = blocks;
    program
}

/// The program of the project of a context, entered at its block, which has this number.
fn program_with(
    alloc: Global,
    context: &Context,
    entry: u32,
    cells: &[Cell],
    bound: u32,
) -> Result<Program, ProgramFault>
    ensures bound { IfOk result (λ p. p.bound ≡ bound) }
    ensures entry { IfOk result (λ p. p.entry ≡ entry) }
    ensures is { (source : Source) → IsContext context.now source
        → slice_get source.project.blocks entry ≡ Some source.entry
        → cells.now ≡ source.cells → bound ≡ source.bound → IfOk result (IsProgram source) }
    ensures room { (source : Source) → IsContext context.now source
        → slice_get source.project.blocks entry ≡ Some source.entry → IsReached source
        → IfErr result (λ e. e ≡ NoMemory) }
{
    let types = visible_types(alloc, cells)?;
    let mut program = begun(alloc, types, bound, entry as usize);
    let blocks = reached(alloc, context, &mut program)?;
    Ok(with_blocks(program, blocks))
}

/// The program of the project of a scope, entered at its block, which has this number.
fn program_in<'p>(
    alloc: Global,
    scope: Scope<'p>,
    sizes: &'p Sizes<'p>,
    entry: u32,
    bytes: AreaBytes<'p>,
    cells: &[Cell],
    bound: u32,
) -> Result<Program, ProgramFault>
    ensures bound { IfOk result (λ p. p.bound ≡ bound) }
    ensures entry { IfOk result (λ p. p.entry ≡ entry) }
    ensures is { (source : Source) → project_of scope.entry.tables.now ≡ source.project
        → sized_project sizes.now ≡ source.project → block_of scope.entry.entry.now ≡ source.entry
        → slice_get source.project.blocks entry ≡ Some source.entry
        → bytes_tree bytes.entry ≡ source.bytes → cells.now ≡ source.cells → bound ≡ source.bound
        → IfOk result (IsProgram source) }
    ensures room { (source : Source) → project_of scope.entry.tables.now ≡ source.project
        → sized_project sizes.now ≡ source.project → block_of scope.entry.entry.now ≡ source.entry
        → slice_get source.project.blocks entry ≡ Some source.entry
        → bytes_tree bytes.entry ≡ source.bytes → IsReached source
        → IfErr result (λ e. e ≡ NoMemory) }
{
    let context = context_of(scope, sizes, scope.entry.block(), bytes)?;
    let firsts = FirstCells::of(alloc, &context)?;
    let context = with_firsts(context, &firsts);
    program_with(alloc, &context, entry, cells, bound)
}

/// The program of a project whose tables and sizes these are.
fn program_sized<'p>(
    alloc: Global,
    tables: &'p Tables<'p>,
    sizes: &'p Sizes<'p>,
    entry: u32,
    bytes: AreaBytes<'p>,
    cells: &[Cell],
    bound: u32,
) -> Result<Program, ProgramFault>
    ensures bound { IfOk result (λ p. p.bound ≡ bound) }
    ensures entry { IfOk result (λ p. p.entry ≡ entry) }
    ensures is { (source : Source) → project_of tables.now ≡ source.project
        → sized_project sizes.now ≡ source.project
        → slice_get source.project.blocks entry ≡ Some source.entry
        → bytes_tree bytes.entry ≡ source.bytes → cells.now ≡ source.cells → bound ≡ source.bound
        → IfOk result (IsProgram source) }
    ensures room { (source : Source) → project_of tables.now ≡ source.project
        → sized_project sizes.now ≡ source.project
        → slice_get source.project.blocks entry ≡ Some source.entry
        → bytes_tree bytes.entry ≡ source.bytes → IsReached source
        → IfErr result (λ e. e ≡ NoMemory) }
{
    match tables.entries().get(entry as usize) {
        Some(entered) => {
            let scope = Scope {
                tables,
                entry: entered,
            };
            program_in(alloc, scope, sizes, entry, bytes, cells, bound)
        }
        None => Err(ProgramFault::TooLarge),
    }
}

/// The program of a project whose tables these are.
fn program_by(
    alloc: Global,
    tables: &Tables,
    project: &Project,
    entry: u32,
    bytes: AreaBytes,
    cells: &[Cell],
    bound: u32,
) -> Result<Program, ProgramFault>
    requires { project_of tables.now ≡ project_tree project.now }
    ensures bound { IfOk result (λ p. p.bound ≡ bound) }
    ensures entry { IfOk result (λ p. p.entry ≡ entry) }
    ensures is { (source : Source) → project_tree project.now ≡ source.project
        → slice_get source.project.blocks entry ≡ Some source.entry
        → bytes_tree bytes.entry ≡ source.bytes → cells.now ≡ source.cells → bound ≡ source.bound
        → IfOk result (IsProgram source) }
    ensures room { (source : Source) → project_tree project.now ≡ source.project
        → slice_get source.project.blocks entry ≡ Some source.entry
        → bytes_tree bytes.entry ≡ source.bytes → IsRun source
        → AreSpelled source.project → IfErr result (λ e. e ≡ NoMemory) }
{
    reached_blocks_have_room();
    bodies_fit();
    let sizes = Sizes::of(alloc, project)?;
    program_sized(alloc, tables, &sizes, entry, bytes, cells, bound)
}

/// The program of a project whose blocks these are, with their tables of variables.
fn program_among(
    alloc: Global,
    list: &[Entry],
    project: &Project,
    entry: u32,
    bytes: AreaBytes,
    cells: &[Cell],
    bound: u32,
) -> Result<Program, ProgramFault>
    requires { map block_of list.now ≡ map block_tree project.now.blocks.list.items }
    ensures bound { IfOk result (λ p. p.bound ≡ bound) }
    ensures entry { IfOk result (λ p. p.entry ≡ entry) }
    ensures is { (source : Source) → project_tree project.now ≡ source.project
        → slice_get source.project.blocks entry ≡ Some source.entry
        → bytes_tree bytes.entry ≡ source.bytes → cells.now ≡ source.cells → bound ≡ source.bound
        → IfOk result (IsProgram source) }
    ensures room { (source : Source) → project_tree project.now ≡ source.project
        → slice_get source.project.blocks entry ≡ Some source.entry
        → bytes_tree bytes.entry ≡ source.bytes → IsRun source
        → AreSpelled source.project → IfErr result (λ e. e ≡ NoMemory) }
{
    let tables = Tables::of(alloc, list, project.symbols())?;
    program_by(alloc, &tables, project, entry, bytes, cells, bound)
}

/// The program of a project that is entered at the block of this number, from 0 on, where these bytes of areas have cells, with this
/// table of cells and the most turns that one entry into a loop takes, or as often a body comes to a label again. It has code of the
/// block that is entered and of those that calls in the text lead to from there.
///
/// It is too large where a number of a cell lies beyond what a table may have, or an instance begins at 2^16 cells or more; where a
/// number of the text doesn't fit 64 bits; where there is no such block; where an address has no cell, or a parameter the name of a
/// constant; and where a body of STL breaks a rule, as `add_instrs` says. No project that keeps the rules, with its own table, whose
/// blocks tokens spell, is refused so.
pub fn program_of(
    alloc: Global,
    project: &Project,
    entry: u32,
    bytes: AreaBytes,
    cells: &[Cell],
    bound: u32,
) -> Result<Program, ProgramFault>
    ensures bound { IfOk result (λ p. p.bound ≡ bound) }
    ensures entry { IfOk result (λ p. p.entry ≡ entry) }
    ensures is { (source : Source) → project_tree project.now ≡ source.project
        → slice_get source.project.blocks entry ≡ Some source.entry
        → bytes_tree bytes.entry ≡ source.bytes → cells.now ≡ source.cells → bound ≡ source.bound
        → IfOk result (IsProgram source) }
    ensures room { (source : Source) → project_tree project.now ≡ source.project
        → slice_get source.project.blocks entry ≡ Some source.entry
        → bytes_tree bytes.entry ≡ source.bytes → IsRun source
        → AreSpelled source.project → IfErr result (λ e. e ≡ NoMemory) }
{
    let list = entries(alloc, project.blocks().list.as_slice())?;
    program_among(alloc, list.as_slice(), project, entry, bytes, cells, bound)
}
