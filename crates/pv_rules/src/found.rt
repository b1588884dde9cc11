//! Of each rule the nearest place at which a project breaks it, group by group.
ghost use Rattle.std.specs.Prelude.{◌≡◌, IfOk, map};
ghost use Rattle.pv_tree.specs.View.{block_tree};
ghost use Rattle.pv_tree.specs.Projects.{project_tree};
ghost use Rattle.pv_tree.specs.Scopes.{ProjectTree};
ghost use Rattle.pv_names.specs.Entries.{block_of};
ghost use Rattle.pv_names.specs.Tables.{project_of};
ghost use Rattle.pv_rules_code.specs.AreInCode.{AreInCode};
ghost use Rattle.pv_rules.specs.Found.{AreDeclared, AreWhole, AreChained, AreInstructed, AreAll};

use crate::project_rules::{beyond_bounds, misfit, missing_name, out_of_range, wrong_address};
use crate::values::not_callable;
use pv_names::{Entry, Tables, entries};
use pv_place::Place;
use pv_rules_call::{call_cycle, call_too_deep, calls_by_number};
use pv_rules_code::{CodeNear, nearest_in_code};
use pv_rules_decl::{doubled_name, missing_type, nearest_in_values, wrong_array};
use pv_rules_instr::{refused_operand_or_literal, wrong_label, wrong_nesting, wrong_range};
use pv_tree::{Block, Operand};
use pv_types::Name;
use pv_word::Ty;
use std::alloc::{AllocError, Global};

/// The rules on declarations alone.
#[derive(Clone, Copy)]
pub(crate) struct Declared {
    pub(crate) doubled: Option<Place>,
    pub(crate) untyped: Option<Place>,
    pub(crate) array: Option<Place>,
}

/// The rules that code, declarations and the values of data blocks can break.
#[derive(Clone, Copy)]
pub(crate) struct Whole {
    pub(crate) missing: Option<Place>,
    pub(crate) misfit: Option<Place>,
    pub(crate) outside: Option<Place>,
    pub(crate) beyond: Option<Place>,
    pub(crate) uncallable: Option<Place>,
    pub(crate) address: Option<Place>,
}

/// The rules on which block calls which.
#[derive(Clone, Copy)]
pub(crate) struct Chained {
    pub(crate) cycle: Option<Place>,
    pub(crate) deep: Option<Place>,
}

/// The rules on instructions alone.
#[derive(Clone, Copy)]
pub(crate) struct Instructed {
    pub(crate) label: Option<Place>,
    pub(crate) range: Option<Place>,
    pub(crate) nesting: Option<Place>,
    pub(crate) operand: Option<Place>,
}

/// All rules.
#[derive(Clone, Copy)]
pub(crate) struct Nearest {
    pub(crate) declared: Declared,
    pub(crate) code: CodeNear,
    pub(crate) whole: Whole,
    pub(crate) chained: Chained,
    pub(crate) instructed: Instructed,
}

/// Those of declarations.
fn declarations_near(alloc: Global, blocks: &[Block]) -> Result<Declared, AllocError>
    ensures { (project : ProjectTree) → project.blocks ≡ map block_tree blocks.now
        → IfOk result (λ d. AreDeclared project d) }
{
    let doubled = doubled_name(alloc, blocks)?;
    let untyped = missing_type(alloc, blocks)?;
    let array = wrong_array(alloc, blocks)?;
    Ok(Declared {
        doubled,
        untyped,
        array,
    })
}

/// Those of all together, by what breaks them in code.
fn whole_near<'p>(
    alloc: Global,
    tables: &'p Tables<'p>,
    blocks: &[Block],
    code: CodeNear,
) -> Result<Whole, AllocError>
    requires blocks { (project_of tables.now).blocks ≡ map block_tree blocks.now }
    requires code { AreInCode (project_of tables.now) code }
    ensures { IfOk result (λ w. AreWhole (project_of tables.now) w) }
{
    let values = nearest_in_values(alloc, tables)?;
    let misfit = misfit(alloc, tables, blocks, code, values)?;
    let outside = out_of_range(alloc, tables, code, values)?;
    let uncallable = not_callable(alloc, tables, code)?;
    Ok(Whole {
        missing: missing_name(code, values),
        misfit,
        outside,
        beyond: beyond_bounds(code, values),
        uncallable,
        address: wrong_address(code, values),
    })
}

/// Those of chains of calls.
fn chains_near<'p>(alloc: Global, tables: &'p Tables<'p>) -> Result<Chained, AllocError>
    ensures { IfOk result (λ c. AreChained (project_of tables.now) c) }
{
    let links = calls_by_number(alloc, tables)?;
    let cycle = call_cycle(alloc, links.as_slice())?;
    let deep = call_too_deep(alloc, links.as_slice())?;
    Ok(Chained { cycle, deep })
}

/// Those of instructions.
fn instructions_near<'p>(alloc: Global, tables: &'p Tables<'p>) -> Result<Instructed, AllocError>
    ensures { IfOk result (λ i. AreInstructed (project_of tables.now) i) }
{
    let label = wrong_label(alloc, tables)?;
    let range = wrong_range(alloc, tables)?;
    let nesting = wrong_nesting(alloc, tables)?;
    let operand = refused_operand_or_literal(alloc, tables)?;
    Ok(Instructed {
        label,
        range,
        nesting,
        operand,
    })
}

/// Those of all rules, of the tables of these blocks.
fn all_near<'p>(
    alloc: Global,
    tables: &'p Tables<'p>,
    blocks: &[Block],
) -> Result<Nearest, AllocError>
    requires { (project_of tables.now).blocks ≡ map block_tree blocks.now }
    ensures { IfOk result (λ n. AreAll (project_of tables.now) n) }
{
    let declared = declarations_near(alloc, blocks)?;
    let code = nearest_in_code(alloc, tables)?;
    let whole = whole_near(alloc, tables, blocks, code)?;
    let chained = chains_near(alloc, tables)?;
    let instructed = instructions_near(alloc, tables)?;
    Ok(Nearest {
        declared,
        code,
        whole,
        chained,
        instructed,
    })
}

/// Of each rule the nearest place, where each block has its table.
fn nearest_among(
    alloc: Global,
    all: &[Entry],
    blocks: &[Block],
    symbols: &[(Name, Operand, Ty)],
) -> Result<Nearest, AllocError>
    requires { map block_of all.now ≡ map block_tree blocks.now }
    ensures { IfOk result (λ n. AreAll (project_tree blocks.now symbols.now) n) }
{
    let tables = Tables::of(alloc, all, symbols)?;
    all_near(alloc, &tables, blocks)
}

/// Of each rule that blocks and symbols can break the nearest place.
pub(crate) fn nearest_of(
    alloc: Global,
    blocks: &[Block],
    symbols: &[(Name, Operand, Ty)],
) -> Result<Nearest, AllocError>
    ensures { IfOk result (λ n. AreAll (project_tree blocks.now symbols.now) n) }
{
    let all = entries(alloc, blocks)?;
    nearest_among(alloc, all.as_slice(), blocks, symbols)
}
