//! What is known of the case that a lift is of: its limits, and the ranges of its cells.
ghost use Rattle.std.specs.Prelude.{◌≡◌, ◌∷◌, ◌++◌, [], IfOk, OnOk, if◌then◌else◌};
ghost use Rattle.pv_place.specs.Ranges.{range_of};
ghost use Rattle.pv_mean.specs.Frames.{range_of_cell};
ghost use Rattle.pv_lift.specs.Groups.{has, bounds_in};
ghost use Rattle.pv_lift.specs.Lifts.{looks_back_of};
ghost use Rattle.pv_lift.specs.Facts.{bounds_of, facts_of};

use crate::trace::is_free;
use pv_kind::Limits;
use pv_mean::Cell;
use pv_pattern::Pattern;
use pv_place::Role;
use pv_valid::{CellRanges, Facts};
use pv_word::{Ty, greatest, least};
use std::alloc::{AllocError, Global};

/// Which cells a list of ranges is of.
#[derive(Clone, Copy)]
enum Group {
    /// The parameters that no binding gives a value.
    Free,
    /// The cells that take a value at each scan.
    Input,
    /// The cells that are stored from scan to scan.
    Stored,
}

/// Whether the cell is one of the group.
fn has(group: Group, cell: &Cell) -> bool
    ensures { result ≡ has group cell.now }
{
    match group {
        Group::Free => is_free(cell),
        Group::Input => cell.role.is_input(),
        Group::Stored => cell.role.is_stored(),
    }
}

/// The least and the greatest value of a type.
fn of_type(ty: Ty) -> (i128, i128)
    ensures { result ≡ bounds_of (range_of ty) }
{
    (least(ty), greatest(ty))
}

/// The least and the greatest value of a cell: a bound parameter has its value alone, each other cell those of its type.
fn bounds(cell: &Cell) -> (i128, i128)
    ensures { result ≡ bounds_of (range_of_cell cell.now) }
{
    match cell.role {
        Role::Param => match cell.bound {
            Some(value) => (value, value),
            None => of_type(cell.ty),
        },
        Role::Input | Role::Kept | Role::Brief => of_type(cell.ty),
    }
}

/// Adds the range of the cell, if it is one of the group.
fn push_range(ranges: &mut Vec<(i128, i128)>, group: Group, cell: &Cell) -> Result<(), AllocError>
    ensures { OnOk result (ranges.new.items
        ≡ ranges.old.items ++ (if has group cell.now then bounds_of (range_of_cell cell.now) ∷ [] else [])) }
{
    if has(group, cell) {
        ranges.push(bounds(cell))?;
    }
    Ok(())
}

/// The ranges of the group's cells, in the order of the table.
fn ranges(alloc: Global, cells: &[Cell], group: Group) -> Result<CellRanges, AllocError>
    ensures { IfOk result (λ ranges. ranges ≡ bounds_in group cells.now) }
{
    let mut ranges = Vec::new(alloc);
    for cell in cells {
        push_range(&mut ranges, group, cell)?;
    }
    Ok(CellRanges::from_vec(ranges))
}

/// Whether the pattern looks back at the scan before.
pub(crate) fn looks_back(pattern: &Pattern) -> bool
    ensures { result ≡ looks_back_of pattern.now }
{
    match pattern {
        Pattern::Between(..) => true,
        Pattern::Invariant(_)
        | Pattern::Forbidden(_)
        | Pattern::Implication(..)
        | Pattern::Within(..)
        | Pattern::Reach(_) => false,
    }
}

/// What is known of a case with these cells and limits, whose pattern asks for a goal or looks back.
pub(crate) fn facts_of(
    alloc: Global,
    cells: &[Cell],
    goal: bool,
    looks_back: bool,
    limits: &Limits,
) -> Result<Facts, AllocError>
    ensures { IfOk result (λ facts. facts ≡ facts_of cells.now goal looks_back limits.now) }
{
    let params = ranges(alloc, cells, Group::Free)?;
    let input = ranges(alloc, cells, Group::Input)?;
    let image = ranges(alloc, cells, Group::Stored)?;
    Ok(Facts {
        goal,
        looks_back,
        depth: limits.depth,
        lemmas: limits.lemmas,
        words: limits.words,
        params,
        input,
        image,
    })
}
