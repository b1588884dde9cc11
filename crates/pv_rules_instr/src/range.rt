//! Ranges of backward jumps that are entered elsewhere than at their label, or that cross.
ghost use Rattle.std.specs.Prelude.{◌≡◌, IfOk, None, map};
ghost use Rattle.pv_tree.specs.View.{instr_tree};
ghost use Rattle.pv_rules_instr.specs.AtLabels.{FindsLabels};
ghost use Rattle.pv_rules_instr.specs.AtRanges.{RangeNumbers, cross_at, enter_at, goals_of, numbers_of_goals, range_at, range_from, range_place};
ghost use Rattle.pv_rules_instr.specs.Ranges.{IsRanges};

use crate::around::{ends_of, starts_of};
use crate::label::labels_of;
use crate::numbers::{firsts_of, goals_of, is_over, is_under, lasts_of, number_at};
use pv_names::Firsts;
use pv_place::Place;
use pv_rules_expr::{nearer_of, where_is};
use pv_tree::Instr;
use std::alloc::{AllocError, Global};

/// The ranges of instructions, by number.
#[derive(Drop)]
struct Ranges {
    /// Where each instruction jumps to.
    goals: Vec<Option<usize>>,
    /// The last of the range that begins with it.
    lasts: Vec<Option<usize>>,
    /// The greatest first of the ranges around it that it isn't the first of.
    starts: Vec<Option<usize>>,
    /// The least last of them.
    ends: Vec<Option<usize>>,
}

/// The ranges of instructions that jump so.
fn ranges_of_goals(alloc: Global, goals: Vec<Option<usize>>) -> Result<Ranges, AllocError>
    ensures { IfOk result (λ r. IsRanges r (numbers_of_goals goals.items)) }
{
    let lasts = lasts_of(alloc, goals.as_slice())?;
    let firsts = firsts_of(alloc, lasts.as_slice(), goals.as_slice())?;
    let starts = starts_of(alloc, lasts.as_slice())?;
    let ends = ends_of(alloc, firsts.as_slice())?;
    Ok(Ranges {
        goals,
        lasts,
        starts,
        ends,
    })
}

/// The ranges of instructions, whose labels are in the table.
fn ranges_of(alloc: Global, table: &Firsts, list: &[Instr]) -> Result<Ranges, AllocError>
    ensures { FindsLabels table.now (map instr_tree list.now)
        → IfOk result (λ r. IsRanges r (numbers_of_goals (goals_of (map instr_tree list.now)))) }
{
    let goals = goals_of(alloc, table, list)?;
    ranges_of_goals(alloc, goals)
}

/// The word of a jump that enters a range.
fn enter_at(ranges: &Ranges, n: usize, instr: &Instr) -> Option<Place>
    ensures { (r : RangeNumbers) → IsRanges ranges.now r
        → result ≡ enter_at r n (instr_tree instr.now) }
{
    match number_at(ranges.goals.as_slice(), n) {
        Some(to) => {
            let before = is_over(n, number_at(ranges.starts.as_slice(), to));
            let behind = is_under(n, number_at(ranges.ends.as_slice(), to));
            where_is(before || behind, instr.place)
        }
        None => None,
    }
}

/// The label of a range that crosses one which begins before.
fn cross_at(ranges: &Ranges, n: usize, instr: &Instr) -> Option<Place>
    ensures { (r : RangeNumbers) → IsRanges ranges.now r
        → result ≡ cross_at r n (instr_tree instr.now) }
{
    match number_at(ranges.lasts.as_slice(), n) {
        Some(last) => match instr.label() {
            Some(label) => {
                where_is(
                    is_under(last, number_at(ranges.ends.as_slice(), n)),
                    label.1,
                )
            }
            None => None,
        },
        None => None,
    }
}

/// Where an instruction enters a range, or a range begins with it that crosses another.
fn range_at(ranges: &Ranges, n: usize, instr: &Instr) -> Option<Place>
    ensures { (r : RangeNumbers) → IsRanges ranges.now r
        → result ≡ range_at r n (instr_tree instr.now) }
{
    nearer_of(enter_at(ranges, n, instr), cross_at(ranges, n, instr))
}

/// The nearest of them.
fn nearest_range(ranges: &Ranges, list: &[Instr]) -> Option<Place>
    ensures { (r : RangeNumbers) → IsRanges ranges.now r
        → result ≡ range_from r 0 (map instr_tree list.now) None }
{
    let mut best = None;
    for (n, instr) in list.iter().enumerate() {
        best = nearer_of(best, range_at(ranges, n, instr));
    }
    best
}

/// The nearest place at which a range is entered elsewhere than at its label, or crosses another.
pub(crate) fn range_place(alloc: Global, list: &[Instr]) -> Result<Option<Place>, AllocError>
    ensures { IfOk result (λ o. o ≡ range_place (map instr_tree list.now)) }
{
    let labels = labels_of(alloc, list)?;
    let ranges = ranges_of(alloc, &labels.table, list)?;
    Ok(nearest_range(&ranges, list))
}
