//! Ranges of backward jumps by the numbers of their instructions, in linear time.
ghost use Rattle.std.specs.Prelude.{◌≡◌, ◌<◌, List, IfOk, length, map};
ghost use Rattle.pv_tree.specs.Tree.{InstrTree};
ghost use Rattle.pv_tree.specs.View.{instr_tree};
ghost use Rattle.pv_rules_instr.specs.AtLabels.{FindsLabels};
ghost use Rattle.pv_rules_instr.specs.AtRanges.{first_of, firsts_from, goal_of, goals_of, is_over, is_under, lasts_of, mark_last, number_at, reaches};

use crate::label::label_of_jump;
use pv_names::Firsts;
use pv_tree::Instr;
use std::alloc::{AllocError, Global};

/// The number at a place, if there is one.
pub(crate) fn number_at(numbers: &[Option<usize>], n: usize) -> Option<usize>
    ensures { result ≡ number_at numbers.now n }
{
    if n < numbers.len() { numbers[n] } else { None }
}

/// Whether there is a number, and it is under this one.
pub(crate) fn is_under(n: usize, other: Option<usize>) -> bool
    ensures { result ≡ is_under n other }
{
    match other {
        Some(m) => m < n,
        None => false,
    }
}

/// Whether there is a number, and it is over this one.
pub(crate) fn is_over(n: usize, other: Option<usize>) -> bool
    ensures { result ≡ is_over n other }
{
    match other {
        Some(m) => n < m,
        None => false,
    }
}

/// Whether there is a number, and it isn't under this one.
pub(crate) fn reaches(n: usize, other: Option<usize>) -> bool
    ensures { result ≡ reaches n other }
{
    match other {
        Some(m) => n <= m,
        None => false,
    }
}

/// The number of the instruction that an instruction jumps to.
fn goal_of(table: &Firsts, instr: &Instr) -> Option<usize>
    ensures { (all : List InstrTree) → FindsLabels table.now all
        → result ≡ goal_of all (instr_tree instr.now) }
{
    match label_of_jump(instr) {
        Some(label) => table.find(label.name),
        None => None,
    }
}

/// For each instruction the number of the one that it jumps to.
pub(crate) fn goals_of(
    alloc: Global,
    table: &Firsts,
    list: &[Instr],
) -> Result<Vec<Option<usize>>, AllocError>
    ensures { FindsLabels table.now (map instr_tree list.now)
        → IfOk result (λ v. v.items ≡ goals_of (map instr_tree list.now)) }
{
    let mut goals = Vec::new(alloc);
    for instr in list {
        goals.push(goal_of(table, instr))?;
    }
    Ok(goals)
}

/// A jump is the last so far of the range that begins with its goal.
fn mark_last(lasts: &mut Vec<Option<usize>>, goal: Option<usize>, jump: usize)
    ensures { lasts.new.items ≡ mark_last lasts.old.items goal jump }
{
    match goal {
        Some(first) => {
            if first <= jump && first < lasts.len() {
                lasts[first] = Some(jump);
            }
        }
        None => {}
    }
}

/// For each instruction the last of the range that begins with it.
pub(crate) fn lasts_of(
    alloc: Global,
    goals: &[Option<usize>],
) -> Result<Vec<Option<usize>>, AllocError>
    ensures { IfOk result (λ v. v.items ≡ lasts_of goals.now) }
{
    let mut lasts = vec![in alloc; None; goals.len()]?;
    for (jump, goal) in goals.iter().enumerate() {
        mark_last(&mut lasts, *goal, jump);
    }
    Ok(lasts)
}

/// The first of the range that a jump to this goal ends.
fn first_of(lasts: &[Option<usize>], jump: usize, goal: Option<usize>) -> Option<usize>
    ensures { result ≡ first_of lasts.now jump goal }
{
    match goal {
        Some(first) => match number_at(lasts, first) {
            Some(last) => if jump == last { Some(first) } else { None },
            None => None,
        },
        None => None,
    }
}

/// For each instruction the first of the range that ends with it.
pub(crate) fn firsts_of(
    alloc: Global,
    lasts: &[Option<usize>],
    goals: &[Option<usize>],
) -> Result<Vec<Option<usize>>, AllocError>
    ensures { IfOk result (λ v. v.items ≡ firsts_from lasts.now 0 goals.now) }
{
    let mut firsts = Vec::new(alloc);
    for (jump, goal) in goals.iter().enumerate() {
        firsts.push(first_of(lasts, jump, *goal))?;
    }
    Ok(firsts)
}
