//! The ranges around each instruction that isn't their first: the least last and the greatest first of them.
//!
//! Both are found by one pass with a stack: what the pass has met lies on it, the nearest on top, and what can't be asked for any
//! more is taken off where it lies on top.
ghost use Rattle.std.specs.Prelude.{◌≡◌, ◌<◌, ◌∷◌, ℕ, IfOk, OnOk, length, reverse};
ghost use Rattle.pv_rules_instr.specs.AtRanges.{end_at, number_at, start_at};
ghost use Rattle.pv_rules_instr.specs.Stacks.{is_early, is_late, top_of, without_early, without_late};

use crate::numbers::{is_under, number_at, reaches};
use std::alloc::{AllocError, Global};

/// What lies on top.
fn top_of(met: &[usize]) -> Option<usize>
    ensures { result ≡ top_of (reverse met.now) }
{
    match met.last() {
        Some(n) => Some(*n),
        None => None,
    }
}

/// Whether no range that begins before the instruction ends with what lies on top.
fn is_late(firsts: &[Option<usize>], met: &[usize], n: usize) -> bool
    ensures { result ≡ is_late firsts.now n (reverse met.now) }
{
    match met.last() {
        Some(last) => !is_under(n, number_at(firsts, *last)),
        None => false,
    }
}

/// Whether no range that ends with the instruction or behind begins with what lies on top.
fn is_early(lasts: &[Option<usize>], met: &[usize], n: usize) -> bool
    ensures { result ≡ is_early lasts.now n (reverse met.now) }
{
    match met.last() {
        Some(first) => !reaches(n, number_at(lasts, *first)),
        None => false,
    }
}

/// Takes off what can't be asked for from this instruction backwards.
fn drop_late(firsts: &[Option<usize>], met: &mut Vec<usize>, n: usize)
    ensures { reverse met.new.items ≡ without_late firsts.now n (reverse met.old.items) }
{
    while is_late(firsts, met.as_slice(), n) {
        let _hidden = met.pop();
    }
}

/// Takes off what can't be asked for from this instruction onwards.
fn drop_early(lasts: &[Option<usize>], met: &mut Vec<usize>, n: usize)
    ensures { reverse met.new.items ≡ without_early lasts.now n (reverse met.old.items) }
{
    while is_early(lasts, met.as_slice(), n) {
        let _hidden = met.pop();
    }
}

/// Meets an instruction, those behind it having been met, and gives the least last of the ranges around it.
fn meet_end(
    firsts: &[Option<usize>],
    met: &mut Vec<usize>,
    n: usize,
) -> Result<Option<usize>, AllocError>
    ensures met { OnOk result (reverse met.new.items
        ≡ without_late firsts.now n (n ∷ reverse met.old.items)) }
    ensures top { IfOk result (λ o. o ≡ top_of (reverse met.new.items)) }
{
    met.push(n)?;
    drop_late(firsts, met, n);
    Ok(top_of(met.as_slice()))
}

/// Meets an instruction, those before it having been met, and gives the greatest first of the ranges around it.
fn meet_start(
    lasts: &[Option<usize>],
    met: &mut Vec<usize>,
    n: usize,
) -> Result<Option<usize>, AllocError>
    ensures met { OnOk result (reverse met.new.items
        ≡ n ∷ without_early lasts.now n (reverse met.old.items)) }
    ensures top { IfOk result (λ o. o
        ≡ top_of (without_early lasts.now n (reverse met.old.items))) }
{
    drop_early(lasts, met, n);
    let start = top_of(met.as_slice());
    met.push(n)?;
    Ok(start)
}

/// For each instruction the least last of the ranges around it.
pub(crate) fn ends_of(
    alloc: Global,
    firsts: &[Option<usize>],
) -> Result<Vec<Option<usize>>, AllocError>
    ensures { IfOk result (λ v. (n : ℕ) → number_at v.items n ≡ end_at firsts.now n) }
{
    let mut ends = vec![in alloc; None; firsts.len()]?;
    let mut met = Vec::new(alloc);
    let mut n = firsts.len();
    while n > 0 {
        n -= 1;
        ends[n] = meet_end(firsts, &mut met, n)?;
    }
    Ok(ends)
}

/// For each instruction the greatest first of the ranges around it.
pub(crate) fn starts_of(
    alloc: Global,
    lasts: &[Option<usize>],
) -> Result<Vec<Option<usize>>, AllocError>
    ensures length { IfOk result (λ v. length v.items ≡ length lasts.now) }
    ensures starts { IfOk result (λ v. (n : ℕ) → n < length lasts.now
        → number_at v.items n ≡ start_at lasts.now n) }
{
    let mut starts = Vec::new(alloc);
    let mut met = Vec::new(alloc);
    for n in 0..lasts.len() {
        let start = meet_start(lasts, &mut met, n)?;
        starts.push(start)?;
    }
    Ok(starts)
}
