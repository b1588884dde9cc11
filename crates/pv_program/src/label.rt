//! Labels of a body: where each stands, where the last jump to it is, and where jumps lead.
//!
//! They are found in two tables by their names.
ghost use Rattle.std.specs.Prelude.{◌≡◌, ◌∷◌, ◌++◌, ◌+◌, ◌<◌, ◌^◌, [], ℕ, List, IfErr, IfOk, OnOk, Some, drop, length, map, option_map, slice_get, take};
ghost use Rattle.pv_tree.specs.InstructionGroups as groups;
ghost use Rattle.pv_tree.specs.Tree.{InstrTree};
ghost use Rattle.pv_tree.specs.View.{instr_tree, operand_tree, step_tree, steps_of};
ghost use Rattle.pv_names.specs.Firsts.{number_in};
ghost use Rattle.pv_stl_run.specs.Going.{LeadsTo, range_of};
ghost use Rattle.pv_resolve.specs.declared.fault.ResolveFault.TheVariants.{NoMemory};
ghost use Rattle.pv_program.specs.Labels.{label_tree, ends_here, FindsLabels, FindsJumps, IsUnmet, is_from};

use crate::word::when;
use pv_names::Firsts;
use pv_place::Place;
use pv_resolve::ResolveFault;
use pv_stl_run::Goal;
use pv_tree::{Instr, Operand, Root};
use pv_types::Name;
use std::alloc::{AllocError, Global};

/// A label that a jump names, with its place.
#[derive(Clone, Copy)]
pub(crate) struct Label<'s> {
    pub(crate) name: &'s Name,
    pub(crate) place: Place,
}

/// Whether an operand has no steps.
fn ends_here(operand: &Operand) -> bool
    ensures { result ≡ ends_here (steps_of (map step_tree operand.now.steps.items)) }
{
    operand.steps.as_slice().split_first().is_none()
}

/// The label that an operand is: one word without `#` and steps.
fn label_in(operand: &Operand) -> Option<Label>
    ensures { option_map label_tree result ≡ groups.label_of_operand (operand_tree operand.now) }
{
    match &*operand.root {
        Root::Local { name, hash, place } => {
            if !*hash && ends_here(operand) {
                Some(Label {
                    name,
                    place: *place,
                })
            } else {
                None
            }
        }
        Root::Named(_) => None,
        Root::Area { .. } => None,
    }
}

/// The label that a jump names.
pub(crate) fn label_of(instr: &Instr) -> Option<Label>
    ensures { option_map label_tree result ≡ groups.label_of_jump (instr_tree instr.now) }
{
    if when(instr.op).is_none() {
        return None;
    }
    match instr.operand() {
        Some(operand) => label_in(operand),
        None => None,
    }
}

/// Puts the label of an instruction into a table. None is there twice.
fn meet(at: &mut Firsts, instr: &Instr, k: usize) -> Result<(), ResolveFault>
    ensures finds { (before : List InstrTree) → k ≡ length before → FindsLabels at.old before
        → OnOk result (FindsLabels at.new (before ++ instr_tree instr.now ∷ [])) }
    ensures room { (before : List InstrTree) → FindsLabels at.old before
        → IsUnmet before (instr_tree instr.now) → IfErr result (λ e. e ≡ NoMemory) }
{
    match instr.label() {
        Some(label) => {
            if at.find(&label.0).is_some() {
                return Err(ResolveFault::TooLarge);
            }
            at.push(&label.0, k)?;
            Ok(())
        }
        None => Ok(()),
    }
}

/// Where labels stand.
fn labels_at(alloc: Global, instrs: &[Instr]) -> Result<Firsts, ResolveFault>
    ensures finds { IfOk result (λ f. FindsLabels f (map instr_tree instrs.now)) }
    ensures room { ((k : ℕ) (i : InstrTree) → slice_get (map instr_tree instrs.now) k ≡ Some i
        → IsUnmet (take k (map instr_tree instrs.now)) i) → IfErr result (λ e. e ≡ NoMemory) }
{
    let mut at = Firsts::new(alloc);
    for (k, instr) in instrs.iter().enumerate() {
        meet(&mut at, instr, k)?;
    }
    Ok(at)
}

/// Puts the label that an instruction jumps to into a table of those that instructions behind it jump to.
fn note(last: &mut Firsts, instr: &Instr, k: usize) -> Result<(), AllocError>
    ensures { (all : List InstrTree) → slice_get all k ≡ Some (instr_tree instr.now)
        → FindsJumps last.old all (k + 1) → OnOk result (FindsJumps last.new all k) }
{
    match label_of(instr) {
        Some(label) => last.push(label.name, k),
        None => Ok(()),
    }
}

/// The last jumps to labels.
fn last_jumps(alloc: Global, instrs: &[Instr]) -> Result<Firsts, AllocError>
    ensures { IfOk result (λ f. FindsJumps f (map instr_tree instrs.now) 0) }
{
    let mut last = Firsts::new(alloc);
    for n in 0..instrs.len() {
        let k = instrs.len() - 1 - n;
        note(&mut last, &instrs[k], k)?;
    }
    Ok(last)
}

/// The labels of a body: where each stands, and where the last jump to it is.
#[derive(Drop)]
pub(crate) struct Labels {
    pub(crate) at: Firsts,
    pub(crate) last: Firsts,
}

/// The labels of a body. One that is doubled breaks a rule, and is refused as too large.
pub(crate) fn labels_of(alloc: Global, instrs: &[Instr]) -> Result<Labels, ResolveFault>
    ensures at { IfOk result (λ l. FindsLabels l.at (map instr_tree instrs.now)) }
    ensures last { IfOk result (λ l. FindsJumps l.last (map instr_tree instrs.now) 0) }
    ensures room { ((k : ℕ) (i : InstrTree) → slice_get (map instr_tree instrs.now) k ≡ Some i
        → IsUnmet (take k (map instr_tree instrs.now)) i) → IfErr result (λ e. e ≡ NoMemory) }
{
    let at = labels_at(alloc, instrs)?;
    let last = last_jumps(alloc, instrs)?;
    Ok(Labels { at, last })
}

/// Where a jump at a position leads. Without the label it leads to no instruction, which ends the body.
pub(crate) fn goal_of(labels: &Labels, k: usize, name: &Name) -> Goal
    ensures { (all : List InstrTree) → FindsLabels labels.now.at all → length all < 2 ^ 64
        → LeadsTo all k name.now.key result }
{
    match labels.at.find(name) {
        Some(at) => {
            if at > k {
                Goal::Ahead(at)
            } else {
                Goal::Back(at)
            }
        }
        None => Goal::Back(usize::MAX),
    }
}

/// Whether a label is jumped to from a position or from behind it.
fn begins_range(labels: &Labels, k: usize, name: &Name) -> bool
    ensures { result ≡ is_from k (number_in labels.now.last name.now.key) }
{
    match labels.last.find(name) {
        Some(last) => k <= last,
        None => false,
    }
}

/// The place of an instruction's label, if a range begins there.
pub(crate) fn range_at(labels: &Labels, k: usize, instr: &Instr) -> Option<Place>
    ensures { (all : List InstrTree) → slice_get all k ≡ Some (instr_tree instr.now)
        → FindsJumps labels.now.last all 0 → result ≡ range_of (drop k all) }
{
    match instr.label() {
        Some(label) => {
            if begins_range(labels, k, &label.0) {
                Some(label.1)
            } else {
                None
            }
        }
        None => None,
    }
}
