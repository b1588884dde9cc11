//! Labels: jumps whose label is missing in their block, and labels that are doubled. They are met in a table, with the number of
//! the first instruction that has each.
ghost use Rattle.std.specs.Prelude.{◌≡◌, ◌∷◌, ◌++◌, [], List, IfOk, OnOk, length, map, option_map, option_and_then};
ghost use Rattle.pv_tree.specs.InstructionGroups as groups;
ghost use Rattle.pv_tree.specs.Tree.{InstrTree};
ghost use Rattle.pv_tree.specs.View.{instr_tree};
ghost use Rattle.pv_rules_expr.specs.NearestIn.{nearest_in};
ghost use Rattle.pv_rules_instr.specs.AtLabels.{FindsLabels, label_place, label_tree, later_at, later_from, missing_at};

use crate::group::{Group, group_of};
use crate::operand::{Label, label_of_operand};
use pv_names::Firsts;
use pv_place::Place;
use pv_rules_expr::{nearer_of, where_is};
use pv_tree::Instr;
use std::alloc::{AllocError, Global};

/// The labels of instructions, each with the number of the first that has it, and the nearest that is doubled.
#[derive(Drop)]
pub(crate) struct Labels {
    pub(crate) table: Firsts,
    pub(crate) doubled: Option<Place>,
}

/// The label that an instruction jumps to.
pub(crate) fn label_of_jump(instr: &Instr) -> Option<Label>
    ensures { option_map label_tree result ≡ groups.label_of_jump (instr_tree instr.now) }
{
    match group_of(instr.op) {
        Group::Jump => match instr.operand() {
            Some(operand) => label_of_operand(operand),
            None => None,
        },
        _ => None,
    }
}

/// Puts the label of instruction number `number` into the table, and gives the nearest doubled one.
fn meet(
    table: &mut Firsts,
    instr: &Instr,
    number: usize,
    nearest: Option<Place>,
) -> Result<Option<Place>, AllocError>
    ensures near { (before : List InstrTree) → FindsLabels table.old before → IfOk result (λ o. o
        ≡ later_from before (instr_tree instr.now ∷ []) nearest) }
    ensures met { (before : List InstrTree) → FindsLabels table.old before → number ≡ length before
        → OnOk result (FindsLabels table.new (before ++ instr_tree instr.now ∷ [])) }
{
    match instr.label() {
        Some(label) => {
            let found = where_is(table.find(&label.0).is_some(), label.1);
            table.push(&label.0, number)?;
            Ok(nearer_of(nearest, found))
        }
        None => Ok(nearest),
    }
}

/// The labels of instructions.
pub(crate) fn labels_of(alloc: Global, list: &[Instr]) -> Result<Labels, AllocError>
    ensures table { IfOk result (λ l. FindsLabels l.table (map instr_tree list.now)) }
    ensures doubled { IfOk result (λ l. l.doubled ≡ later_from [] (map instr_tree list.now) None) }
{
    let mut table = Firsts::new(alloc);
    let mut doubled = None;
    for (number, instr) in list.iter().enumerate() {
        doubled = meet(&mut table, instr, number, doubled)?;
    }
    Ok(Labels { table, doubled })
}

/// The label of a jump that none of the instructions has.
fn missing_label(table: &Firsts, instr: &Instr) -> Option<Place>
    ensures { (all : List InstrTree) → FindsLabels table.now all
        → result ≡ missing_at all (instr_tree instr.now) }
{
    match label_of_jump(instr) {
        Some(label) => where_is(table.find(label.name).is_none(), label.place),
        None => None,
    }
}

/// The nearest label that is missing behind a jump, or doubled.
pub(crate) fn label_place(alloc: Global, list: &[Instr]) -> Result<Option<Place>, AllocError>
    ensures { IfOk result (λ o. o ≡ label_place (map instr_tree list.now)) }
{
    let labels = labels_of(alloc, list)?;
    let mut best = labels.doubled;
    for instr in list {
        best = nearer_of(best, missing_label(&labels.table, instr));
    }
    Ok(best)
}
