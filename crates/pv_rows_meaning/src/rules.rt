//! Types of expressions, and the rules that sources break.
use crate::reading::{
    blocks_of, expression_of, number_of, project_of, said, tell_broken, type_word,
};
use pv_names::{Entry, Scope, Tables, Want, entries};
use pv_place::Place;
use pv_rows_form::{Row, Told};
use pv_rules_code::{CodeNear, nearest_in_code};
use pv_rules_decl::{check_expression, pattern_breach};
use pv_tree::{Block, Expr, Operand, Project};
use pv_types::Name;
use pv_word::Ty;
use std::alloc::AllocError;

/// An expression's type; else the number of the first rule that it breaks, with the offset.
fn tell_in(scope: &Scope, e: &Expr, told: &mut Told) {
    match pattern_breach(scope, told.alloc(), e) {
        Ok(Some(breach)) => {
            told.number(i128::from(breach.rule.number()));
            told.text(" at ");
            told.number(i128::from(breach.place.offset));
        }
        Ok(None) => match scope.type_of(told.alloc(), Want::Nothing, e) {
            Ok(Some(ty)) => told.text(type_word(ty)),
            Ok(None) => told.text("no type"),
            Err(_) => told.lose(),
        },
        Err(_) => told.lose(),
    }
}

/// The same over the names of the first block of these tables.
fn tell_of(tables: &Tables, e: &Expr, told: &mut Told) {
    if let Some(entry) = tables.entries().first() {
        let scope = Scope { tables, entry };
        tell_in(&scope, e, told);
    }
}

/// The same, where each block has its table.
fn tell_among(
    all: &[Entry],
    symbols: &[(Name, Operand, Ty)],
    e: &Expr,
    told: &mut Told,
) -> Result<(), AllocError> {
    let tables = Tables::of(told.alloc(), all, symbols)?;
    tell_of(&tables, e, told);
    Ok(())
}

/// The same over the names of the first block.
fn tell_over(blocks: &[Block], e: &Expr, told: &mut Told) -> Result<(), AllocError> {
    let all = entries(told.alloc(), blocks)?;
    tell_among(all.as_slice(), &[], e, told)
}

/// The type of the row's expression over the names of the first block of its source, or the first rule that it breaks as a requirement does.
pub fn tell_type(row: Row<'_>, told: &mut Told) {
    let text = said(row, "expression", told);
    let blocks = blocks_of(row, told);
    if let Some(e) = expression_of(text.as_str(), told) {
        if tell_over(blocks.as_slice(), &e, told).is_err() {
            told.lose();
        }
        drop(e);
    }
    drop(blocks);
}

/// What is answered of an expression over the names of the block of this number.
fn tell_expression(project: &Project, entry: u32, e: &Expr, told: &mut Told) {
    if entry as usize >= project.blocks().list.len() {
        return;
    }
    match check_expression(told.alloc(), e, project, entry) {
        Ok(ty) => told.text(type_word(ty)),
        Err(fault) => tell_broken(fault, told),
    }
}

/// The type of the row's expression in its project, or the first rule that it breaks.
pub fn tell_checked(row: Row<'_>, told: &mut Told) {
    let entry = number_of(said(row, "entry", told).as_str());
    let text = said(row, "expression", told);
    if let Some(project) = project_of(row, told) {
        if let Some(e) = expression_of(text.as_str(), told) {
            tell_expression(&project, entry, &e, told);
            drop(e);
        }
        drop(project);
    }
}

/// A rule with its least place, where it is broken.
fn tell_least(rule: i128, place: Option<Place>, told: &mut Told) {
    if let Some(place) = place {
        told.number(rule);
        told.text(" at ");
        told.number(i128::from(place.offset));
        told.text(" ");
    }
}

/// The rules on statements and calls that are broken, each with its least place.
fn tell_near(near: CodeNear, told: &mut Told) {
    tell_least(5, near.condition, told);
    tell_least(9, near.target, told);
    tell_least(10, near.counter, told);
    tell_least(11, near.step, told);
    tell_least(12, near.leave, told);
    tell_least(13, near.choice, told);
    tell_least(17, near.argument, told);
    tell_least(18, near.output, told);
}

/// The same of the blocks of these tables.
fn tell_rules(tables: &Tables, told: &mut Told) {
    match nearest_in_code(told.alloc(), tables) {
        Ok(near) => tell_near(near, told),
        Err(_) => told.lose(),
    }
}

/// The same of entered blocks.
fn tell_entered(
    all: &[Entry],
    symbols: &[(Name, Operand, Ty)],
    told: &mut Told,
) -> Result<(), AllocError> {
    let tables = Tables::of(told.alloc(), all, symbols)?;
    tell_rules(&tables, told);
    Ok(())
}

/// The same of blocks.
fn tell_broken_by(blocks: &[Block], told: &mut Told) -> Result<(), AllocError> {
    let all = entries(told.alloc(), blocks)?;
    tell_entered(all.as_slice(), &[], told)
}

/// The rules on statements and calls that the row's source breaks.
pub fn tell_breaches(row: Row<'_>, told: &mut Told) {
    let blocks = blocks_of(row, told);
    if tell_broken_by(blocks.as_slice(), told).is_err() {
        told.lose();
    }
    drop(blocks);
}
