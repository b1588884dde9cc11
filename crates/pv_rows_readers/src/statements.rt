//! Statements and instructions as rows show them.
use crate::op_words::op_word;
use crate::trees::{
    View, tell_call, tell_expr, tell_literal, tell_more, tell_name, tell_named, tell_operand,
    tell_place,
};
use pv_place::Place;
use pv_rows_form::Told;
use pv_tree::{Choice, ChoiceRange, Expr, ForHead, Instr, Stmt};
use pv_types::{Literal, Name};

fn tell_choice(view: View, choice: &Choice, told: &mut Told) {
    match choice {
        Choice::Lit(literal) => tell_literal(view, literal, told),
        Choice::Const(name, place) => tell_named(view, name, *place, told),
    }
}

/// The values of a branch of CASE.
fn tell_label(view: View, label: &[ChoiceRange], told: &mut Told) {
    let mut between = "[";
    for range in label {
        told.text(between);
        tell_choice(view, range.lower(), told);
        if let Some(upper) = range.upper() {
            told.text("..");
            tell_choice(view, upper, told);
        }
        between = ",";
    }
    told.text(":");
}

/// A word with its place.
fn tell_word(view: View, word: &str, place: Place, told: &mut Told) {
    told.text(word);
    tell_place(view, place, told);
}

/// A word with its place, and an expression.
fn tell_head(view: View, word: &str, place: Place, e: &Expr, told: &mut Told) {
    tell_word(view, word, place, told);
    told.text(" ");
    tell_expr(view, e, told);
}

/// What stands behind FOR: the variable, its start and end, and the step.
fn tell_turns(view: View, head: &ForHead, told: &mut Told) {
    told.text(" ");
    tell_name(view, &head.var, told);
    tell_head(view, "", head.var_place, &head.first, told);
    told.text(" ");
    tell_expr(view, &head.last, told);
    told.text(" ");
    match &head.by {
        Some(step) => tell_literal(view, step, told),
        None => told.text("-"),
    }
    told.text(" ");
}

/// What stands before the statements in a statement, or the whole of one that has none.
fn tell_front(view: View, stmt: &Stmt, told: &mut Told) {
    match stmt {
        Stmt::If { place, .. } => {
            tell_word(view, "IF", *place, told);
            told.text(" ");
        }
        Stmt::Case {
            selector,
            place,
            ..
        } => {
            tell_head(view, "CASE", *place, selector, told);
            told.text(" ");
        }
        Stmt::For { head, place, .. } => {
            tell_word(view, "FOR", *place, told);
            tell_turns(view, head, told);
            told.text("{");
        }
        Stmt::While { cond, place, .. } => {
            tell_head(view, "WHILE", *place, cond, told);
            told.text("{");
        }
        Stmt::Repeat { place, .. } => {
            tell_word(view, "REPEAT", *place, told);
            told.text(" {");
        }
        _ => tell_plain(view, stmt, told),
    }
}

/// What stands after the statements in a loop.
fn tell_back(view: View, stmt: &Stmt, told: &mut Told) {
    match stmt {
        Stmt::For { .. } | Stmt::While { .. } => told.text("}"),
        Stmt::Repeat { cond, .. } => {
            told.text("} ");
            tell_expr(view, cond, told);
        }
        _ => {}
    }
}

/// Whether there is an ELSE.
fn tell_else(is_there: bool, told: &mut Told) {
    told.text(if is_there { " else {" } else { " else -" });
}

/// The condition of an arm of IF.
fn tell_arm(view: View, arm: &(Expr, Vec<Stmt>), told: &mut Told) {
    tell_expr(view, &arm.0, told);
    told.text("{");
}

/// The values of a branch of CASE.
fn tell_branch(view: View, branch: &(Vec<ChoiceRange>, Vec<Stmt>), told: &mut Told) {
    tell_label(view, branch.0.as_slice(), told);
}

/// Statements, each with a blank behind it.
#[cycle(listing)]
pub fn tell_list(view: View, list: &[Stmt], told: &mut Told) {
    for stmt in list {
        tell_stmt(view, stmt, told);
        told.text(" ");
    }
}

#[cycle(listing)]
fn tell_stmt(view: View, stmt: &Stmt, told: &mut Told) {
    tell_front(view, stmt, told);
    match stmt {
        Stmt::If { arms, other, .. } => {
            for arm in arms {
                tell_arm(view, arm, told);
                tell_list(view, arm.1.as_slice(), told);
                told.text("}");
            }
            tell_else(other.is_some(), told);
            if let Some(list) = other {
                tell_list(view, list.as_slice(), told);
                told.text("}");
            }
        }
        Stmt::Case {
            branches,
            other,
            ..
        } => {
            for branch in branches {
                tell_branch(view, branch, told);
                tell_list(view, branch.1.as_slice(), told);
                told.text("]");
            }
            tell_else(other.is_some(), told);
            if let Some(list) = other {
                tell_list(view, list.as_slice(), told);
                told.text("}");
            }
        }
        Stmt::For { body, .. } => tell_list(view, body.as_slice(), told),
        Stmt::While { body, .. } => tell_list(view, body.as_slice(), told),
        Stmt::Repeat { body, .. } => tell_list(view, body.as_slice(), told),
        _ => {}
    }
    tell_back(view, stmt, told);
}

/// A statement that has no others in it.
fn tell_plain(view: View, stmt: &Stmt, told: &mut Told) {
    match stmt {
        Stmt::Assign {
            target,
            place,
            value,
        } => {
            tell_operand(view, target, told);
            tell_head(view, " :=", *place, value, told);
            told.text(";");
        }
        Stmt::AssignCall {
            target,
            place,
            call,
        } => {
            tell_operand(view, target, told);
            tell_word(view, " :=", *place, told);
            told.text(" ");
            tell_call(view, call, told);
            told.text(";");
        }
        Stmt::Call(call) => {
            tell_call(view, call, told);
            told.text(";");
        }
        Stmt::Exit(place) => tell_word(view, "exit", *place, told),
        Stmt::Continue(place) => tell_word(view, "continue", *place, told),
        Stmt::Return(place) => tell_word(view, "return", *place, told),
        Stmt::Empty(place) => tell_word(view, ";", *place, told),
        _ => told.text("statements"),
    }
}

/// An instruction with its `;`.
pub fn tell_instr(view: View, instr: &Instr, told: &mut Told) {
    if let Some(label) = instr.label() {
        tell_named(view, &label.0, label.1, told);
        told.text(":");
    }
    told.text(op_word(instr.op));
    tell_more(view, instr.place, told);
    if let Some(operand) = instr.operand() {
        told.text(" ");
        tell_operand(view, operand, told);
    }
    if let Some(literal) = instr.literal() {
        told.text(" ");
        tell_literal(view, literal, told);
    }
    if let Some(call) = instr.call() {
        told.text(" ");
        tell_call(view, call, told);
    }
    told.text(";");
}
