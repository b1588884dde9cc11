//! Operands that the calls of statements write: arguments for outputs, which read no value.
ghost use Rattle.std.specs.Prelude.{◌≡◌, ◌&&◌, flat_map, map, option_map};
ghost use Rattle.pv_rules_code.specs.AtCalls.{param_in};
ghost use Rattle.pv_tree.specs.Parts as parts;
ghost use Rattle.pv_tree.specs.Rules.Callable as callable;
ghost use Rattle.pv_tree.specs.View.{arg_tree, call_tree, expr_tree, operand_tree, step_tree, steps_of, instr_tree, stmt_tree};
ghost use Rattle.pv_names.specs.Callees.{how_tree, callee_tree, param_tree};
ghost use Rattle.pv_names.specs.InScope.{scope_of};
ghost use Rattle.pv_rules.specs.Codes.{calls_of_code};
ghost use Rattle.pv_rules.specs.Outputs.{same_place, same_name, same_truth, same_root, ends_here, same_plain, is_that, call_writes, is_written};

use crate::code::Code;
use pv_names::{Callee, How, Param, Scope, how_of, section_of_param};
use pv_place::Place;
use pv_rules_code::param_in;
use pv_rules_expr::operand_of;
use pv_tree::{Arg, CallTree, Expr, Instr, Operand, Root, Stmt};
use pv_types::{Name, Section};

/// Whether two places are the same.
fn same_place(a: Place, b: Place) -> bool
    ensures { result ≡ same_place a b }
{
    a.file == b.file && a.offset == b.offset
}

/// Whether both are so, or neither.
fn same_truth(a: bool, b: bool) -> bool
    ensures { result ≡ same_truth a b }
{
    if a { b } else { !b }
}

/// Whether two names are written the same.
fn same_name(a: &Name, b: &Name) -> bool
    ensures { result ≡ same_name a.now b.now }
{
    a.key() == b.key() && a.spelled() == b.spelled() && same_truth(a.paired(), b.paired())
}

/// Whether two operands begin with the same name at the same place.
fn same_root(a: &Root, b: &Root) -> bool
    ensures { result ≡ same_root a.now b.now }
{
    match a {
        Root::Local { name, hash, place } => match b {
            Root::Local {
                name: other,
                hash: hashed,
                place: at,
            } => same_name(name, other) && same_truth(*hash, *hashed) && same_place(*place, *at),
            Root::Named(_) => false,
            Root::Area { .. } => false,
        },
        Root::Named(name) => match b {
            Root::Named(other) => same_name(name, other),
            Root::Local { .. } => false,
            Root::Area { .. } => false,
        },
        Root::Area { .. } => false,
    }
}

/// Whether an operand is a name alone.
fn ends_here(operand: &Operand) -> bool
    ensures { result ≡ ends_here (steps_of (map step_tree operand.now.steps.items)) }
{
    operand.steps.as_slice().split_first().is_none()
}

/// Whether two operands are the same name, at the same place, and no more.
fn same_plain(a: &Operand, b: &Operand) -> bool
    ensures { result ≡ same_plain (operand_tree a.now) (operand_tree b.now) }
{
    ends_here(a) && ends_here(b) && same_root(&a.root, &b.root) && same_place(a.place, b.place)
}

/// Whether an expression is that operand, which is a name alone.
fn is_that(e: &Expr, operand: &Operand) -> bool
    ensures { result ≡ is_that (parts.operand_of (expr_tree e.now)) (operand_tree operand.now) }
{
    match operand_of(e) {
        Some(other) => same_plain(other, operand),
        None => false,
    }
}

/// Whether a parameter is an output.
pub(crate) fn is_output(param: Option<Param>) -> bool
    ensures { result ≡ callable.is_output_where (option_map param_tree param.entry) }
{
    match param {
        Some(param) => matches!(section_of_param(param), Section::Output),
        None => false,
    }
}

/// Whether an argument is that operand, for an output.
fn passes_out<'p>(callee: Callee<'p>, how: How, arg: &Arg, operand: &Operand) -> bool
    ensures { let o = operand_tree operand.now in let a = arg_tree arg.now in result
        ≡ (is_that (parts.operand_of a.value) o
        && callable.is_output_where (param_in (callee_tree callee.entry) (how_tree how) a)) }
{
    is_that(&arg.value, operand) && is_output(param_in(callee, how, arg))
}

/// Whether a call writes that operand.
fn call_writes(scope: &Scope, how: How, call: &CallTree, operand: &Operand) -> bool
    ensures { result ≡ call_writes (scope_of scope.now) (operand_tree operand.now)
        (parts.site (how_tree how) (call_tree call.now)) }
{
    let callee = scope.callee_of(how, call);
    for arg in &call.args {
        if passes_out(callee, how, arg, operand) {
            return true;
        }
    }
    false
}

/// Whether the call of a statement writes that operand.
fn stmt_writes(scope: &Scope, stmt: &Stmt, operand: &Operand) -> bool
    ensures { result ≡ is_written (scope_of scope.now) (parts.calls_of_stmt (stmt_tree stmt.now))
        (operand_tree operand.now) }
{
    match stmt {
        Stmt::AssignCall { call, .. } => call_writes(scope, How::Value, call, operand),
        Stmt::Call(call) => call_writes(scope, How::Statement, call, operand),
        Stmt::Assign { .. } => false,
        Stmt::If { .. } => false,
        Stmt::Case { .. } => false,
        Stmt::For { .. } => false,
        Stmt::While { .. } => false,
        Stmt::Repeat { .. } => false,
        Stmt::Exit(_) => false,
        Stmt::Continue(_) => false,
        Stmt::Return(_) => false,
        Stmt::Empty(_) => false,
    }
}

/// Whether the call of one of these statements, each by itself, writes that operand.
fn statements_write(scope: &Scope, statements: &[&Stmt], operand: &Operand) -> bool
    ensures { result ≡ is_written (scope_of scope.now) (flat_map parts.calls_of_stmt
        (map (λ s. stmt_tree s.now) statements.now)) (operand_tree operand.now) }
{
    for stmt in statements {
        if stmt_writes(scope, *stmt, operand) {
            return true;
        }
    }
    false
}

/// Whether the call of an instruction writes that operand.
fn instr_writes(scope: &Scope, instr: &Instr, operand: &Operand) -> bool
    ensures { result ≡ is_written (scope_of scope.now) (parts.calls_of_instruction
        (instr_tree instr.now)) (operand_tree operand.now) }
{
    match instr.call() {
        Some(call) => call_writes(scope, how_of(instr.op), call, operand),
        None => false,
    }
}

/// Whether the call of one of these instructions writes that operand.
fn instructions_write(scope: &Scope, list: &[Instr], operand: &Operand) -> bool
    ensures { result ≡ is_written (scope_of scope.now) (flat_map parts.calls_of_instruction
        (map instr_tree list.now)) (operand_tree operand.now) }
{
    for instr in list {
        if instr_writes(scope, instr, operand) {
            return true;
        }
    }
    false
}

/// Whether a call in the code writes that operand.
pub(crate) fn is_written(scope: &Scope, code: Code, operand: &Operand) -> bool
    ensures { result ≡ is_written (scope_of scope.now) (calls_of_code code.entry)
        (operand_tree operand.now) }
{
    statements_write(scope, code.statements, operand)
        || instructions_write(scope, code.instructions, operand)
}
