//! Names that can't be called, and the value of a function that has none, read: the least place in a project.
ghost use Rattle.std.specs.Prelude.{◌≡◌, IfOk, false, flat_map, map};
ghost use Rattle.pv_tree.specs.Parts.{calls_of_instruction, calls_of_stmt, site};
ghost use Rattle.pv_tree.specs.Rules.Callable.{IsNotCallable};
ghost use Rattle.pv_tree.specs.View.{body_tree, call_tree, instr_tree, stmt_tree, stmt_trees};
ghost use Rattle.pv_names.specs.Callees.{how_tree, callee_tree};
ghost use Rattle.pv_names.specs.InScope.{scope_of};
ghost use Rattle.pv_names.specs.Tables.{project_of};
ghost use Rattle.pv_rules_expr.specs.Nearest.{IsNearest};
ghost use Rattle.pv_rules_expr.specs.NearestIn.{nearest_in};
ghost use Rattle.pv_rules.specs.Reads.{reads_of_instruction, reads_of_stmt};
ghost use Rattle.pv_rules.specs.Statements.{all_of};
ghost use Rattle.pv_rules_code.specs.AreInCode.{AreInCode};
ghost use Rattle.pv_rules.specs.Values.{refused_at, call_at, calls_in, values_in, both_in, body_place, reads_of_statements, AreNoVoids};

use crate::code::Code;
use crate::reads::{value_in_instr, value_in_starts, value_in_stmt};
use crate::statements::statements_of;
use pv_names::{Callee, How, Scope, Tables, how_of};
use pv_place::Place;
use pv_rules_code::CodeNear;
use pv_rules_expr::nearer_of;
use pv_tree::{Body, CallTree, Instr, Stmt};
use std::alloc::{AllocError, Global};

/// The name that can't be called.
fn refused_place(callee: Callee) -> Option<Place>
    ensures { result ≡ refused_at (callee_tree callee.entry) }
{
    match callee {
        Callee::NotCallable(place) => Some(place),
        Callee::Runs(_) => None,
        Callee::NotDeclared(_) => None,
        Callee::Unknown => None,
    }
}

/// The name in a call that can't be called.
fn call_place(scope: &Scope, how: How, call: &CallTree) -> Option<Place>
    ensures { result ≡ call_at (scope_of scope.now) (site (how_tree how) (call_tree call.now)) }
{
    refused_place(scope.callee_of(how, call))
}

/// The nearest name that can't be called, with that of a statement's call.
fn call_in_stmt(scope: &Scope, stmt: &Stmt, nearest: Option<Place>) -> Option<Place>
    ensures { result ≡ nearest_in (call_at (scope_of scope.now))
        (calls_of_stmt (stmt_tree stmt.now)) nearest }
{
    match stmt {
        Stmt::AssignCall { call, .. } => nearer_of(nearest, call_place(scope, How::Value, call)),
        Stmt::Call(call) => nearer_of(nearest, call_place(scope, How::Statement, call)),
        Stmt::Assign { .. } => nearest,
        Stmt::If { .. } => nearest,
        Stmt::Case { .. } => nearest,
        Stmt::For { .. } => nearest,
        Stmt::While { .. } => nearest,
        Stmt::Repeat { .. } => nearest,
        Stmt::Exit(_) => nearest,
        Stmt::Continue(_) => nearest,
        Stmt::Return(_) => nearest,
        Stmt::Empty(_) => nearest,
    }
}

/// The same, with those of the calls of statements.
fn call_in_all(scope: &Scope, statements: &[&Stmt], nearest: Option<Place>) -> Option<Place>
    ensures { result ≡ calls_in (scope_of scope.now) (flat_map calls_of_stmt
        (map (λ s. stmt_tree s.now) statements.now)) nearest }
{
    let mut best = nearest;
    for stmt in statements {
        best = call_in_stmt(scope, *stmt, best);
    }
    best
}

/// The nearest read of a value that isn't there, with those of statements.
fn value_in_all(scope: &Scope, statements: &[&Stmt], nearest: Option<Place>) -> Option<Place>
    ensures { let list = map (λ s. stmt_tree s.now) statements.now in result ≡ values_in
        (scope_of scope.now) (flat_map calls_of_stmt list) (flat_map reads_of_stmt list) nearest }
{
    let code = Code {
        statements,
        instructions: &[],
    };
    let mut best = nearest;
    for stmt in statements {
        best = value_in_stmt(scope, code, *stmt, best);
    }
    best
}

/// The same, which only looks through what is read where a name of a function without a value may be.
fn value_where(
    scope: &Scope,
    statements: &[&Stmt],
    reads_void: bool,
    nearest: Option<Place>,
) -> Option<Place>
    requires { reads_void ≡ false → AreNoVoids (scope_of scope.now) (flat_map reads_of_stmt
        (map (λ s. stmt_tree s.now) statements.now)) }
    ensures { let list = map (λ s. stmt_tree s.now) statements.now in result ≡ values_in
        (scope_of scope.now) (flat_map calls_of_stmt list) (flat_map reads_of_stmt list) nearest }
{
    if reads_void {
        value_in_all(scope, statements, nearest)
    } else {
        nearest
    }
}

/// The nearest of both, with those of a list of statements and all in them.
fn place_in_list(
    scope: &Scope,
    alloc: Global,
    list: &[Stmt],
    reads_void: bool,
    nearest: Option<Place>,
) -> Result<Option<Place>, AllocError>
    requires { reads_void ≡ false → AreNoVoids (scope_of scope.now) (flat_map reads_of_stmt (all_of (stmt_trees list.now))) }
    ensures { let list = all_of (stmt_trees list.now) in IfOk result (λ o. o ≡ both_in
        (scope_of scope.now) (flat_map calls_of_stmt list) (flat_map reads_of_stmt list) nearest) }
{
    let statements = statements_of(alloc, list)?;
    let called = call_in_all(scope, statements.as_slice(), nearest);
    Ok(value_where(scope, statements.as_slice(), reads_void, called))
}

/// The nearest name that can't be called, with that of an instruction's call.
fn call_in_instr(scope: &Scope, instr: &Instr, nearest: Option<Place>) -> Option<Place>
    ensures { result ≡ nearest_in (call_at (scope_of scope.now))
        (calls_of_instruction (instr_tree instr.now)) nearest }
{
    match instr.call() {
        Some(call) => nearer_of(nearest, call_place(scope, how_of(instr.op), call)),
        None => nearest,
    }
}

/// The same, with those of the calls of instructions.
fn call_in_instrs(scope: &Scope, list: &[Instr], nearest: Option<Place>) -> Option<Place>
    ensures { result ≡ calls_in (scope_of scope.now) (flat_map calls_of_instruction
        (map instr_tree list.now)) nearest }
{
    let mut best = nearest;
    for instr in list {
        best = call_in_instr(scope, instr, best);
    }
    best
}

/// The nearest read of a value that isn't there, with those of instructions.
fn value_in_instrs(scope: &Scope, list: &[Instr], nearest: Option<Place>) -> Option<Place>
    ensures { let all = map instr_tree list.now in result ≡ values_in (scope_of scope.now)
        (flat_map calls_of_instruction all) (flat_map reads_of_instruction all) nearest }
{
    let code = Code {
        statements: &[],
        instructions: list,
    };
    let mut best = nearest;
    for instr in list {
        best = value_in_instr(scope, code, instr, best);
    }
    best
}

/// The nearest of both, with those of instructions.
fn place_in_instrs(scope: &Scope, list: &[Instr], nearest: Option<Place>) -> Option<Place>
    ensures { let all = map instr_tree list.now in result ≡ both_in (scope_of scope.now)
        (flat_map calls_of_instruction all) (flat_map reads_of_instruction all) nearest }
{
    let called = call_in_instrs(scope, list, nearest);
    value_in_instrs(scope, list, called)
}

/// The nearest of both, with those of a body.
fn place_in_body(
    scope: &Scope,
    alloc: Global,
    body: &Body,
    reads_void: bool,
    nearest: Option<Place>,
) -> Result<Option<Place>, AllocError>
    requires { reads_void ≡ false → AreNoVoids (scope_of scope.now) (reads_of_statements (body_tree body.now)) }
    ensures { IfOk result (λ o. o ≡ body_place (scope_of scope.now) (body_tree body.now) nearest) }
{
    match body {
        Body::Scl(list) => place_in_list(scope, alloc, list.as_slice(), reads_void, nearest),
        Body::Stl(list) => Ok(place_in_instrs(scope, list.as_slice(), nearest)),
        Body::Starts(list) => Ok(value_in_starts(scope, list.as_slice(), nearest)),
    }
}

/// The least place of a name that can't be called, or of the value of a function that has none, where it is read.
pub(crate) fn not_callable<'p>(
    alloc: Global,
    tables: &'p Tables<'p>,
    code: CodeNear,
) -> Result<Option<Place>, AllocError>
    requires { AreInCode (project_of tables.now) code }
    ensures { IfOk result (IsNearest (IsNotCallable (project_of tables.now))) }
{
    let reads_void = code.void.is_some();
    let mut best = None;
    for entry in tables.entries() {
        let scope = Scope { tables, entry };
        let found = place_in_body(&scope, alloc, &entry.block.body, reads_void, None)?;
        best = nearer_of(best, found);
    }
    Ok(best)
}
