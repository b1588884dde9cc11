//! Operands that an expression or a statement reads: the nearest one that is the name of a function without a value, and that no call
//! writes.
//!
//! An operand that stands for an output is written by its own call, so no other call is looked at. The calls of the code are looked
//! through for one that stands elsewhere, and only where it is nearer than the nearest so far: so for few of those of one text.
ghost use Rattle.std.specs.Prelude.{◌≡◌, ◌++◌, [], IsTrue, Some, map, flat_map, option_to_list};
ghost use Rattle.pv_tree.specs.InstructionGroups as groups;
ghost use Rattle.pv_tree.specs.Callees.{as_value};
ghost use Rattle.pv_tree.specs.Parts.{calls_of_instruction, calls_of_stmt, site};
ghost use Rattle.pv_tree.specs.Tree.{OperandTree};
ghost use Rattle.pv_tree.specs.View.{arg_tree, call_tree, expr_tree, operand_tree, step_tree, stmt_tree, instr_tree, start_tree};
ghost use Rattle.pv_names.specs.Callees.{callee_tree, how_tree};
ghost use Rattle.pv_names.specs.InScope.{scope_of};
ghost use Rattle.pv_rules_expr.specs.Members.{Has};
ghost use Rattle.pv_rules_expr.specs.Nearest.{nearer_of};
ghost use Rattle.pv_rules_expr.specs.NearestIn.{nearest_in};
ghost use Rattle.pv_rules_expr.specs.Operands.{void_at};
ghost use Rattle.pv_rules.specs.Codes.{AreAmong, calls_of_code};
ghost use Rattle.pv_rules.specs.Outputs as outputs;
ghost use Rattle.pv_rules.specs.Outputs.{hands_out};
ghost use Rattle.pv_tree.specs.Operands.{operands_in, operands_within, operands_in_step};
ghost use Rattle.pv_rules.specs.Reads.{reads_of_call, reads_of_instruction, reads_of_stmt, reads_of_starts};
ghost use Rattle.pv_rules.specs.Values.{unless, value_at};

use crate::code::Code;
use crate::outputs::{is_output, is_written};
use pv_names::{Callee, How, Scope, Thing, how_of, is_void, root_place};
use pv_place::Place;
use pv_rules_code::param_in;
use pv_rules_expr::{is_nearer, nearer_of, operand_of};
use pv_rules_instr::{operand_of_instruction, read_operand};
use pv_tree::{Arg, CallTree, Expr, ForHead, Instr, Operand, Step, Stmt};
use pv_types::Literal;

/// The name of a function without a value that an operand is.
fn void_name(scope: &Scope, operand: &Operand) -> Option<Place>
    ensures { result ≡ void_at (scope_of scope.now) (operand_tree operand.now) }
{
    match scope.thing_of(operand) {
        Thing::Block(entry) => {
            if is_void(entry.block) {
                Some(root_place(&operand.root, operand.place))
            } else {
                None
            }
        }
        Thing::Part(_) => None,
        Thing::Constant(_) => None,
        Thing::NoName(_) => None,
        Thing::NoArray(_) => None,
        Thing::ADate(_) => None,
        Thing::Untold => None,
    }
}

/// This place, unless a call writes the operand.
fn unless_written(scope: &Scope, code: Code, operand: &Operand, place: Place) -> Option<Place>
    ensures { result ≡ unless (outputs.is_written (scope_of scope.now) (calls_of_code code.entry)
        (operand_tree operand.now)) (Some place) }
{
    if is_written(scope, code, operand) {
        None
    } else {
        Some(place)
    }
}

/// The nearest one, with an operand. Its calls are asked only where it is nearer.
fn value_name(scope: &Scope, code: Code, operand: &Operand, nearest: Option<Place>) -> Option<Place>
    ensures { result ≡ nearer_of nearest (value_at (scope_of scope.now) (calls_of_code code.entry)
        (operand_tree operand.now)) }
{
    match void_name(scope, operand) {
        Some(place) => {
            if is_nearer(nearest, &place) {
                nearer_of(nearest, unless_written(scope, code, operand, place))
            } else {
                nearest
            }
        }
        None => nearest,
    }
}

/// The nearest one, with those of an expression.
#[cycle(reading)]
fn value_in(scope: &Scope, code: Code, e: &Expr, nearest: Option<Place>) -> Option<Place>
    ensures { let f = value_at (scope_of scope.now) (calls_of_code code.entry) in
        result ≡ nearest_in f (operands_in (expr_tree e.now)) nearest }
{
    match e {
        Expr::Lit { .. } => nearest,
        Expr::Read(operand) => {
            let so_far = value_name(scope, code, operand, nearest);
            value_in_operand(scope, code, operand, so_far)
        }
        Expr::Unary { arg, .. } => value_in(scope, code, arg, nearest),
        Expr::Binary { left, right, .. } => {
            let so_far = value_in(scope, code, left, nearest);
            value_in(scope, code, right, so_far)
        }
        Expr::Std { args, .. } => {
            let mut best = nearest;
            for arg in args {
                best = value_in(scope, code, arg, best);
            }
            best
        }
        Expr::Paren(_, inner) => value_in(scope, code, inner, nearest),
    }
}

/// The nearest one, with those of a step's index.
#[cycle(reading)]
fn value_in_step(scope: &Scope, code: Code, step: &Step, nearest: Option<Place>) -> Option<Place>
    ensures { let f = value_at (scope_of scope.now) (calls_of_code code.entry) in
        result ≡ nearest_in f (operands_in_step (step_tree step.now)) nearest }
{
    match step {
        Step::Field(..) => nearest,
        Step::Index(e, _) => value_in(scope, code, e, nearest),
    }
}

/// The nearest one, with those of an operand's indexes.
#[cycle(reading)]
fn value_in_operand(
    scope: &Scope,
    code: Code,
    operand: &Operand,
    nearest: Option<Place>,
) -> Option<Place>
    ensures { let f = value_at (scope_of scope.now) (calls_of_code code.entry) in
        result ≡ nearest_in f (operands_within (operand_tree operand.now)) nearest }
{
    let mut best = nearest;
    for step in &operand.steps {
        best = value_in_step(scope, code, step, best);
    }
    best
}

/// The nearest one, with those of an argument of a call in the code. What stands for an output is written by that call.
fn value_in_arg<'p>(
    scope: &Scope,
    code: Code,
    callee: Callee<'p>,
    how: How,
    arg: &Arg,
    nearest: Option<Place>,
) -> Option<Place>
    requires { (o : OperandTree) → IsTrue (hands_out (callee_tree callee) (how_tree how)
        (arg_tree arg.now) o) → IsTrue (outputs.is_written (scope_of scope.now)
        (calls_of_code code) o) }
    ensures { let f = value_at (scope_of scope.now) (calls_of_code code.entry) in
        result ≡ nearest_in f (operands_in (arg_tree arg.now).value) nearest }
{
    match operand_of(&arg.value) {
        Some(operand) => {
            if is_output(param_in(callee, how, arg)) {
                value_in_operand(scope, code, operand, nearest)
            } else {
                value_in(scope, code, &arg.value, nearest)
            }
        }
        None => value_in(scope, code, &arg.value, nearest),
    }
}

/// The nearest one, with those of the arguments of a call in the code.
fn value_in_call(
    scope: &Scope,
    code: Code,
    how: How,
    call: &CallTree,
    nearest: Option<Place>,
) -> Option<Place>
    requires { Has (calls_of_code code) (site (how_tree how) (call_tree call.now)) }
    ensures { let f = value_at (scope_of scope.now) (calls_of_code code.entry) in
        result ≡ nearest_in f (reads_of_call (call_tree call.now)) nearest }
{
    let callee = scope.callee_of(how, call);
    let mut best = nearest;
    for arg in &call.args {
        best = value_in_arg(scope, code, callee, how, arg, best);
    }
    best
}

/// The nearest one, with those of the conditions of an IF.
fn value_in_conditions(
    scope: &Scope,
    code: Code,
    arms: &[(Expr, Vec<Stmt>)],
    nearest: Option<Place>,
) -> Option<Place>
    ensures { let f = value_at (scope_of scope.now) (calls_of_code code.entry) in
        result ≡ nearest_in f (flat_map operands_in (map (λ a. expr_tree a.0) arms.now)) nearest }
{
    let mut best = nearest;
    for arm in arms {
        best = value_in(scope, code, &arm.0, best);
    }
    best
}

/// The nearest one, with those of a target and the value that it takes.
fn value_in_assignment(
    scope: &Scope,
    code: Code,
    target: &Operand,
    value: &Expr,
    nearest: Option<Place>,
) -> Option<Place>
    ensures { let f = value_at (scope_of scope.now) (calls_of_code code.entry) in
        result ≡ nearest_in f (operands_within (operand_tree target.now)
        ++ operands_in (expr_tree value.now)) nearest }
{
    let so_far = value_in_operand(scope, code, target, nearest);
    value_in(scope, code, value, so_far)
}

/// The nearest one, with those of a target and the call whose value it takes.
fn value_in_assigned(
    scope: &Scope,
    code: Code,
    target: &Operand,
    call: &CallTree,
    nearest: Option<Place>,
) -> Option<Place>
    requires { Has (calls_of_code code) (site as_value (call_tree call.now)) }
    ensures { let f = value_at (scope_of scope.now) (calls_of_code code.entry) in
        result ≡ nearest_in f (operands_within (operand_tree target.now)
        ++ reads_of_call (call_tree call.now)) nearest }
{
    let so_far = value_in_operand(scope, code, target, nearest);
    value_in_call(scope, code, How::Value, call, so_far)
}

/// The nearest one, with those of two expressions.
fn value_in_bounds(
    scope: &Scope,
    code: Code,
    first: &Expr,
    last: &Expr,
    nearest: Option<Place>,
) -> Option<Place>
    ensures { let f = value_at (scope_of scope.now) (calls_of_code code.entry) in
        result ≡ nearest_in f (operands_in (expr_tree first.now)
        ++ operands_in (expr_tree last.now)) nearest }
{
    let so_far = value_in(scope, code, first, nearest);
    value_in(scope, code, last, so_far)
}

/// The nearest one, with those of the start and the end of a FOR.
fn value_in_head(scope: &Scope, code: Code, head: &ForHead, nearest: Option<Place>) -> Option<Place>
    ensures { let f = value_at (scope_of scope.now) (calls_of_code code.entry) in
        result ≡ nearest_in f (operands_in (expr_tree head.now.first)
        ++ operands_in (expr_tree head.now.last)) nearest }
{
    value_in_bounds(scope, code, &head.first, &head.last, nearest)
}

/// The nearest one, with those of a statement by itself.
pub(crate) fn value_in_stmt(
    scope: &Scope,
    code: Code,
    stmt: &Stmt,
    nearest: Option<Place>,
) -> Option<Place>
    requires { AreAmong (calls_of_code code) (calls_of_stmt (stmt_tree stmt.now)) }
    ensures { let f = value_at (scope_of scope.now) (calls_of_code code.entry) in
        result ≡ nearest_in f (reads_of_stmt (stmt_tree stmt.now)) nearest }
{
    match stmt {
        Stmt::Assign { target, value, .. } => {
            value_in_assignment(scope, code, target, value, nearest)
        }
        Stmt::AssignCall { target, call, .. } => {
            value_in_assigned(scope, code, target, call, nearest)
        }
        Stmt::If { arms, .. } => value_in_conditions(scope, code, arms.as_slice(), nearest),
        Stmt::Case { selector, .. } => value_in(scope, code, selector, nearest),
        Stmt::For { head, .. } => value_in_head(scope, code, head, nearest),
        Stmt::While { cond, .. } => value_in(scope, code, cond, nearest),
        Stmt::Repeat { cond, .. } => value_in(scope, code, cond, nearest),
        Stmt::Call(call) => value_in_call(scope, code, How::Statement, call, nearest),
        Stmt::Exit(_) => nearest,
        Stmt::Continue(_) => nearest,
        Stmt::Return(_) => nearest,
        Stmt::Empty(_) => nearest,
    }
}

/// The nearest one, with those in an instruction's operand.
fn value_in_named(scope: &Scope, code: Code, instr: &Instr, nearest: Option<Place>) -> Option<Place>
    ensures { let f = value_at (scope_of scope.now) (calls_of_code code.entry) in
        result ≡ nearest_in f (flat_map operands_within (option_to_list
        (groups.operand_of_instruction (instr_tree instr.now)))) nearest }
{
    match operand_of_instruction(instr) {
        Some(operand) => value_in_operand(scope, code, operand, nearest),
        None => nearest,
    }
}

/// The nearest one, with those in the arguments of an instruction's call.
fn value_in_called(
    scope: &Scope,
    code: Code,
    instr: &Instr,
    nearest: Option<Place>,
) -> Option<Place>
    requires { AreAmong (calls_of_code code) (calls_of_instruction (instr_tree instr.now)) }
    ensures { let f = value_at (scope_of scope.now) (calls_of_code code.entry) in
        result ≡ nearest_in f (flat_map reads_of_call (option_to_list
        (instr_tree instr.now).call)) nearest }
{
    match instr.call() {
        Some(call) => value_in_call(scope, code, how_of(instr.op), call, nearest),
        None => nearest,
    }
}

/// The nearest one, with those of an instruction.
pub(crate) fn value_in_instr(
    scope: &Scope,
    code: Code,
    instr: &Instr,
    nearest: Option<Place>,
) -> Option<Place>
    requires { AreAmong (calls_of_code code) (calls_of_instruction (instr_tree instr.now)) }
    ensures { let f = value_at (scope_of scope.now) (calls_of_code code.entry) in
        result ≡ nearest_in f (reads_of_instruction (instr_tree instr.now)) nearest }
{
    let named = value_in_named(scope, code, instr, nearest);
    let called = value_in_called(scope, code, instr, named);
    match read_operand(instr) {
        Some(operand) => value_name(scope, code, operand, called),
        None => called,
    }
}

/// The nearest one, with those of the indexes in the parts of a data block that are given values; no call writes them.
pub(crate) fn value_in_starts(
    scope: &Scope,
    starts: &[(Operand, Literal)],
    nearest: Option<Place>,
) -> Option<Place>
    ensures { let f = value_at (scope_of scope.now) [] in
        result ≡ nearest_in f (reads_of_starts (map start_tree starts.now)) nearest }
{
    let none = Code {
        statements: &[],
        instructions: &[],
    };
    let mut best = nearest;
    for start in starts {
        best = value_in_operand(scope, none, &start.0, best);
    }
    best
}
