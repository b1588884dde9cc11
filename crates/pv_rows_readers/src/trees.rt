//! Expressions, operands and calls as rows show them.
use pv_parse::ParseFault;
use pv_place::Place;
use pv_rows_form::Told;
use pv_tree::{Arg, BinaryOp, CallTree, Expr, Operand, Root, StdFunction, Step, UnaryOp};
use pv_types::{Literal, Name};
use pv_word::Ty;

/// How trees are shown: in full, with each place and with names by their keys, or only as they are spelled; and how many bytes of the text
/// stand before what counts.
#[derive(Clone, Copy)]
pub struct View {
    pub full: bool,
    pub before: u32,
}

pub fn ty_word(ty: Ty) -> &'static str {
    match ty {
        Ty::Bool => "BOOL",
        Ty::Byte => "BYTE",
        Ty::Word => "WORD",
        Ty::Dword => "DWORD",
        Ty::Int => "INT",
        Ty::Dint => "DINT",
        Ty::Time => "TIME",
    }
}

fn sign(op: BinaryOp) -> &'static str {
    match op {
        BinaryOp::Mul => "*",
        BinaryOp::Div => "/",
        BinaryOp::Mod => "MOD",
        BinaryOp::Add => "+",
        BinaryOp::Sub => "-",
        BinaryOp::Less => "<",
        BinaryOp::Greater => ">",
        BinaryOp::LessEqual => "<=",
        BinaryOp::GreaterEqual => ">=",
        BinaryOp::Equal => "=",
        BinaryOp::NotEqual => "<>",
        BinaryOp::And => "AND",
        BinaryOp::Xor => "XOR",
        BinaryOp::Or => "OR",
    }
}

fn front_sign(op: UnaryOp) -> &'static str {
    match op {
        UnaryOp::Plus => "+",
        UnaryOp::Minus => "-",
        UnaryOp::Not => "NOT",
    }
}

fn tell_function(function: StdFunction, told: &mut Told) {
    match function {
        StdFunction::Convert(from, to) => {
            told.text(ty_word(from));
            told.text("_TO_");
            told.text(ty_word(to));
        }
        StdFunction::Abs => told.text("ABS"),
        StdFunction::Min => told.text("MIN"),
        StdFunction::Max => told.text("MAX"),
        StdFunction::Limit => told.text("LIMIT"),
        StdFunction::Sel => told.text("SEL"),
        StdFunction::Shl => told.text("SHL"),
        StdFunction::Shr => told.text("SHR"),
    }
}

/// A place, behind a word.
pub fn tell_place(view: View, place: Place, told: &mut Told) {
    told.text("@");
    told.number(i128::from(place.offset.saturating_sub(view.before)));
}

/// A place that only the full view shows.
pub fn tell_more(view: View, place: Place, told: &mut Told) {
    if view.full {
        tell_place(view, place, told);
    }
}

pub fn tell_name(view: View, name: &Name, told: &mut Told) {
    if view.full {
        told.bytes(name.key().bytes());
    } else {
        told.bytes(name.spelled());
    }
}

/// A name with its place, where that is shown.
pub fn tell_named(view: View, name: &Name, place: Place, told: &mut Told) {
    tell_name(view, name, told);
    tell_more(view, place, told);
}

/// A value behind its type, where it has one.
fn tell_value(ty: Option<Ty>, value: i128, told: &mut Told) {
    if let Some(ty) = ty {
        told.text(ty_word(ty));
        told.text("#");
    }
    told.number(value);
}

/// A value with its type, if it has one, and its place.
fn tell_constant(view: View, ty: Option<Ty>, value: i128, place: Place, told: &mut Told) {
    tell_value(ty, value, told);
    tell_more(view, place, told);
}

pub fn tell_literal(view: View, literal: &Literal, told: &mut Told) {
    tell_constant(view, literal.ty, literal.value, literal.place, told);
}

/// The width of an address by its letter.
fn width(bits: u32) -> &'static str {
    match bits {
        1 => "",
        8 => "B",
        16 => "W",
        _ => "D",
    }
}

fn tell_root(view: View, root: &Root, told: &mut Told) {
    match root {
        Root::Local { name, hash, place } => {
            if *hash {
                told.text("#");
            }
            tell_named(view, name, *place, told);
        }
        Root::Named(name) => tell_name(view, name, told),
        Root::Area {
            area,
            bits,
            byte,
            bit,
        } => {
            told.words(area);
            told.text(width(*bits));
            told.number(i128::from(*byte));
            if *bits == 1 {
                told.text(".");
                told.number(i128::from(*bit));
            }
        }
    }
}

/// A sign with its place, and a blank.
fn tell_sign(view: View, sign: &str, place: Place, told: &mut Told) {
    told.text(sign);
    tell_more(view, place, told);
    told.text(" ");
}

/// An operand; in the full view with `r` and its place in front.
#[cycle(showing)]
pub fn tell_operand(view: View, operand: &Operand, told: &mut Told) {
    if view.full {
        told.text("r");
        tell_place(view, operand.place, told);
        told.text(" ");
    }
    tell_root(view, &operand.root, told);
    for step in operand.steps.as_slice() {
        tell_step(view, step, told);
    }
}

#[cycle(showing)]
fn tell_step(view: View, step: &Step, told: &mut Told) {
    match step {
        Step::Field(name, place) => {
            told.text(".");
            tell_named(view, name, *place, told);
        }
        Step::Index(index, place) => {
            told.text("[");
            tell_expr(view, index, told);
            told.text("]");
            tell_more(view, *place, told);
        }
    }
}

#[cycle(showing)]
fn tell_each(view: View, list: &[Expr], told: &mut Told) {
    let mut first = true;
    for e in list {
        if !first {
            told.text(", ");
        }
        first = false;
        tell_expr(view, e, told);
    }
}

/// An expression, with each operation in round parentheses and those of the text in curly ones.
#[cycle(showing)]
pub fn tell_expr(view: View, e: &Expr, told: &mut Told) {
    match e {
        Expr::Lit { ty, value, place } => tell_constant(view, *ty, *value, *place, told),
        Expr::Read(operand) => tell_operand(view, operand, told),
        Expr::Unary { op, place, arg } => {
            told.text("(");
            tell_sign(view, front_sign(*op), *place, told);
            tell_expr(view, arg, told);
            told.text(")");
        }
        Expr::Binary {
            op,
            place,
            left,
            right,
        } => {
            told.text("(");
            tell_expr(view, left, told);
            told.text(" ");
            tell_sign(view, sign(*op), *place, told);
            tell_expr(view, right, told);
            told.text(")");
        }
        Expr::Std {
            function,
            place,
            args,
        } => {
            tell_function(*function, told);
            tell_more(view, *place, told);
            told.text("(");
            tell_each(view, args.as_slice(), told);
            told.text(")");
        }
        Expr::Paren(place, inner) => {
            told.text("{");
            tell_expr(view, inner, told);
            told.text("}");
            tell_more(view, *place, told);
        }
    }
}

/// An argument with the place of its sign.
fn tell_arg(view: View, arg: &Arg, told: &mut Told) {
    if let Some((name, place)) = &arg.name {
        tell_named(view, name, *place, told);
        told.text(":=");
    }
    tell_expr(view, &arg.value, told);
    tell_place(view, arg.place, told);
}

/// A call with its place.
pub fn tell_call(view: View, call: &CallTree, told: &mut Told) {
    told.text("call");
    tell_place(view, call.place, told);
    told.text(if call.hash { " #" } else { " " });
    tell_named(view, &call.name, call.name_place, told);
    if let Some((name, place)) = &call.base {
        told.text(".");
        tell_named(view, name, *place, told);
    }
    told.text("(");
    let mut between = "";
    for arg in call.args.as_slice() {
        told.text(between);
        tell_arg(view, arg, told);
        between = ", ";
    }
    told.text(")");
}

/// A fault with its place.
pub fn tell_fault(view: View, fault: ParseFault, told: &mut Told) {
    match fault {
        ParseFault::Outside { place, len } => {
            told.text("Outside");
            tell_place(view, place, told);
            told.text("+");
            told.number(i128::from(len));
        }
        ParseFault::Syntax { place } => {
            told.text("Syntax");
            tell_place(view, place, told);
        }
        ParseFault::Deep { place } => {
            told.text("Deep");
            tell_place(view, place, told);
        }
        ParseFault::NoMemory => told.lose(),
    }
}
