//! Terms of operators and functions. An operand is a type with `v` and a variable's number, or with a constant.
use crate::reading::{type_of, type_word};
use pv_flow::{BinaryOp as Two, Node, UnaryOp as One};
use pv_rows_form::{Row, Told};
use pv_terms::{
    Given, TermFault, converted, push_between, push_constant, push_function, push_is_index,
    push_operator, push_outside, push_variable,
};
use pv_tree::{BinaryOp, StdFunction, UnaryOp};
use pv_word::Ty;

const BINARY: [(&str, BinaryOp); 14] = [
    ("*", BinaryOp::Mul),
    ("DIV", BinaryOp::Div),
    ("MOD", BinaryOp::Mod),
    ("+", BinaryOp::Add),
    ("-", BinaryOp::Sub),
    ("<", BinaryOp::Less),
    (">", BinaryOp::Greater),
    ("<=", BinaryOp::LessEqual),
    (">=", BinaryOp::GreaterEqual),
    ("=", BinaryOp::Equal),
    ("<>", BinaryOp::NotEqual),
    ("AND", BinaryOp::And),
    ("XOR", BinaryOp::Xor),
    ("OR", BinaryOp::Or),
];

const FUNCTIONS: [(&str, StdFunction); 7] = [
    ("ABS", StdFunction::Abs),
    ("MIN", StdFunction::Min),
    ("MAX", StdFunction::Max),
    ("LIMIT", StdFunction::Limit),
    ("SEL", StdFunction::Sel),
    ("SHL", StdFunction::Shl),
    ("SHR", StdFunction::Shr),
];

// ---- terms told

fn word_of(op: Two) -> &'static str {
    match op {
        Two::And => "And",
        Two::Or => "Or",
        Two::Xor => "Xor",
        Two::Add => "Add",
        Two::Subtract => "Subtract",
        Two::Multiply => "Multiply",
        Two::Divide => "Divide",
        Two::Remainder => "Remainder",
        Two::Less => "Less",
        Two::Equal => "Equal",
        Two::SumOverflow(_) => "SumOverflow",
        Two::DifferenceOverflow(_) => "DifferenceOverflow",
        Two::ProductOverflow => "ProductOverflow",
    }
}

fn tell_one(op: One, told: &mut Told) {
    match op {
        One::Not => told.text("Not"),
        One::Negate => told.text("Negate"),
        One::Left(n) => {
            told.text("Left");
            told.number(i128::from(n));
        }
        One::Right(n) => {
            told.text("Right");
            told.number(i128::from(n));
        }
        One::Convert => told.text("Convert"),
    }
}

fn tell_constant(ty: Ty, v: i128, told: &mut Told) {
    told.number(v);
    told.text(":");
    told.text(type_word(ty));
}

/// The type of an operator, before its operands.
fn tell_type(ty: Ty, told: &mut Told) {
    told.text(":");
    told.text(type_word(ty));
    told.text("(");
}

/// The term of a node, so many levels deep.
pub fn tell_term(nodes: &[Node], n: u32, depth: u32, told: &mut Told) {
    if depth == 0 {
        return told.text("..");
    }
    let below = depth - 1;
    match nodes.get(n as usize) {
        Some(Node::Constant(ty, v)) => tell_constant(*ty, *v, told),
        Some(Node::Variable(v)) => {
            told.text("v");
            told.number(i128::from(*v));
        }
        Some(Node::Unary(op, ty, a)) => {
            tell_one(*op, told);
            tell_type(*ty, told);
            tell_term(nodes, *a, below, told);
            told.text(")");
        }
        Some(Node::Binary(op, ty, a, b)) => {
            told.text(word_of(*op));
            tell_type(*ty, told);
            tell_term(nodes, *a, below, told);
            told.text(", ");
            tell_term(nodes, *b, below, told);
            told.text(")");
        }
        Some(Node::Select(ty, c, a, b)) => {
            told.text("Select");
            tell_type(*ty, told);
            tell_term(nodes, *c, below, told);
            told.text(", ");
            tell_term(nodes, *a, below, told);
            told.text(", ");
            tell_term(nodes, *b, below, told);
            told.text(")");
        }
        None => told.text("?"),
    }
}

// ---- operands

/// An operand: its type, and the number of its term.
fn push_operand(nodes: &mut Vec<Node>, text: &str) -> Result<Given, TermFault> {
    let (word, value) = text.trim().split_once(' ').unwrap_or(("", ""));
    let ty = type_of(word);
    let term = match value.strip_prefix("v") {
        Some(number) => push_variable(nodes, number.parse::<u32>().unwrap_or(0))?,
        None => push_constant(nodes, ty, value.parse::<i128>().unwrap_or(0))?,
    };
    Ok(Given { ty, term })
}

fn push_operands(
    nodes: &mut Vec<Node>,
    given: &mut Vec<Given>,
    text: &str,
) -> Result<(), TermFault> {
    for one in text.split(',') {
        let operand = push_operand(nodes, one)?;
        given.push(operand)?;
    }
    Ok(())
}

/// The operand of this number as one of the type.
fn operand_at(nodes: &mut Vec<Node>, given: &[Given], at: usize, ty: Ty) -> Result<u32, TermFault> {
    match given.get(at) {
        Some(one) => converted(nodes, one.ty, ty, one.term),
        None => push_constant(nodes, ty, 0),
    }
}

// ---- what is asked

/// The words of a row's first field: the operator, its type, and two numbers.
#[derive(Clone, Copy)]
struct Asked<'a> {
    word: &'a str,
    ty: Ty,
    first: i128,
    second: i128,
}

pub fn word_at(text: &str, at: usize) -> &str {
    for (i, word) in text.split(' ').enumerate() {
        if i == at {
            return word;
        }
    }
    ""
}

/// The number that a word is.
pub fn number_in(word: &str) -> u32 {
    word.parse::<u32>().unwrap_or(0)
}

fn asked_by(text: &str) -> Asked<'_> {
    Asked {
        word: word_at(text, 0),
        ty: type_of(word_at(text, 1)),
        first: word_at(text, 2).parse::<i128>().unwrap_or(0),
        second: word_at(text, 3).parse::<i128>().unwrap_or(0),
    }
}

fn binary_of(word: &str) -> Option<BinaryOp> {
    for entry in &BINARY {
        if entry.0 == word {
            return Some(entry.1);
        }
    }
    None
}

fn function_of(word: &str) -> Option<StdFunction> {
    for entry in &FUNCTIONS {
        if entry.0 == word {
            return Some(entry.1);
        }
    }
    None
}

fn push_two(
    nodes: &mut Vec<Node>,
    op: BinaryOp,
    ty: Ty,
    given: &[Given],
) -> Result<u32, TermFault> {
    let a = operand_at(nodes, given, 0, ty)?;
    let b = operand_at(nodes, given, 1, ty)?;
    push_between(nodes, op, ty, a, b)
}

/// What no word of an operator between two operands or of a function asks for.
fn push_other(nodes: &mut Vec<Node>, asked: Asked<'_>, given: &[Given]) -> Result<u32, TermFault> {
    let a = operand_at(nodes, given, 0, asked.ty)?;
    match asked.word {
        "not" => push_operator(nodes, UnaryOp::Not, asked.ty, a),
        "minus" => push_operator(nodes, UnaryOp::Minus, asked.ty, a),
        "outside" => push_outside(nodes, a, asked.first, asked.second),
        "index" => push_is_index(nodes, a, asked.first),
        _ => push_operator(nodes, UnaryOp::Plus, asked.ty, a),
    }
}

fn push_asked(nodes: &mut Vec<Node>, asked: Asked<'_>, given: &[Given]) -> Result<u32, TermFault> {
    if let Some(op) = binary_of(asked.word) {
        return push_two(nodes, op, asked.ty, given);
    }
    match function_of(asked.word) {
        Some(function) => {
            let count = u32::try_from(asked.first).unwrap_or(0);
            push_function(nodes, function, asked.ty, count, given)
        }
        None => push_other(nodes, asked, given),
    }
}

fn push_row(
    nodes: &mut Vec<Node>,
    given: &mut Vec<Given>,
    asked: Asked<'_>,
    operands: &str,
) -> Result<u32, TermFault> {
    push_operands(nodes, given, operands)?;
    push_asked(nodes, asked, given.as_slice())
}

pub fn field_of(row: Row<'_>, number: u8, told: &mut Told) -> String {
    let alloc = told.alloc();
    String::from_utf8(row.bytes(number, told)).unwrap_or(String::new(alloc))
}

/// The term of the row's operator.
pub fn tell_terms(row: Row<'_>, told: &mut Told) {
    let head = field_of(row, 0, told);
    let operands = field_of(row, 1, told);
    let mut nodes = Vec::new(told.alloc());
    let mut given = Vec::new(told.alloc());
    match push_row(
        &mut nodes,
        &mut given,
        asked_by(head.as_str()),
        operands.as_str(),
    ) {
        Ok(n) => tell_term(nodes.as_slice(), n, 20, told),
        Err(fault) => told.words(&fault),
    }
}
