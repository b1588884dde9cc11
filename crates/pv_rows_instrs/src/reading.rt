//! What instructions of rows are read as.
use pv_place::Place;
use pv_stl_run::{
    Action, Change, Combining, Goal, Instr, Joining, Junction, Math, Part, Relation, Shifting,
    Test, When, Written,
};
use pv_word::Ty;

/// The number of a text: decimal with a sign, or behind `16#` or `2#`.
pub fn number(text: &str) -> i64 {
    let (base, digits) = match text.split_once('#') {
        Some(("16", digits)) => (16, digits),
        Some(("2", digits)) => (2, digits),
        _ => (10, text),
    };
    let mut n: i64 = 0;
    let mut negative = false;
    for byte in digits.bytes() {
        match byte {
            b'-' => negative = true,
            b'0'..=b'9' => n = n.wrapping_mul(base).wrapping_add(i64::from(byte - b'0')),
            b'A'..=b'F' => n = n
                .wrapping_mul(base)
                .wrapping_add(i64::from(byte - b'A') + 10),
            _ => {}
        }
    }
    if negative { n.wrapping_neg() } else { n }
}

/// The type of a word.
pub fn type_of(word: &str) -> Ty {
    match word {
        "BOOL" => Ty::Bool,
        "BYTE" => Ty::Byte,
        "WORD" => Ty::Word,
        "DWORD" => Ty::Dword,
        "INT" => Ty::Int,
        "DINT" => Ty::Dint,
        _ => Ty::Time,
    }
}

/// The bits of a number without its sign.
fn bits(n: i64, short: bool) -> i64 {
    if short { n & 65535 } else { n & 4294967295 }
}

/// The bits of a literal behind L: an INT, a based number, or one with its type.
fn literal(text: &str) -> i64 {
    match text.split_once('#') {
        None => bits(number(text), true),
        Some(("L", n)) => bits(number(n), false),
        Some(("T", "1s")) => 1000,
        Some(("T", n)) => bits(number(n), false),
        Some(("B" | "W" | "DW", n)) => number(n),
        Some(_) => number(text),
    }
}

fn junction(joining: Joining, negates: bool) -> Junction {
    Junction { joining, negates }
}

/// The function of a word.
pub fn function(word: &str) -> Junction {
    match word {
        "A" => junction(Joining::And, false),
        "AN" => junction(Joining::And, true),
        "O" => junction(Joining::Or, false),
        "ON" => junction(Joining::Or, true),
        "X" => junction(Joining::Xor, false),
        _ => junction(Joining::Xor, true),
    }
}

/// Instructions on bits of the chain, with the operand 0.
fn bit_action(word: &str, operand: &str) -> Option<Action> {
    match (word, operand) {
        ("O", "") => Some(Action::Change(Change::KeepOr)),
        ("A" | "AN" | "O" | "ON" | "X" | "XN", _) => Some(Action::Join(function(word), 0)),
        (")", _) => Some(Action::Change(Change::Close)),
        ("=", _) => Some(Action::Write(Written::Result, 0)),
        ("S", _) => Some(Action::Write(Written::Where(true), 0)),
        ("R", _) => Some(Action::Write(Written::Where(false), 0)),
        ("NOT", _) => Some(Action::Change(Change::Negate)),
        ("SET", _) => Some(Action::Change(Change::Put(true))),
        ("CLR", _) => Some(Action::Change(Change::Put(false))),
        ("FP", _) => Some(Action::Edge(true, 0)),
        ("FN", _) => Some(Action::Edge(false, 0)),
        ("SAVE" | "NOP" | "BLD", _) => Some(Action::Change(Change::Nothing)),
        _ => None,
    }
}

fn math(word: &str) -> Option<Math> {
    match word {
        "+I" => Some(Math::Sum(Part::Low)),
        "-I" => Some(Math::Difference(Part::Low)),
        "*I" => Some(Math::ProductOfWords),
        "/I" => Some(Math::QuotientOfWords),
        "+D" => Some(Math::Sum(Part::Whole)),
        "-D" => Some(Math::Difference(Part::Whole)),
        "*D" => Some(Math::Product),
        "/D" => Some(Math::QuotientOfWholes),
        "MOD" => Some(Math::RemainderOfWholes),
        _ => None,
    }
}

fn comparison(word: &str) -> Option<(Relation, Part)> {
    match word {
        "==I" => Some((Relation::Equal, Part::Low)),
        "<>I" => Some((Relation::NotEqual, Part::Low)),
        ">I" => Some((Relation::Greater, Part::Low)),
        "<I" => Some((Relation::Less, Part::Low)),
        ">=I" => Some((Relation::GreaterEqual, Part::Low)),
        "<=I" => Some((Relation::LessEqual, Part::Low)),
        "==D" => Some((Relation::Equal, Part::Whole)),
        "<>D" => Some((Relation::NotEqual, Part::Whole)),
        ">D" => Some((Relation::Greater, Part::Whole)),
        "<D" => Some((Relation::Less, Part::Whole)),
        ">=D" => Some((Relation::GreaterEqual, Part::Whole)),
        "<=D" => Some((Relation::LessEqual, Part::Whole)),
        _ => None,
    }
}

fn word_change(word: &str, operand: &str) -> Option<Change> {
    let given = if operand.is_empty() {
        None
    } else {
        Some(literal(operand))
    };
    let count = u32::try_from(number(operand)).unwrap_or(0);
    match word {
        "AW" => Some(Change::Combine(Combining::And, Part::Low, given)),
        "OW" => Some(Change::Combine(Combining::Or, Part::Low, given)),
        "XOW" => Some(Change::Combine(Combining::Xor, Part::Low, given)),
        "AD" => Some(Change::Combine(Combining::And, Part::Whole, given)),
        "OD" => Some(Change::Combine(Combining::Or, Part::Whole, given)),
        "XOD" => Some(Change::Combine(Combining::Xor, Part::Whole, given)),
        "SLW" => Some(Change::Shift(Shifting::Left, Part::Low, count)),
        "SRW" => Some(Change::Shift(Shifting::Right, Part::Low, count)),
        "SLD" => Some(Change::Shift(Shifting::Left, Part::Whole, count)),
        "SRD" => Some(Change::Shift(Shifting::Right, Part::Whole, count)),
        "ITD" => Some(Change::Extend),
        "TAK" => Some(Change::Swap),
        "PUSH" => Some(Change::Push),
        "POP" => Some(Change::Pop),
        _ => None,
    }
}

/// When a jump of this word is made.
fn when(word: &str) -> Option<When> {
    match word {
        "JU" => Some(When::Always),
        "JC" | "JCB" => Some(When::Result(true)),
        "JCN" | "JNB" => Some(When::Result(false)),
        "JZ" => Some(When::Codes(Test::Zero)),
        "JN" => Some(When::Codes(Test::NotZero)),
        "JP" => Some(When::Codes(Test::Plus)),
        "JM" => Some(When::Codes(Test::Minus)),
        "JPZ" => Some(When::Codes(Test::NotMinus)),
        "JMZ" => Some(When::Codes(Test::NotPlus)),
        "JO" => Some(When::Overflow),
        "LOOP" => Some(When::Counted),
        _ => None,
    }
}

/// What an instruction does whose value has the type. A jump goes to the goal, a CALL makes the call 0.
pub fn action_of(word: &str, operand: &str, ty: Ty, goal: Goal) -> Action {
    if let Some((function_word, "")) = word.split_once('(') {
        return Action::Change(Change::Open(function(function_word)));
    }
    if let Some(action) = bit_action(word, operand) {
        return action;
    }
    if let Some(op) = math(word) {
        return Action::Change(Change::Calculate(op));
    }
    if let Some((relation, part)) = comparison(word) {
        return Action::Change(Change::Compare(relation, part));
    }
    if let Some(change) = word_change(word, operand) {
        return Action::Change(change);
    }
    if let Some(test) = when(word) {
        return Action::Jump(test, goal);
    }
    match (word, operand) {
        ("L", "v" | "w") => Action::Load(ty, if operand == "v" { 1 } else { 2 }),
        ("L", _) => Action::Change(Change::Load(literal(operand))),
        ("T", _) => Action::Transfer(ty, if operand == "v" { 1 } else { 2 }),
        ("BEC", _) => Action::EndWhere,
        ("CALL", _) => Action::Call(0),
        _ => Action::End,
    }
}

/// The instruction of a text at a place.
pub fn instr_of(text: &str, ty: Ty, goal: Goal, offset: u32) -> Instr {
    let (word, operand) = text.split_once(' ').unwrap_or((text, ""));
    Instr {
        action: action_of(word, operand, ty, goal),
        place: Place { file: 0, offset },
        range: None,
    }
}
