//! The calls on values of types.
use pv_rows_form::Told;
use pv_word::*;
use std::str::SplitWhitespace;

const TYPES: [(&str, Ty); 7] = [
    ("Bool", Ty::Bool),
    ("Byte", Ty::Byte),
    ("Word", Ty::Word),
    ("Dword", Ty::Dword),
    ("Int", Ty::Int),
    ("Dint", Ty::Dint),
    ("Time", Ty::Time),
];

fn type_of(word: &str) -> Ty {
    for entry in &TYPES {
        if entry.0 == word {
            return entry.1;
        }
    }
    Ty::Bool
}

fn next_number(words: &mut SplitWhitespace<'_>) -> i128 {
    words.next().unwrap_or("").parse::<i128>().unwrap_or(0)
}

/// Numbers with blanks between them.
fn tell_numbers(numbers: &[i128], told: &mut Told) {
    let mut between = "";
    for number in numbers {
        told.text(between);
        told.number(*number);
        between = " ";
    }
}

/// How many bits a type has, its least and its greatest value, and whether it is signed.
fn tell_ends(ty: Ty, told: &mut Told) {
    tell_numbers(&[i128::from(width(ty)), least(ty), greatest(ty)], told);
    told.text(if is_signed(ty) {
        " signed"
    } else {
        " unsigned"
    });
}

/// The number in the type, and whether it is in range without that.
fn tell_wrapped(ty: Ty, number: i128, told: &mut Told) {
    told.number(wrap(ty, number));
    told.text(if in_range(ty, number) {
        ""
    } else {
        " out of range"
    });
}

/// Sum, difference and product; quotient and remainder, or `-` where the divisor is 0; conjunction, disjunction and exclusive disjunction;
/// the order.
fn tell_pair(ty: Ty, a: i128, b: i128, told: &mut Told) {
    if !in_range(ty, a) || !in_range(ty, b) {
        return;
    }
    tell_numbers(&[add(ty, a, b), sub(ty, a, b), mul(ty, a, b)], told);
    told.text(" / ");
    if b == 0 {
        told.text("-");
    } else {
        tell_numbers(&[div(ty, a, b), rem(ty, a, b)], told);
    }
    told.text(" / ");
    tell_numbers(&[and(ty, a, b), or(ty, a, b), xor(ty, a, b)], told);
    told.text(" / ");
    told.words(&compare(a, b));
}

fn tell_complement(ty: Ty, a: i128, told: &mut Told) {
    if in_range(ty, a) {
        told.number(not(ty, a));
    }
}

/// The value moved up and down by so many places.
fn tell_shifts(ty: Ty, a: i128, places: i128, told: &mut Told) {
    let count = u32::try_from(places).unwrap_or(0);
    if in_range(ty, a) {
        tell_numbers(&[shl(ty, a, count), shr(ty, a, count)], told);
    }
}

/// Answers a call of this name, whose row has a type and up to two numbers.
pub fn tell_arithmetic(call: &str, said: &str, told: &mut Told) {
    let mut words = said.split_whitespace();
    let ty = type_of(words.next().unwrap_or(""));
    let a = next_number(&mut words);
    let b = next_number(&mut words);
    match call {
        "ends" => tell_ends(ty, told),
        "wrap" => tell_wrapped(ty, a, told),
        "pair" => tell_pair(ty, a, b, told),
        "complement" => tell_complement(ty, a, told),
        "shifts" => tell_shifts(ty, a, b, told),
        _ => told.text("no such call"),
    }
}
