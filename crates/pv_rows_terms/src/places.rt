//! Where operands begin, step by step, and which variables they are.
use crate::reading::{expression_of, type_word};
use pv_eval::Spot;
use pv_mean::Cell;
use pv_names::literal_of;
use pv_resolve::{Begin, Context, ResolveFault, Where};
use pv_rows_form::Told;
use pv_tree::{Expr, Operand, Step};
use pv_variables::{Numbers, element_placed, elements_placed, field_placed, numbers_of, placed};

/// The literal index that an expression is.
fn index_of(e: &Expr) -> Option<i128> {
    let written = literal_of(e)?;
    if written.number.negated {
        return written.number.value.checked_neg();
    }
    Some(written.number.value)
}

/// What begins a step further: a field, or an element at a literal index; behind any other index the array's first element.
fn behind<'p>(
    context: &Context<'p>,
    begin: Begin<'p>,
    step: &Step,
) -> Result<Begin<'p>, ResolveFault> {
    match step {
        Step::Field(name, _) => field_placed(context, begin, name),
        Step::Index(e, _) => match index_of(e) {
            Some(index) => element_placed(context, begin, &index),
            None => match elements_placed(context, begin)? {
                Some(elements) => Ok(elements.head),
                None => Ok(begin),
            },
        },
    }
}

/// What an operand begins with, with all its steps.
fn begin_of<'p>(context: &Context<'p>, operand: &Operand) -> Result<Begin<'p>, ResolveFault> {
    let mut begin = placed(context, &operand.root)?;
    for step in &operand.steps {
        begin = behind(context, begin, step)?;
    }
    Ok(begin)
}

fn tell_variable(word: &str, number: u32, told: &mut Told) {
    told.text(word);
    told.text(" v");
    told.number(i128::from(number));
}

fn tell_spot(spot: Spot, numbers: &Numbers, told: &mut Told) {
    match spot {
        Spot::Visible(n) => {
            told.text("spot ");
            told.number(n as i128);
        }
        Spot::Brief(ty, n) => {
            told.text(type_word(ty));
            tell_variable("", numbers.brief(n), told);
        }
        Spot::Bit(n, bit) => {
            tell_variable("bit", numbers.table(n), told);
            told.text(".");
            told.number(i128::from(bit));
        }
        Spot::Bytes(ty, n, count) => {
            told.text(type_word(ty));
            tell_variable("", numbers.table(n), told);
            told.text("+");
            told.number(i128::from(count));
        }
        Spot::Fixed(v) => told.number(i128::from(v)),
        Spot::Nowhere => told.text("nowhere"),
    }
}

fn tell_begin(begin: Begin<'_>, numbers: &Numbers, told: &mut Told) {
    match begin {
        Begin::In(Where::Own, laid) => tell_variable("own", laid.first, told),
        Begin::In(Where::Visible, laid) => {
            tell_variable("shared", numbers.table(laid.first), told);
        }
        Begin::In(Where::Brief, laid) => {
            tell_variable("brief", numbers.brief(laid.first as usize), told);
        }
        Begin::At(spot) => tell_spot(spot, numbers, told),
    }
}

fn tell_operand(context: &Context<'_>, operand: &Operand, numbers: &Numbers, told: &mut Told) {
    match begin_of(context, operand) {
        Ok(begin) => tell_begin(begin, numbers, told),
        Err(fault) => told.words(&fault),
    }
}

/// Where the operand begins that a text reads as.
fn tell_text(context: &Context<'_>, text: &str, numbers: &Numbers, told: &mut Told) {
    match expression_of(text, told) {
        Some(Expr::Read(operand)) => {
            tell_operand(context, &operand, numbers, told);
            drop(operand);
        }
        Some(other) => {
            drop(other);
            told.text("no operand");
        }
        None => {}
    }
}

fn tell_texts(context: &Context<'_>, texts: &str, numbers: &Numbers, told: &mut Told) {
    let mut is_first = true;
    for text in texts.split(',') {
        if !is_first {
            told.text(", ");
        }
        tell_text(context, text, numbers, told);
        is_first = false;
    }
}

/// Where the operands of a text begin, which has commas between them.
pub fn tell_places(context: &Context<'_>, cells: &[Cell], texts: &str, told: &mut Told) {
    match numbers_of(told.alloc(), context, cells) {
        Ok(numbers) => tell_texts(context, texts, &numbers, told),
        Err(fault) => told.words(&fault),
    }
}
