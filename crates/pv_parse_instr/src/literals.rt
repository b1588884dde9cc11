//! Literals behind an instruction's word, on which their type hangs.
ghost use Rattle.std.specs.Prelude.{◌≡◌, ◌≤◌, ◌∷◌, [], length, Some};
ghost use Rattle.std.specs.List.{prefix_len};
ghost use Rattle.pv_lex.specs.Classes.{is_word_byte};
ghost use Rattle.pv_lex.specs.Shapes.{is_one_of};
ghost use Rattle.pv_parse.specs.TokenTexts.{starts};
ghost use Rattle.pv_tree.specs.Literals.{is_based, loaded_type};
ghost use Rattle.pv_parse.specs.Items.{stack_of, lexeme_of_slice, Leaves};
ghost use Rattle.pv_parse.specs.InstrDeeds.{type_behind, number_behind, number_deed, negative_deed, truth_deed};

use pv_lex::token_value;
use pv_parse::{
    Item, Sliced, Stop, is_text, negated_value, number_type, pop_token, push, truth_of,
};
use pv_place::Place;
use pv_types::Literal;
use pv_word::Ty;

/// Whether the byte is one of a word.
fn is_word_byte(byte: u8) -> bool
    ensures { result ≡ is_word_byte byte }
{
    byte.is_ascii_alphanumeric() || byte == b'_'
}

/// How many bytes of a word begin the text.
fn word_len(text: &[u8]) -> usize
    ensures within { result ≤ length text.now }
    ensures exact { result ≡ prefix_len is_word_byte text.now }
{
    text.iter().take_while(|byte| is_word_byte(**byte)).count()
}

/// Whether the text begins with `#`.
fn starts_typed(text: &[u8]) -> bool
    ensures { result ≡ starts 35 text.now }
{
    !text.is_empty() && text[0] == b'#'
}

/// Whether the text is one of these words.
#[tactic(auto, unfolding(pv_lex::specs::Shapes::is_one_of))]
fn is_any(text: &[u8], one: &[u8], other: &[u8], last: &[u8]) -> bool
    ensures { result ≡ is_one_of (one.now ∷ other.now ∷ last.now ∷ []) text.now }
{
    is_text(text, one) || is_text(text, other) || is_text(text, last)
}

/// Whether a number is written in a base and without a type, as 16#FF.
#[tactic(auto, unfolding(pv_tree::specs::Literals::is_based))]
fn is_based(bytes: &[u8]) -> bool
    ensures { result ≡ is_based bytes.now }
{
    let (word, rest) = bytes.split_at(word_len(bytes));
    starts_typed(rest) && is_any(word, b"2", b"8", b"16")
}

/// The type of a number that L loads: one in a base is a word, or a double word past 65535.
fn loaded_type(value: i128, bytes: &[u8]) -> Option<Ty>
    ensures { result ≡ loaded_type value bytes.now }
{
    if !is_based(bytes) {
        number_type(bytes)
    } else if value <= 65535 {
        Some(Ty::Word)
    } else {
        Some(Ty::Dword)
    }
}

/// The type of a number behind an instruction's word.
#[tactic(auto, unfolding(pv_parse::specs::InstrDeeds::type_behind))]
fn type_behind(op: &[u8], value: i128, bytes: &[u8]) -> Option<Ty>
    ensures { result ≡ type_behind op.now value bytes.now }
{
    if is_text(op, b"L") {
        loaded_type(value, bytes)
    } else {
        number_type(bytes)
    }
}

/// A number of this value that begins at this place, behind the instruction's word.
fn number_behind(op: Sliced, token: Sliced, value: i128, place: Place) -> Literal
    ensures { result ≡ number_behind (lexeme_of_slice op.entry) (lexeme_of_slice token.entry) value place }
{
    Literal {
        ty: type_behind(op.bytes, value, token.bytes),
        value,
        place,
    }
}

/// A number.
pub fn number(stack: &mut Vec<Item>) -> Result<(), Stop>
    ensures { Leaves result (stack_of stack.new) (number_deed (stack_of stack.old)) }
{
    let token = pop_token(stack)?;
    let op = pop_token(stack)?;
    let value = token_value(token.kind, token.bytes);
    let literal = number_behind(op, token, value, token.place);
    push(stack, Item::Token(op))?;
    push(stack, Item::Literal(literal))?;
    Ok(())
}

/// A number behind `-`.
pub fn negative(stack: &mut Vec<Item>) -> Result<(), Stop>
    ensures { Leaves result (stack_of stack.new) (negative_deed (stack_of stack.old)) }
{
    let token = pop_token(stack)?;
    let minus = pop_token(stack)?;
    let op = pop_token(stack)?;
    let value = negated_value(token.kind, token.bytes);
    let literal = number_behind(op, token, value, minus.place);
    push(stack, Item::Token(op))?;
    push(stack, Item::Literal(literal))?;
    Ok(())
}

/// TRUE or FALSE.
pub fn truth(stack: &mut Vec<Item>) -> Result<(), Stop>
    ensures { Leaves result (stack_of stack.new) (truth_deed (stack_of stack.old)) }
{
    let token = pop_token(stack)?;
    let literal = Literal {
        ty: Some(Ty::Bool),
        value: truth_of(token.bytes),
        place: token.place,
    };
    push(stack, Item::Literal(literal))?;
    Ok(())
}
