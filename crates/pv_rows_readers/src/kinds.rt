//! The kinds of a text's tokens, and its first token outside the profile.
use pv_lex::{Language, Token};
use pv_parse::{first_outside, kinds};
use pv_rows_form::Told;

/// The numbers of the kinds, the end's too.
pub fn tell_kinds(bytes: &[u8], tokens: &[Token], told: &mut Told) {
    match kinds(told.alloc(), bytes, tokens) {
        Ok(list) => {
            let mut between = "";
            for kind in list.as_slice() {
                told.text(between);
                told.number(i128::from(*kind));
                between = " ";
            }
        }
        Err(_) => told.lose(),
    }
}

/// Where the first token outside the profile stands, with its length; `-` where there is none.
pub fn tell_outside(language: Language, bytes: &[u8], tokens: &[Token], told: &mut Told) {
    match first_outside(language, bytes, tokens) {
        Some(token) => {
            told.number(i128::from(token.place.offset));
            told.text("+");
            told.number(i128::from(token.len));
        }
        None => told.text("-"),
    }
}
