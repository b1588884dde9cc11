//! The tokens of sources, and the recognizer on its sample language.
use pv_lex::{Kind, Language, LexFault, MAX_SOURCE, Token, token_value, tokens};
use pv_ll::{Turn, recognize_sample};
use pv_rows_form::Told;
use std::alloc::{AllocError, Global};

/// The letter of a kind.
fn letter(kind: Kind) -> &'static str {
    match kind {
        Kind::Word => "W",
        Kind::Quoted => "Q",
        Kind::Number => "N",
        Kind::Real => "R",
        Kind::Address => "A",
        Kind::Sign => "S",
        Kind::End => "E",
    }
}

/// The bytes of a token.
fn bytes_of<'a>(text: &'a [u8], token: &Token) -> &'a [u8] {
    let (_before, rest) = text.split_at((token.place.offset as usize).min(text.len()));
    let (bytes, _behind) = rest.split_at((token.len as usize).min(rest.len()));
    bytes
}

/// A token: its kind and offset, its length but at the end, and a number's value.
fn tell_token(text: &[u8], token: &Token, told: &mut Told) {
    told.text(letter(token.kind));
    told.number(i128::from(token.place.offset));
    if token.kind != Kind::End {
        told.text("+");
        told.number(i128::from(token.len));
    }
    if token.kind == Kind::Number {
        told.text("=");
        told.number(token_value(token.kind, bytes_of(text, token)));
    }
}

/// The tokens of a text, or its first fault with its offset.
pub fn tell_tokens(language: Language, bytes: &[u8], told: &mut Told) {
    if bytes.len() > MAX_SOURCE {
        return;
    }
    match tokens(told.alloc(), 0, language, bytes) {
        Ok(all) => {
            let mut between = "";
            for token in all.as_slice() {
                told.text(between);
                tell_token(bytes, token, told);
                between = " ";
            }
        }
        Err(LexFault::NoToken { kind, place }) => {
            told.words(&kind);
            told.number(i128::from(place.offset));
        }
        Err(LexFault::NoMemory) => told.lose(),
    }
}

fn kinds_of(alloc: Global, said: &str) -> Result<Vec<u8>, AllocError> {
    let mut kinds = Vec::new(alloc);
    for word in said.split(' ') {
        if let Ok(kind) = word.parse::<u8>() {
            kinds.push(kind)?;
        }
    }
    Ok(kinds)
}

/// Whether a text is one of the sample language, whose kinds are 0 for a name, 1 for `:=`, 2 for `;`, 3 and 4 for parentheses, 5 for OR and 6
/// for AND: where that is asked, what happens along its walk if all alternatives act, else `-`; or the number of its first token at
/// fault.
pub fn tell_sample(walked: bool, said: &str, told: &mut Told) {
    let Ok(kinds) = kinds_of(told.alloc(), said) else {
        return told.lose();
    };
    match recognize_sample(told.alloc(), &[true; 11], kinds.as_slice()) {
        Ok(Ok(turns)) if walked => tell_turns(turns.as_slice(), told),
        Ok(Ok(_)) => told.text("-"),
        Ok(Err(at)) => told.number(at as i128),
        Err(_) => told.lose(),
    }
}

/// A token that is passed is a dot, an alternative that is left its number.
fn tell_turns(turns: &[Turn], told: &mut Told) {
    let mut between = "";
    for turn in turns {
        told.text(between);
        match turn {
            Turn::Pass => told.text("."),
            Turn::Leave(k) => told.number(i128::from(*k)),
        }
        between = " ";
    }
}
