//! The machine: a stack of places on the heap, and one token of lookahead.
ghost use Rattle.std.specs.Prelude.{ℕ, List, IfOk, OnOk, IsTrue};
ghost use Rattle.pv_ll.specs.Table.{grammar_of};
ghost use Rattle.pv_ll.specs.Check.{is_ll1};
ghost use Rattle.pv_ll.specs.Facts.{IsLL1};
ghost use Rattle.pv_ll.specs.Turns.{IsExact};
ghost use Rattle.pv_ll.specs.Ways.{AreWays};
ghost use Rattle.pv_ll.specs.Reading.{answer_of, places_of, Stands, StandsFor, Expects, Takes, Ends};

use crate::table::{Language, Symbol};
use crate::turn::{Place, Turn, pop};
use crate::ways::{Ways, lead};
use std::alloc::{AllocError, Global};

/// What the stack says must come next.
enum Expected {
    /// A token of this kind, which was taken off the stack.
    ThisToken(u8),
    /// The end of the text.
    TheEnd,
    /// No token like the next one.
    NoMore,
}

/// Walks on to a token or to the end: puts what the next token leads to in place of the names on top of the stack.
fn expand(
    language: &Language,
    acts: &[bool],
    ways: &mut Ways,
    token: u8,
    places: &mut Vec<Place>,
    turns: &mut Vec<Turn>,
) -> Result<Expected, AllocError>
    requires ll1 { IsLL1 language.now }
    requires ways { AreWays language.now acts.now ways.old }
    ensures expects { IfOk result (λ found. (read : List ℕ) → Stands language.now acts.now turns.old.items read token (places_of places.old)
        → Expects language.now acts.now turns.new.items read token (places_of places.new) found) }
    ensures ways { OnOk result (AreWays language.now acts.now ways.new) }
{
    while let Some(place) = pop(places) {
        match place {
            Place::Of(symbol) => match symbol {
                Symbol::Token(kind) => return Ok(Expected::ThisToken(kind)),
                Symbol::Name(name) => {
                    if !lead(language, acts, ways, name, token, places)? {
                        return Ok(Expected::NoMore);
                    }
                }
            },
            Place::Behind(k) => turns.push(Turn::Leave(k))?,
        }
    }
    Ok(Expected::TheEnd)
}

/// Whether a text goes on with this token, which is then passed.
fn take_token(
    language: &Language,
    acts: &[bool],
    ways: &mut Ways,
    token: u8,
    places: &mut Vec<Place>,
    turns: &mut Vec<Turn>,
) -> Result<bool, AllocError>
    requires ll1 { IsLL1 language.now }
    requires ways { AreWays language.now acts.now ways.old }
    ensures takes { IfOk result (λ yes. (read : List ℕ) → StandsFor language.now acts.now turns.old.items read (places_of places.old)
        → Takes language.now acts.now turns.new.items read token (places_of places.new) yes) }
    ensures ways { OnOk result (AreWays language.now acts.now ways.new) }
{
    match expand(language, acts, ways, token, places, turns)? {
        Expected::ThisToken(kind) => {
            if kind == token {
                turns.push(Turn::Pass)?;
                Ok(true)
            } else {
                Ok(false)
            }
        }
        Expected::TheEnd => Ok(false),
        Expected::NoMore => Ok(false),
    }
}

/// Whether the text may end here.
fn take_end(
    language: &Language,
    acts: &[bool],
    ways: &mut Ways,
    places: &mut Vec<Place>,
    turns: &mut Vec<Turn>,
) -> Result<bool, AllocError>
    requires ll1 { IsLL1 language.now }
    requires ways { AreWays language.now acts.now ways.old }
    ensures { IfOk result (λ yes. (read : List ℕ) → StandsFor language.now acts.now turns.old.items read (places_of places.old)
        → Ends language.now acts.now turns.new.items read yes) }
{
    match expand(language, acts, ways, language.kinds, places, turns)? {
        Expected::TheEnd => Ok(true),
        Expected::ThisToken(_) => Ok(false),
        Expected::NoMore => Ok(false),
    }
}

/// Reads a whole text, as `recognize` does.
fn run(
    alloc: Global,
    language: &Language,
    acts: &[bool],
    kinds: &[u8],
) -> Result<Result<Vec<Turn>, usize>, AllocError>
    requires { IsLL1 language.now }
    ensures { IfOk result (λ answer. IsExact (grammar_of language.now) language.now.start acts.now kinds.now (answer_of answer)) }
{
    let mut ways = Ways::of(alloc, language, kinds.len())?;
    let mut turns = Vec::new(alloc);
    let mut places = Vec::new(alloc);
    places.push(Place::Of(Symbol::Name(language.start)))?;
    for (i, kind) in kinds.iter().enumerate() {
        if !take_token(language, acts, &mut ways, *kind, &mut places, &mut turns)? {
            return Ok(Err(i));
        }
    }
    if take_end(language, acts, &mut ways, &mut places, &mut turns)? {
        Ok(Ok(turns))
    } else {
        Ok(Err(kinds.len()))
    }
}

/// Reads a whole text, given by the kinds of its tokens. `acts` says of each alternative, by its number, whether it acts; one
/// past its end doesn't. `Ok` has what happens along the walk through the text's derivation: each token that is passed, and
/// each alternative that is left and acts, in their order. `Err(i)` says that token i, counted from 0, is the first with which
/// no text goes on; i is the number of tokens where the text ends too early. The outer error comes where memory runs out. A
/// kind that the language doesn't have is a fault like any other.
pub fn recognize(
    alloc: Global,
    language: &Language,
    acts: &[bool],
    kinds: &[u8],
) -> Result<Result<Vec<Turn>, usize>, AllocError>
    requires { IsTrue (is_ll1 language.now) }
    ensures { IfOk result (λ answer. IsExact (grammar_of language.now) language.now.start acts.now kinds.now (answer_of answer)) }
{
    run(alloc, language, acts, kinds)
}
