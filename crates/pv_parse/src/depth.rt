//! How deep a text nests, found along the turns of its walk before a tree is built.
//!
//! Each loop is the one of the tree's, over another making of values: what is left of the turns makes of what is left of the
//! tokens, on the stack as it is, what all of them make of all tokens. The first makes numbers alone; only where these tell that
//! something is too deep does the second one look for its place.
ghost use Rattle.std.specs.Prelude.{◌≡◌, [], ℕ, List, map, slice_get, IfOk};
ghost use Rattle.pv_tree.specs.Lexemes.{lexeme_of, lexemes_of};
ghost use Rattle.pv_tree.specs.Nesting.{most_levels};
ghost use Rattle.pv_parse.specs.Shades.{Shade, shade_of_token, shade_in, shades_of, place_at};
ghost use Rattle.pv_parse.specs.ItemShades.{shading_of, shade_making};
ghost use Rattle.pv_parse.specs.Items.{Leaves};
ghost use Rattle.pv_parse.specs.Levels.{level_making, table_making, sink_by, levels_in, level_at};
ghost use Rattle.pv_parse.specs.Building.{Plays, Taken, Makes, Turned, Built};

use crate::action::{Action, action_at};
use crate::shade::{Shaded, Shading, push, sink};
use crate::stack::Stop;
use crate::{decl_shades, expr_shades, instr_shades, levels, stmt_shades};
use pv_lex::Token;
use pv_ll::Turn;
use pv_place::Place;
use std::alloc::{AllocError, Global};

/// How many parts are above one that is too deep.
const MOST_LEVELS: usize = 64;

/// What an alternative does with what is known of the values on the stack.
pub fn shading(action: Action) -> Shading
    ensures { result ≡ shading_of action }
{
    match action {
        Action::Keep => Shading::Take(0),
        Action::Expr(action) => expr_shades::shading(action),
        Action::Decl(action) => decl_shades::decl_shading(action),
        Action::Block(action) => decl_shades::block_shading(action),
        Action::Call(action) => stmt_shades::call_shading(action),
        Action::Stmt(action) => stmt_shades::stmt_shading(action),
        Action::Instr(action) => instr_shades::instr_shading(action),
    }
}

/// What is known of a token.
fn token_shade(alloc: Global, token: &Token) -> Shaded
    ensures { (text : List ℕ) → shade_in result ≡ shade_of_token (lexeme_of text token.now) }
{
    Shaded {
        first: token.place,
        parts: Vec::new(alloc),
    }
}

/// Takes a turn, and gives the tokens that are left.
fn take<'b>(
    alloc: Global,
    actions: &[Action],
    turn: Turn,
    tokens: &'b [Token],
    stack: &mut Vec<Shaded>,
) -> Result<&'b [Token], Stop>
    ensures { (text : List ℕ) → Taken (λ left. lexemes_of text left.now) (shade_making actions.now) turn result
        (lexemes_of text tokens.now) (shades_of stack.old) (shades_of stack.new) }
{
    match turn {
        Turn::Pass => {
            let Some((token, others)) = tokens.split_first() else {
                return Err(Stop::Mistyped);
            };
            push(stack, token_shade(alloc, token))?;
            Ok(others)
        }
        Turn::Leave(k) => {
            sink(alloc, shading(action_at(actions, k)), stack)?;
            Ok(tokens)
        }
    }
}

/// The place of the part that is too deep.
fn place_in(value: &Shaded) -> Option<Place>
    ensures { result ≡ slice_get value.now.parts.items most_levels }
{
    let places = value.parts.as_slice();
    match places.get(MOST_LEVELS) {
        Some(place) => Some(*place),
        None => None,
    }
}

/// The first part of the top value that is too deep.
fn too_deep(stack: &mut Vec<Shaded>) -> Option<Place>
    ensures { result ≡ place_at most_levels (shades_of stack.old) }
{
    match stack.pop() {
        Some(value) => place_in(&value),
        None => None,
    }
}

/// Where the first part begins that has 64 parts above it; none where no part has.
fn find_place(
    alloc: Global,
    actions: &[Action],
    turns: &[Turn],
    tokens: &[Token],
) -> Result<Option<Place>, Stop>
    ensures { (text : List ℕ) (behind : List Shade) → Plays (shade_making actions.now) turns.now (lexemes_of text tokens.now) [] behind
        → Built (λ place. place) result (place_at most_levels behind) }
{
    let mut stack = Vec::new(alloc);
    let mut rest = tokens;
    for turn in turns {
        rest = take(alloc, actions, *turn, rest, &mut stack)?;
    }
    Ok(too_deep(&mut stack))
}

/// Of each alternative, by its number, what it does with what is known of the values on the stack.
fn shadings(alloc: Global, actions: &[Action]) -> Result<Vec<Shading>, AllocError>
    ensures { IfOk result (λ table. table.items ≡ map shading_of actions.now) }
{
    let mut table = Vec::with_capacity(alloc, actions.len())?;
    for action in actions {
        table.push(shading(*action))?;
    }
    Ok(table)
}

/// What the alternative with this number does with the levels of the values on the stack.
fn sink_by(table: &[Shading], k: u16, stack: &mut Vec<u8>) -> Result<(), Stop>
    ensures { Leaves result (levels_in stack.new) (sink_by table.now k (levels_in stack.old)) }
{
    match table.get(k as usize) {
        Some(shading) => levels::sink(shading, stack),
        None => Ok(()),
    }
}

/// What a turn does with the levels of the values on the stack.
fn take_levels(table: &[Shading], turn: Turn, stack: &mut Vec<u8>) -> Result<(), Stop>
    ensures { Turned (table_making table.now) turn result (levels_in stack.old) (levels_in stack.new) }
{
    match turn {
        Turn::Pass => {
            levels::push(stack, 0)?;
            Ok(())
        }
        Turn::Leave(k) => sink_by(table, k, stack),
    }
}

/// How many levels the whole has by such a table.
fn count_by(alloc: Global, table: &[Shading], turns: &[Turn]) -> Result<u8, Stop>
    ensures { (behind : List ℕ) → Makes (table_making table.now) turns.now [] behind → Built (λ levels. levels) result (level_at behind) }
{
    let mut stack = Vec::new(alloc);
    for turn in turns {
        take_levels(table, *turn, &mut stack)?;
    }
    Ok(levels::top(&mut stack))
}

/// How many levels the whole has, where more than are too deep count as so many.
fn count_levels(alloc: Global, actions: &[Action], turns: &[Turn]) -> Result<u8, Stop>
    ensures { (behind : List ℕ) → Makes (level_making actions.now) turns.now [] behind → Built (λ levels. levels) result (level_at behind) }
{
    let table = shadings(alloc, actions)?;
    count_by(alloc, table.as_slice(), turns)
}

/// Where the first part begins that has 64 parts above it, by the turns of the tokens' walk; none where no part has. The error is
/// NoMemory wherever the turns make anything of the tokens.
pub fn find_too_deep(
    alloc: Global,
    actions: &[Action],
    turns: &[Turn],
    tokens: &[Token],
) -> Result<Option<Place>, Stop>
    ensures { (text : List ℕ) (behind : List Shade) → Plays (shade_making actions.now) turns.now (lexemes_of text tokens.now) [] behind
        → Built (λ place. place) result (place_at most_levels behind) }
{
    let levels = count_levels(alloc, actions, turns)?;
    if (levels as usize) <= MOST_LEVELS {
        return Ok(None);
    }
    find_place(alloc, actions, turns, tokens)
}
