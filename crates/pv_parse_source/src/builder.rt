//! A tree from the turns of a walk: the stack on which the alternatives that are left act.
//!
//! What is left of the turns makes of what is left of the tokens, on the stack as it is, what all turns make of all tokens: that
//! is kept from turn to turn, and at the end nothing is left.
ghost use Rattle.std.specs.Prelude.{◌≡◌, []};
ghost use Rattle.pv_tree.specs.Lexemes.{lexeme_of, lexemes_of};
ghost use Rattle.pv_parse.specs.Items.{Stack, stack_of, item_of, lexeme_of_slice, Leaves};
ghost use Rattle.pv_parse.specs.Deeds.{deed, making};
ghost use Rattle.pv_parse.specs.Building.{Plays, Taken, Built};

use crate::blocks::act_on_block;
use crate::declarations::act_on_decl;
use pv_lex::Token;
use pv_ll::Turn;
use pv_parse::{Action, Item, Sliced, Stop, act_on_expr, action_at, bytes_of, push};
use pv_parse_call::act_on_call;
use pv_parse_instr::act_on_instr;
use pv_parse_stmt::act_on_stmt;
use std::alloc::Global;

/// A token with its bytes.
fn sliced<'a>(text: &'a [u8], token: &Token) -> Sliced<'a>
    ensures { lexeme_of_slice result ≡ lexeme_of text.now token.now }
{
    Sliced {
        bytes: bytes_of(text, token),
        place: token.place,
        kind: token.kind,
    }
}

/// What an alternative does with what lies on the stack.
fn act(alloc: Global, action: Action, stack: &mut Vec<Item>) -> Result<(), Stop>
    ensures { Leaves result (stack_of stack.new) (deed action (stack_of stack.old)) }
{
    match action {
        Action::Keep => Ok(()),
        Action::Expr(action) => act_on_expr(alloc, action, stack),
        Action::Decl(action) => act_on_decl(alloc, action, stack),
        Action::Block(action) => act_on_block(alloc, action, stack),
        Action::Call(action) => act_on_call(alloc, action, stack),
        Action::Stmt(action) => act_on_stmt(alloc, action, stack),
        Action::Instr(action) => act_on_instr(alloc, action, stack),
    }
}

/// Takes a turn, and gives the tokens that are left.
fn take<'a, 'b>(
    alloc: Global,
    actions: &[Action],
    text: &'a [u8],
    turn: Turn,
    tokens: &'b [Token],
    stack: &mut Vec<Item<'a>>,
) -> Result<&'b [Token], Stop>
    ensures { Taken (λ left. lexemes_of text.now left.now) (making actions.now) turn result
        (lexemes_of text.now tokens.now) (stack_of stack.old) (stack_of stack.new) }
{
    match turn {
        Turn::Pass => {
            let Some((token, others)) = tokens.split_first() else {
                return Err(Stop::Mistyped);
            };
            push(stack, Item::Token(sliced(text, token)))?;
            Ok(others)
        }
        Turn::Leave(k) => {
            act(alloc, action_at(actions, k), stack)?;
            Ok(tokens)
        }
    }
}

/// What the tokens make of the empty stack, by the turns of their walk. The error is NoMemory wherever they make anything.
pub fn build<'a>(
    alloc: Global,
    actions: &[Action],
    turns: &[Turn],
    text: &'a [u8],
    tokens: &[Token],
) -> Result<Vec<Item<'a>>, Stop>
    ensures { (behind : Stack) → Plays (making actions.now) turns.now (lexemes_of text.now tokens.now) [] behind
        → Built stack_of result behind }
{
    let mut stack = Vec::new(alloc);
    let mut rest = tokens;
    for turn in turns {
        rest = take(alloc, actions, text, *turn, rest, &mut stack)?;
    }
    Ok(stack)
}
