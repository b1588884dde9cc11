//! Sources, read from tokens.
ghost use Rattle.std.specs.Prelude.{false, IsTrue, IfOk};
ghost use Rattle.pv_lex.specs.declared.token.Language.{Language as Of};
ghost use Rattle.pv_tree.specs.Lexemes.{lexemes_of};
ghost use Rattle.pv_ll.specs.Check.{is_ll1};
ghost use Rattle.pv_parse.specs.InOrder.{LieInOrder};
ghost use Rattle.pv_parse.specs.Kinds.{kinds_of, HaveKinds};
ghost use Rattle.pv_parse_source.specs.SourceAnswers.{ReadsSources, AnswersSource};

use crate::builder::build;
use crate::pops::pop_blocks;
use pv_lex::Token;
use pv_ll::{Language, recognize};
use pv_parse::{Action, ReadFault, Stop, acting, find_too_deep, kinds};
use pv_tree::Blocks;
use std::alloc::{AllocError, Global};

/// The blocks that the tokens of a source spell, without the end behind them; else where no list of blocks reads, and else where
/// one nests too deep. How deep they nest is found before a block is built, so that no tree is deeper than 64 levels. What an
/// alternative takes lies on the stack at each step of a derivation, so the error is want of memory alone.
pub fn read_source(
    alloc: Global,
    language: &Language,
    actions: &[Action],
    text: &[u8],
    tokens: &[Token],
) -> Result<Result<Blocks, ReadFault>, AllocError>
    requires ll1 { IsTrue (is_ll1 language.now) }
    requires tokens { HaveKinds (lexemes_of text.now tokens.now)
        (kinds_of false (lexemes_of text.now tokens.now)) }
    requires order { LieInOrder 0 (lexemes_of text.now tokens.now) }
    requires reads { (its : Of) × ReadsSources its language.now actions.now }
    ensures { IfOk result (λ answer. (its : Of) → ReadsSources its language.now actions.now
        → AnswersSource its (lexemes_of text.now tokens.now) answer) }
{
    let kinds = kinds(alloc, text, tokens)?;
    let acts = acting(alloc, actions)?;
    let turns = match recognize(alloc, language, &acts, &kinds)? {
        Ok(turns) => turns,
        Err(at) => return Ok(Err(ReadFault::Syntax(at))),
    };
    drop(kinds);
    let deep = match find_too_deep(alloc, actions, &turns, tokens) {
        Ok(deep) => deep,
        Err(Stop::NoMemory) => return Err(AllocError),
        Err(Stop::Mistyped) => unreachable!(),
    };
    if let Some(place) = deep {
        return Ok(Err(ReadFault::Deep(place)));
    }
    let mut stack = match build(alloc, actions, &turns, text, tokens) {
        Ok(stack) => stack,
        Err(Stop::NoMemory) => return Err(AllocError),
        Err(Stop::Mistyped) => unreachable!(),
    };
    match pop_blocks(&mut stack) {
        Ok(list) => Ok(Ok(Blocks { list })),
        Err(Stop::NoMemory) => Err(AllocError),
        Err(Stop::Mistyped) => unreachable!(),
    }
}
