//! The block that a case's entry names.
ghost use Rattle.std.specs.Prelude.{◌≡◌, ℕ, ◌^◌, ◌<◌, length, map, IfOk, IfErr, IfSome, IfNone};
ghost use Rattle.pv_types.specs.declared.name.Name.{Name as A_name};
ghost use Rattle.pv_lex.specs.Tokens.{AreTokens};
ghost use Rattle.pv_lex.specs.declared.token.Language.TheVariants.{Scl as In_scl};
ghost use Rattle.pv_tree.specs.View.{block_tree, expr_tree, operand_tree};
ghost use Rattle.pv_tree.specs.Lexemes.{lexemes_of};
ghost use Rattle.pv_case_fit.specs.declared.fault.EntryFault.TheVariants.{NoEntry as Is_no_entry};
ghost use Rattle.pv_case_fit.specs.Entries.{IsNameOf, is_short, IsNameText, may_enter, number_of_entry, IsEntry};
ghost use Rattle.pv_case_fit.specs.Named.{name_of_root, name_of_operand, name_alone};

use crate::fault::EntryFault;
use pv_lex::{Language, LexFault, MAX_SOURCE, Token, tokens};
use pv_scl_parse::{ParseFault, expression};
use pv_tree::{Block, BlockKind, Blocks, Expr, Operand, Root};
use pv_types::Name;
use std::alloc::{AllocError, Global};

/// The number of the block that the text names: the first function block or organization block of this name. The text is a name
/// as SCL spells one, a numbered or a quoted one too, with blanks and comments around it or not. The sources of a case have
/// fewer than 2^32 blocks together, as they have fewer bytes.
///
/// `NoEntry` exactly where there is none.
pub fn entry_of(alloc: Global, blocks: &Blocks, text: &str) -> Result<u32, EntryFault>
    requires few { length blocks.now.list.items < 2 ^ 32 }
    ensures found { IfOk result (λ n. IsEntry (map block_tree blocks.now.list.items) text.now n) }
    ensures none { IfErr result (λ fault. fault ≡ Is_no_entry → (n : ℕ)
        → IsEntry (map block_tree blocks.now.list.items) text.now n → ⊥) }
{
    let Some(name) = name_in(alloc, text)? else {
        return Err(EntryFault::NoEntry);
    };
    match number_of(blocks.list.as_slice(), &name) {
        Some(n) => Ok(n),
        None => Err(EntryFault::NoEntry),
    }
}

/// The number of the first block of this name that may be entered.
fn number_of(blocks: &[Block], name: &Name) -> Option<u32>
    requires few { length blocks.now < 2 ^ 32 }
    ensures { result ≡ number_of_entry (map block_tree blocks.now) name.now.key }
{
    for (n, block) in blocks.iter().enumerate() {
        if may_enter(block, name) {
            return Some(n as u32);
        }
    }
    None
}

fn may_enter(block: &Block, name: &Name) -> bool
    ensures { result ≡ may_enter name.now.key (block_tree block.now) }
{
    name.key() == block.name.key() && matches!(block.kind, BlockKind::Fb | BlockKind::Ob)
}

/// Whether a source may be so long.
fn is_short(text: &str) -> bool
    ensures { result ≡ is_short text.now }
{
    text.len() <= MAX_SOURCE
}

/// The name that the text reads as, where it reads as one.
fn name_in(alloc: Global, text: &str) -> Result<Option<Name>, AllocError>
    ensures found { IfOk result (λ o. IfSome o (λ name. IsNameText text.now name)) }
    ensures none { IfOk result (λ o. IfNone o ((name : A_name) → IsNameText text.now name → ⊥)) }
{
    if !is_short(text) {
        return Ok(None);
    }
    match tokens(alloc, 0, Language::Scl, text.as_bytes()) {
        Ok(tokens) => name_among(alloc, text.as_bytes(), tokens.as_slice()),
        Err(LexFault::NoToken { .. }) => Ok(None),
        Err(LexFault::NoMemory) => Err(AllocError),
    }
}

/// The name that the tokens read as. A name has two at most, and so the expression that is read for it is small.
fn name_among(alloc: Global, text: &[u8], tokens: &[Token]) -> Result<Option<Name>, AllocError>
    requires { AreTokens In_scl 0 text.now tokens.now }
    ensures found { IfOk result (λ o. IfSome o (λ name. IsNameOf (lexemes_of text.now tokens.now) name)) }
    ensures none { IfOk result (λ o. IfNone o ((name : A_name) → IsNameOf (lexemes_of text.now tokens.now) name → ⊥)) }
{
    if tokens.len() > 3 {
        return Ok(None);
    }
    match expression(alloc, text, tokens) {
        Ok(tree) => name_of(&tree),
        Err(ParseFault::Outside { .. }) => Ok(None),
        Err(ParseFault::Syntax { .. }) => Ok(None),
        Err(ParseFault::Deep { .. }) => Ok(None),
        Err(ParseFault::NoMemory) => Err(AllocError),
    }
}

/// The name that is the whole expression.
fn name_of(tree: &Expr) -> Result<Option<Name>, AllocError>
    ensures { IfOk result (λ name. name ≡ name_alone (expr_tree tree.now)) }
{
    match tree {
        Expr::Read(operand) => name_of_operand(operand),
        _ => Ok(None),
    }
}

fn name_of_operand(operand: &Operand) -> Result<Option<Name>, AllocError>
    ensures { IfOk result (λ name. name ≡ name_of_operand (operand_tree operand.now)) }
{
    if !operand.steps.is_empty() {
        return Ok(None);
    }
    name_of_root(&operand.root)
}

/// The name where an operand begins, where that may be a block's: none behind a `#`.
fn name_of_root(root: &Root) -> Result<Option<Name>, AllocError>
    ensures { IfOk result (λ name. name ≡ name_of_root root.now) }
{
    match root {
        Root::Local {
            name,
            hash: false,
            ..
        } => Ok(Some(name.clone()?)),
        Root::Named(name) => Ok(Some(name.clone()?)),
        _ => Ok(None),
    }
}
