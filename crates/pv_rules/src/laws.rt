//! What callers need of blocks that were read.
ghost use Rattle.std.specs.Prelude.{◌≡◌, [], List, Contains};
ghost use Rattle.pv_lex.specs.declared.token.Language.TheVariants.{Scl};
ghost use Rattle.pv_tree.specs.Tree.{BlockTree};
ghost use Rattle.pv_tree.specs.Lexemes.{Lexeme};
ghost use Rattle.pv_tree.specs.Blocks.{SpellsBlocks};
ghost use Rattle.pv_tree.specs.Parts.{instructions_of};

/// A law: no block that tokens of SCL spell has instructions.
pub fn scl_blocks_have_no_instructions()
    ensures { (blocks : List BlockTree) (tokens : List Lexeme) → SpellsBlocks Scl blocks tokens
        → (block : BlockTree) → Contains blocks block → instructions_of block.body ≡ [] }
{}
