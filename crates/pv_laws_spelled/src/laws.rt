//! What each tree has that tokens spell.
ghost use Rattle.std.specs.Prelude.{ℕ, ◌≤◌, List, length, Contains};
ghost use Rattle.std.specs.List.{AllByRecursion};
ghost use Rattle.pv_lex.specs.declared.token.Language.{Language};
ghost use Rattle.pv_tree.specs.Tree.{ExprTree, OperandTree, InstrTree, BlockTree};
ghost use Rattle.pv_tree.specs.Scopes.{SymbolTree, ProjectTree, Scope};
ghost use Rattle.pv_tree.specs.Lexemes.{Lexeme};
ghost use Rattle.pv_tree.specs.Expressions.{SpellsExpr};
ghost use Rattle.pv_tree.specs.Blocks.{SpellsBlock};
ghost use Rattle.pv_tree.specs.LiteralTypes.{nothing};
ghost use Rattle.pv_tree.specs.Instructions.{SpellsInstr};
ghost use Rattle.pv_tree.specs.Parts.{parts_of, reads_of_parts, instructions_of};
ghost use Rattle.pv_laws_types.specs.Typed.{ValuesAreFunctions};
ghost use Rattle.pv_laws_places.specs.Sources.{SourceRead, IsOfText, AreOfTexts, project_of};
ghost use Rattle.pv_laws_room.specs.Reached.{IsShortOperand, AreShort};

/// Each address that tokens spell is one of a bit, a byte, a word or a double word: each of a block, of the blocks of sources, and each
/// that an expression reads.
pub fn spelled_addresses_are_short()
    ensures block { (language : Language) (project : ProjectTree) (block : BlockTree)
        (tokens : List Lexeme) → SpellsBlock language block tokens → AreShort project block }
    ensures sources { (sources : List SourceRead) (symbols : List SymbolTree) (block : BlockTree)
        → AreOfTexts 0 sources → Contains (project_of sources symbols).blocks block
        → AreShort (project_of sources symbols) block }
    ensures expression { (scope : Scope) (e : ExprTree) (tokens : List Lexeme) (o : OperandTree)
        → SpellsExpr e tokens → Contains (reads_of_parts (parts_of scope nothing e)) o
        → IsShortOperand o }
{}

/// Of the blocks of sources only functions have a value.
pub fn only_functions_have_values()
    ensures { (sources : List SourceRead) (symbols : List SymbolTree) → AreOfTexts 0 sources
        → ValuesAreFunctions (project_of sources symbols) }
{}

/// Tokens spell each instruction of a block that tokens spell, and of each block of sources.
pub fn instructions_are_spelled()
    ensures block { (language : Language) (block : BlockTree) (tokens : List Lexeme)
        → SpellsBlock language block tokens → (i : InstrTree)
        → Contains (instructions_of block.body) i → (ts : List Lexeme) × SpellsInstr i ts }
    ensures sources { (sources : List SourceRead) (symbols : List SymbolTree) (block : BlockTree)
        → AreOfTexts 0 sources → Contains (project_of sources symbols).blocks block
        → (i : InstrTree) → Contains (instructions_of block.body) i
        → (ts : List Lexeme) × SpellsInstr i ts }
{}

/// A text that is read as blocks has no more of them than bytes.
pub fn texts_have_few_blocks()
    ensures { (number : ℕ) (source : SourceRead) → IsOfText number source
        → length source.blocks ≤ length source.text }
{}
