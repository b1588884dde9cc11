//! Places lie in their texts, those of tokens, of trees and of broken rules.
ghost use Rattle.std.specs.Prelude.{ℕ, List};
ghost use Rattle.std.specs.List.{AllByRecursion};
ghost use Rattle.pv_place.specs.declared.place.Place.{Place};
ghost use Rattle.pv_types.specs.declared.declaration.Section.{Section};
ghost use Rattle.pv_types.specs.Tree.{VarTrees};
ghost use Rattle.pv_lex.specs.declared.token.Language.{Language};
ghost use Rattle.pv_lex.specs.declared.token.Token.{Token};
ghost use Rattle.pv_lex.specs.Tokens.{AreTokens};
ghost use Rattle.pv_tree.specs.Tree.{ExprTree, OperandTree, CallPlain, StmtTrees, InstrTree, BlockTree};
ghost use Rattle.pv_tree.specs.Scopes.{SymbolTree};
ghost use Rattle.pv_tree.specs.Lexemes.{Lexeme, lexemes_of};
ghost use Rattle.pv_tree.specs.Expressions.{SpellsExpr, SpellsOperand};
ghost use Rattle.pv_tree.specs.Calls.{SpellsCall};
ghost use Rattle.pv_tree.specs.Statements.{SpellsStmts};
ghost use Rattle.pv_tree.specs.Instructions.{SpellsInstrs};
ghost use Rattle.pv_tree.specs.Declarations.{SpellsVars};
ghost use Rattle.pv_tree.specs.Blocks.{SpellsBlock, SpellsBlocks};
ghost use Rattle.pv_tree.specs.Rules.{Rule, Breaks};
ghost use Rattle.pv_laws_places.specs.Kept.{EachOfExpr, EachOfOperand, EachOfCall, EachOfStmts, EachOfInstr, EachOfVars, EachOfBlock, EachOfBlocks};
ghost use Rattle.pv_laws_places.specs.Texts.{IsOfToken, TokenLies, LiesIn, LiesInOne};
ghost use Rattle.pv_laws_places.specs.Sources.{SourceRead, IsOfText, AreOfTexts, texts_of, project_of};

/// A law: each token of a text begins and ends in it, and so the place of each lies in it.
pub fn tokens_lie_in_their_texts()
    ensures tokens { (language : Language) (file : ℕ) (text : List ℕ) (tokens : List Token)
        → AreTokens language file text tokens → AllByRecursion (TokenLies file text) tokens }
    ensures places { (language : Language) (file : ℕ) (text : List ℕ) (tokens : List Token)
        (at : Place) → AreTokens language file text tokens
        → IsOfToken (lexemes_of text tokens) at → LiesIn file text at }
{}

/// A law: each place that a tree keeps is that of one of the tokens that spell it.
pub fn trees_keep_places_of_tokens()
    ensures expression { (e : ExprTree) (tokens : List Lexeme)
        → SpellsExpr e tokens → EachOfExpr (IsOfToken tokens) e }
    ensures operand { (o : OperandTree) (tokens : List Lexeme)
        → SpellsOperand o tokens → EachOfOperand (IsOfToken tokens) o }
    ensures call { (call : CallPlain) (tokens : List Lexeme)
        → SpellsCall call tokens → EachOfCall (IsOfToken tokens) call }
    ensures statements { (list : StmtTrees) (tokens : List Lexeme)
        → SpellsStmts list tokens → EachOfStmts (IsOfToken tokens) list }
    ensures instructions { (list : List InstrTree) (tokens : List Lexeme)
        → SpellsInstrs list tokens → AllByRecursion (EachOfInstr (IsOfToken tokens)) list }
    ensures declarations { (around : Section) (vars : VarTrees) (tokens : List Lexeme)
        → SpellsVars around vars tokens → EachOfVars (IsOfToken tokens) vars }
    ensures block { (language : Language) (block : BlockTree) (tokens : List Lexeme)
        → SpellsBlock language block tokens → EachOfBlock (IsOfToken tokens) block }
    ensures source { (language : Language) (blocks : List BlockTree) (tokens : List Lexeme)
        → SpellsBlocks language blocks tokens → EachOfBlocks (IsOfToken tokens) blocks }
{}

/// A law: each place that the blocks of a source keep lies in its text, and those of all sources lie
/// in one of their texts, each in the source that it names.
pub fn places_of_sources_lie_in_their_texts()
    ensures source { (number : ℕ) (source : SourceRead) → IsOfText number source
        → EachOfBlocks (LiesIn number source.text) source.blocks }
    ensures sources { (sources : List SourceRead) (symbols : List SymbolTree)
        → AreOfTexts 0 sources
        → EachOfBlocks (LiesInOne (texts_of sources)) (project_of sources symbols).blocks }
{}

/// A law: a rule is broken at a place in one of the sources.
pub fn rules_are_broken_in_sources()
    ensures { (sources : List SourceRead) (symbols : List SymbolTree) (rule : Rule) (at : Place)
        → AreOfTexts 0 sources → Breaks rule (project_of sources symbols) at
        → LiesInOne (texts_of sources) at }
{}
