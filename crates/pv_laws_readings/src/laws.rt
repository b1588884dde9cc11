//! What is said of a text, said of all texts.
ghost use Rattle.std.specs.Prelude.{◌≡◌, ℕ, List};
ghost use Rattle.pv_types.specs.declared.name.Name.{Name};
ghost use Rattle.pv_lex.specs.declared.token.Token.{Token};
ghost use Rattle.pv_lex.specs.declared.token.Language.{Language};
ghost use Rattle.pv_lex.specs.Tokens.{AreTokens};
ghost use Rattle.pv_tree.specs.Tree.{BlockTree};
ghost use Rattle.pv_tree.specs.Lexemes.{Lexeme, lexemes_of};
ghost use Rattle.pv_tree.specs.Reading.{ReadAsBlocks};
ghost use Rattle.pv_case_fit.specs.Entries.{IsNameText};
ghost use Rattle.pv_laws_readings.specs.Judgements.{Judgement, Judged};

use pv_pattern_read::laws::tokens_read_as_one_expression;
use pv_scl_parse::scl;
use pv_stl_parse::stl;

/// In each language tokens read as one list of blocks at most.
pub fn tokens_read_as_one_source()
    ensures { (its : Language) (tokens : List Lexeme) (all other : List BlockTree)
        → ReadAsBlocks its all tokens → ReadAsBlocks its other tokens → all ≡ other }
{
    let _of_scl = scl();
    let _of_stl = stl();
}

/// A source of either language reads in one way at most: what is said of its tokens, be it the first word outside the profile, the place at which the syntax is
/// at fault, or the list of blocks and where it first nests too deep, is the same whoever says it.
pub fn sources_are_judged_in_one_way()
    ensures { (its : Language) (file : ℕ) (text : List ℕ) (tokens : List Token) (one other : Judgement)
        → AreTokens its file text tokens → Judged its (lexemes_of text tokens) one
        → Judged its (lexemes_of text tokens) other → one ≡ other }
{
    let _of_scl = scl();
    let _of_stl = stl();
}

/// A text, as that of a case's entry, is one name at most.
pub fn texts_are_one_name()
    ensures { (text : List ℕ) (one other : Name) → IsNameText text one → IsNameText text other
        → one ≡ other }
{
    tokens_read_as_one_expression();
}
