//! Laws of the definitions, each the contract of a function that does nothing.
ghost use Rattle.std.specs.Prelude.{◌≡◌, ℕ, List};
ghost use Rattle.pv_tree.specs.Tree.{ExprTree};
ghost use Rattle.pv_tree.specs.Scopes.{Scope};
ghost use Rattle.pv_tree.specs.Lexemes.{Lexeme};
ghost use Rattle.pv_tree.specs.Reading.{ReadAsExpression};
ghost use Rattle.pv_case.specs.declared.case.PatternKind.{PatternKind as KindOf};
ghost use Rattle.pv_pattern.specs.Patterns.{Pattern};
ghost use Rattle.pv_pattern.specs.Texts.{IsTextOf, Fault, FailsAt};
ghost use Rattle.pv_pattern_read.specs.Kinds.{IsReadPattern};

use pv_scl_parse::scl_expression;

/// A law: tokens read as one expression at most.
pub fn tokens_read_as_one_expression()
    ensures { (a b : ExprTree) (tokens : List Lexeme)
        → ReadAsExpression a tokens → ReadAsExpression b tokens → a ≡ b }
{
    let _language = scl_expression();
}

/// A law: so do texts.
pub fn texts_are_one_expression()
    ensures { (text : List ℕ) (a b : ExprTree) → IsTextOf text a → IsTextOf text b → a ≡ b }
{
    tokens_read_as_one_expression();
}

/// A law: texts are one pattern of a kind at most.
pub fn texts_say_one_pattern()
    ensures { (scope : Scope) (kind : KindOf) (texts : List (List ℕ)) (p q : Pattern)
        → IsReadPattern scope kind texts p → IsReadPattern scope kind texts q → p ≡ q }
{
    texts_are_one_expression();
}

/// A law: of texts one at most is at fault first, and in one way, and none is where they are a pattern.
pub fn first_fault_is_one()
    ensures one { (scope : Scope) (texts : List (List ℕ)) (n m : ℕ) (f g : Fault)
        → FailsAt scope texts n f → FailsAt scope texts m g → (n ≡ m) × (f ≡ g) }
    ensures apart { (scope : Scope) (kind : KindOf) (texts : List (List ℕ)) (p : Pattern) (n : ℕ)
        (f : Fault) → IsReadPattern scope kind texts p → FailsAt scope texts n f → ⊥ }
{
    texts_are_one_expression();
}
