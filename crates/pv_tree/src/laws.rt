//! Laws of addresses, spelling, nesting and words outside the profile.
ghost use Rattle.std.specs.Prelude.{◌≡◌, ◌⊎◌, ◌↔◌, ℕ, List, Some, drop};
ghost use Rattle.pv_types.specs.declared.declaration.Section.{Section};
ghost use Rattle.pv_types.specs.Tree.{VarTrees};
ghost use Rattle.pv_lex.specs.declared.context.Context.{Context};
ghost use Rattle.pv_lex.specs.declared.token.Kind.TheVariants.{Address};
ghost use Rattle.pv_lex.specs.declared.token.Language.{Language};
ghost use Rattle.pv_lex.specs.Tokens.{IsNext};
ghost use Rattle.pv_lex.specs.Values.{value_behind};
ghost use Rattle.pv_tree.specs.Tree.{ExprTree, OperandTree, CallPlain, StmtTree, StmtTrees, BlockTree};
ghost use Rattle.pv_tree.specs.Lexemes.{Lexeme, first_place, ◌⨾◌};
ghost use Rattle.pv_tree.specs.Literals.{bare_address, from_digit, leading_digits, behind_digits, address_byte, address_bit};
ghost use Rattle.pv_tree.specs.Expressions.{SpellsExpr, SpellsOperand};
ghost use Rattle.pv_tree.specs.Calls.{SpellsCall};
ghost use Rattle.pv_tree.specs.Statements.{SpellsStmt, SpellsEnd, SpellsStmts};
ghost use Rattle.pv_tree.specs.Declarations.{SpellsVars};
ghost use Rattle.pv_tree.specs.Blocks.{SpellsBlock, SpellsBlocks};
ghost use Rattle.pv_place.specs.declared.place.Place.{Place};
ghost use Rattle.pv_tree.specs.Nesting.{Part, first_of, first_of_operand, first_of_stmt, levels, levels_of_stmts, parts, parts_of_stmts};
ghost use Rattle.pv_tree.specs.Depth.{levels_of_vars, levels_of_block, levels_of_blocks, parts_of_vars, parts_of_kind, parts_of_blocks, IsShallow, IsDeepest};
ghost use Rattle.pv_tree.specs.Order.{Along, HasAbove, IsAmong};
ghost use Rattle.pv_tree.specs.Reading.{IsSyntaxFault, ReadAsBlocks, ReadAsExpression};
ghost use Rattle.pv_tree.specs.Outside.{IsFirstOutside, IsWithin};

/// A law: the numbers of a token that is an address are those that its digits make, since each of
/// them has at most 64 bits.
pub fn addresses_say_their_digits()
    ensures byte { (language : Language) (context : Context) (bytes rest : List ℕ)
        → IsNext language context (Some Address) bytes rest
        → address_byte (bare_address bytes)
        ≡ value_behind 10 0 (leading_digits (from_digit (bare_address bytes))) }
    ensures bit { (language : Language) (context : Context) (bytes rest : List ℕ)
        → IsNext language context (Some Address) bytes rest
        → address_bit (bare_address bytes)
        ≡ value_behind 10 0 (drop 1 (behind_digits (from_digit (bare_address bytes)))) }
{}

/// A law: the first of the tokens that spell an expression, an operand, a call or a statement with
/// its `;` stands at the place that the tree says.
pub fn first_tokens_are_kept()
    ensures expression { (e : ExprTree) (tokens : List Lexeme)
        → SpellsExpr e tokens → first_place tokens ≡ Some (first_of e) }
    ensures operand { (o : OperandTree) (tokens : List Lexeme)
        → SpellsOperand o tokens → first_place tokens ≡ Some (first_of_operand o) }
    ensures call { (call : CallPlain) (tokens : List Lexeme)
        → SpellsCall call tokens → first_place tokens ≡ Some call.place }
    ensures statement { (stmt : StmtTree) (tokens : List Lexeme)
        → (SpellsStmt stmt ⨾ SpellsEnd stmt) tokens
        → first_place tokens ≡ Some (first_of_stmt stmt) }
{}

/// A law: the parts of a tree begin at tokens that spell it, one behind the other, so that they
/// keep the order of the tokens' places.
pub fn parts_keep_the_order_of_tokens()
    ensures expression { (n : ℕ) (e : ExprTree) (tokens : List Lexeme)
        → SpellsExpr e tokens → Along tokens (parts n e) }
    ensures statements { (n : ℕ) (list : StmtTrees) (tokens : List Lexeme)
        → SpellsStmts list tokens → Along tokens (parts_of_stmts n list) }
    ensures declarations { (n : ℕ) (around : Section) (vars : VarTrees) (tokens : List Lexeme)
        (spelled : SpellsVars around vars tokens)
        → Along tokens (parts_of_vars n around vars tokens spelled) }
    ensures block { (language : Language) (block : BlockTree) (tokens : List Lexeme)
        (spelled : SpellsBlock language block tokens)
        → Along tokens (parts_of_kind language block.kind block tokens spelled) }
    ensures source { (language : Language) (blocks : List BlockTree) (tokens : List Lexeme)
        (spelled : SpellsBlocks language blocks tokens)
        → Along tokens (parts_of_blocks language blocks tokens spelled) }
{}

/// A law: nesting by levels from below and by parts from above agree. Some part of a tree with n
/// parts around it has m around it exactly where m is one of the numbers from n on, as many as the
/// tree has levels.
pub fn levels_and_parts_agree()
    ensures expression { (n m : ℕ) (e : ExprTree)
        → HasAbove (parts n e) m ↔ IsAmong n (levels e) m }
    ensures statements { (n m : ℕ) (list : StmtTrees)
        → HasAbove (parts_of_stmts n list) m ↔ IsAmong n (levels_of_stmts list) m }
    ensures declarations { (n m : ℕ) (around : Section) (vars : VarTrees) (tokens : List Lexeme)
        (spelled : SpellsVars around vars tokens)
        → HasAbove (parts_of_vars n around vars tokens spelled) m
        ↔ IsAmong n (levels_of_vars vars) m }
    ensures block { (m : ℕ) (language : Language) (block : BlockTree) (tokens : List Lexeme)
        (spelled : SpellsBlock language block tokens)
        → HasAbove (parts_of_kind language block.kind block tokens spelled) m
        ↔ IsAmong 0 (levels_of_block block) m }
    ensures source { (m : ℕ) (language : Language) (blocks : List BlockTree)
        (tokens : List Lexeme) (spelled : SpellsBlocks language blocks tokens)
        → HasAbove (parts_of_blocks language blocks tokens spelled) m
        ↔ IsAmong 0 (levels_of_blocks blocks) m }
{}

/// A law: a fault of syntax of a source or of an expression stands at one token.
pub fn syntax_fault_is_one()
    ensures source { (language : Language) (inner : List Lexeme) (i j : ℕ)
        → IsSyntaxFault (ReadAsBlocks language) inner i
        → IsSyntaxFault (ReadAsBlocks language) inner j → i ≡ j }
    ensures expression { (inner : List Lexeme) (i j : ℕ)
        → IsSyntaxFault ReadAsExpression inner i
        → IsSyntaxFault ReadAsExpression inner j → i ≡ j }
{}

/// A law: the parts of a source are shallow or have a deepest place, never both, and the deepest
/// place has one offset.
pub fn deepest_place_is_one()
    ensures some { (list : List Part) → IsShallow list ⊎ ((place : Place) × IsDeepest list place) }
    ensures apart { (list : List Part) (place : Place) → IsShallow list → IsDeepest list place → ⊥ }
    ensures one { (list : List Part) (place other : Place) → IsDeepest list place
        → IsDeepest list other → place.offset ≡ other.offset }
{}

/// A law: a list of tokens has none outside the profile or a first one, never both, and the first
/// one is one.
pub fn first_outside_is_one()
    ensures some { (language : Language) (tokens : List Lexeme)
        → IsWithin language tokens ⊎ ((t : Lexeme) × IsFirstOutside language tokens t) }
    ensures apart { (language : Language) (tokens : List Lexeme) (t : Lexeme)
        → IsWithin language tokens → IsFirstOutside language tokens t → ⊥ }
    ensures one { (language : Language) (tokens : List Lexeme) (t other : Lexeme)
        → IsFirstOutside language tokens t → IsFirstOutside language tokens other → t ≡ other }
{}
