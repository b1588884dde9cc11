//! Laws of sizes, each the contract of a function that does nothing.
ghost use Rattle.std.specs.Prelude.{◌≡◌, ◌↔◌, ◌≤◌, ℕ, List};
ghost use Rattle.pv_tree.specs.Tree.{StmtTree, StmtTrees, InstrTree};
ghost use Rattle.pv_tree.specs.Lexemes.{Lexeme};
ghost use Rattle.pv_tree.specs.Statements.{SpellsStmt, SpellsStmts};
ghost use Rattle.pv_tree.specs.Scopes.{ProjectTree, Scope};
ghost use Rattle.pv_tree.specs.Tree.{BlockTree, no_stmts, stmts};
ghost use Rattle.pv_tree.specs.Callees.{CallSite};
ghost use Rattle.pv_tree.specs.Rules.Chains.{Calls};
ghost use Rattle.pv_sizes.specs.Counts.{capped};
ghost use Rattle.pv_sizes.specs.Limits.{IsAsked};
ghost use Rattle.pv_sizes.specs.Sizes.{size_of_call, size_of_instr, size_of_instrs, size_of_list, size_of_stmt, sum_of_sizes};
ghost use Rattle.pv_sizes.specs.declared.count.TheConstants.{MAX_EDGES};

/// What tokens spell has at least one edge, and so have a call and an instruction.
pub fn sizes_are_at_least_one()
    ensures stmt { (scope : Scope) (s : StmtTree) (tokens : List Lexeme)
        → SpellsStmt s tokens → 1 ≤ size_of_stmt scope s }
    ensures list { (scope : Scope) (list : StmtTrees) (tokens : List Lexeme)
        → SpellsStmts list tokens → 1 ≤ size_of_list scope list }
    ensures call { (scope : Scope) (s : CallSite) → 1 ≤ size_of_call scope s }
    ensures instr { (scope : Scope) (i : InstrTree) → 1 ≤ size_of_instr scope i }
    ensures instrs { (scope : Scope) (list : List InstrTree) → 1 ≤ size_of_instrs scope list }
{}

/// The size of a list that isn't empty is the sum of its statements' sizes.
pub fn lists_are_sums()
    ensures { (scope : Scope) (s : StmtTree) (more : StmtTrees)
        → size_of_list scope (stmts s more) ≡ sum_of_sizes scope (stmts s more) }
{}

/// A number of edges is within the limit exactly where the number that stands for it is.
pub fn counting_keeps_the_limit()
    ensures { (n : ℕ) → (capped n ≤ MAX_EDGES) ↔ (n ≤ MAX_EDGES) }
{}

/// The limit is asked of the entry, and of each block that a call runs in a block of which it is asked, wherever the call stands in
/// the text.
pub fn called_blocks_are_asked()
    ensures entry { (project : ProjectTree) (entry : BlockTree) → IsAsked project entry entry }
    ensures called { (project : ProjectTree) (entry caller callee : BlockTree)
        → IsAsked project entry caller → Calls project caller callee
        → IsAsked project entry callee }
{}
