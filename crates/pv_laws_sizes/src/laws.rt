//! Which blocks the limit on edges asks about, and what calls copy.
ghost use Rattle.std.specs.Prelude.{◌≡◌, ◌↔◌, ℕ, ◌+◌, List, Contains};
ghost use Rattle.pv_tree.specs.Tree.{CallPlain, BlockTree};
ghost use Rattle.pv_tree.specs.Lexemes.{Lexeme};
ghost use Rattle.pv_tree.specs.Scopes.{ProjectTree};
ghost use Rattle.pv_tree.specs.Callees.{CallSite, runs, callee_of};
ghost use Rattle.pv_tree.specs.Calls.{SpellsCall, SpellsCallStl};
ghost use Rattle.pv_tree.specs.Parts.{calls_of};
ghost use Rattle.pv_tree.specs.Rules.{KeepsRules};
ghost use Rattle.pv_mean.specs.Sources.{Source};
ghost use Rattle.pv_mean.specs.Activations.{Activation, scope_in};
ghost use Rattle.pv_graph.specs.Graphs.{Leads};
ghost use Rattle.pv_rules_call.specs.Links.{IsFirstBlock, AreLinks};
ghost use Rattle.pv_rules_call.specs.ByNumber.{links_graph};
ghost use Rattle.pv_rules_call.specs.declared.links.Links.{Links};
ghost use Rattle.pv_sizes.specs.Limits.{IsAsked, KeepsLimit};
ghost use Rattle.pv_sizes.specs.Sizes.{size_of_call};
ghost use Rattle.pv_laws_sizes.specs.Walks.{HasNumber, IsWalkedTo, KeepsLimitOnWalks};
ghost use Rattle.pv_laws_sizes.specs.Copies.{AreOrdinary, size_of_copies};

/// The blocks about which the limit asks are those to which steps along the calls by number lead from the number of the entry, which is
/// the first of its name; and each number to which they lead is that of one.
pub fn asked_blocks_are_walked_to()
    ensures number { (project : ProjectTree) (entry : BlockTree) → IsFirstBlock project entry
        → (from : ℕ) × HasNumber project entry from }
    ensures same { (project : ProjectTree) (all : List Links) (entry block : BlockTree) (from : ℕ)
        → AreLinks project all → HasNumber project entry from
        → IsAsked project entry block ↔ IsWalkedTo project all from block }
    ensures each { (project : ProjectTree) (all : List Links) (entry : BlockTree) (from to : ℕ)
        → AreLinks project all → HasNumber project entry from → Leads (links_graph all) from to
        → (block : BlockTree) × HasNumber project block to × IsAsked project entry block }
{}

/// So no block of which the limit is asked has too many edges exactly where none has whose number such steps lead to.
pub fn limit_is_kept_on_walks()
    ensures { (project : ProjectTree) (all : List Links) (entry : BlockTree) (from : ℕ)
        → AreLinks project all → HasNumber project entry from
        → KeepsLimit project entry ↔ KeepsLimitOnWalks project all from }
{}

/// What calls are that tokens spell: each argument has a word, or one without stands alone.
pub fn spelled_calls_are_ordinary()
    ensures scl { (call : CallPlain) (tokens : List Lexeme)
        → SpellsCall call tokens → AreOrdinary call.args }
    ensures stl { (call : CallPlain) (tokens : List Lexeme)
        → SpellsCallStl call tokens → AreOrdinary call.args }
{}

/// In a project that keeps the rules a call's size, which goes argument by argument, is one more than what is copied in and out
/// parameter by parameter when it is made.
pub fn arguments_are_copied_for_parameters()
    ensures { (source : Source) (caller callee : Activation) (site : CallSite)
        → KeepsRules source.project → Contains source.project.blocks caller.block
        → Contains (calls_of caller.block) site → AreOrdinary site.call.args
        → callee_of (scope_in source caller) site ≡ runs callee.block
        → size_of_call (scope_in source caller) site
        ≡ size_of_copies source (scope_in source caller) site callee + 1 }
{}
