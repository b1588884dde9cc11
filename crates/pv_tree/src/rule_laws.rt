//! What follows of the rules, each the contract of a function that does nothing.
ghost use Rattle.std.specs.Prelude.{◌≡◌, ◌↔◌};
ghost use Rattle.pv_place.specs.declared.place.Place.{Place};
ghost use Rattle.pv_tree.specs.Scopes.{ProjectTree};
ghost use Rattle.pv_tree.specs.Rules.{KeepsRules, Rule};
ghost use Rattle.pv_tree.specs.Least.{IsLeastFault};
ghost use Rattle.pv_tree.specs.RuleLaws.{TypesAreGrounded, TypesNest, CallsRun, CallsAreBounded, IndexesLie, PartsHaveTypes, EachHasType, PatternsHaveTypes};

/// Each type that is named is there, and none contains itself; so they nest within as many types as there are.
pub fn named_types_are_grounded()
    ensures grounded { (project : ProjectTree)
        → KeepsRules project → TypesAreGrounded project }
    ensures nest { (project : ProjectTree) → KeepsRules project → TypesNest project }
{}

/// Each call runs a block that is there.
pub fn calls_run_blocks()
    ensures { (project : ProjectTree) → KeepsRules project → CallsRun project }
{}

/// Calls form no cycle, and a chain of calls has at most eight blocks.
pub fn chains_of_calls_end()
    ensures { (project : ProjectTree) → KeepsRules project → CallsAreBounded project }
{}

/// A literal index lies within the bounds of its array.
pub fn literal_indexes_lie_in_bounds()
    ensures { (project : ProjectTree) → KeepsRules project → IndexesLie project }
{}

/// Where an expression has the type that is wanted of it, so has each expression in it.
pub fn parts_of_typed_expressions_have_types()
    ensures { PartsHaveTypes }
{}

/// In a project that keeps the rules each expression has a type by what is wanted of it.
pub fn expressions_have_types()
    ensures { (project : ProjectTree) → KeepsRules project → EachHasType project }
{}

/// A pattern's expression that breaks no rule, over a block of a project that keeps them, has a type.
pub fn patterns_have_types()
    ensures { (project : ProjectTree) → KeepsRules project → PatternsHaveTypes project }
{}

/// A project has at most one least fault, and it has none exactly where it keeps the rules.
pub fn least_fault_is_one()
    ensures one { (project : ProjectTree) (rule other : Rule) (at place : Place)
        → IsLeastFault project rule at → IsLeastFault project other place
        → (rule ≡ other) × (at ≡ place) }
    ensures none { (project : ProjectTree)
        → ((rule : Rule) (at : Place) → IsLeastFault project rule at → ⊥) ↔ KeepsRules project }
{}
