//! Laws of leaves, each the contract of a function that does nothing.
ghost use Rattle.std.specs.Prelude.{◌≡◌, ◌<◌, ℕ, List, [], length, unwrap_or};
ghost use Rattle.std.specs.List.{AllByRecursion};
ghost use Rattle.pv_types.specs.Tree.{VarTree};
ghost use Rattle.pv_types.specs.View.{listed};
ghost use Rattle.pv_types.specs.Named.{NamedType, look_up, NestsWithin, IsThere, AreRanked};
ghost use Rattle.pv_types.specs.Leaves.{
  leaves_of,
  leaves_beneath,
  leaves_of_named,
  leaves_of_vars,
  instance,
};
ghost use Rattle.pv_types.specs.Sizes.{size_of};
ghost use Rattle.pv_types.specs.declared.declaration.Section.{Section};
ghost use Rattle.pv_types.specs.Paths.{AllPathsDiffer, NamesDifferIn, NamesDifferInTypes};
ghost use Rattle.pv_types.specs.Starts.{StartsLieIn, StartsLieInTypes, StartsWell};

/// The number of leaves is the product of an array's length and its element's number, and the sum
/// over variables.
pub fn leaves_are_counted()
    ensures { (types : List NamedType) (vars : List VarTree)
        → length (leaves_of types vars) ≡ size_of types vars }
{}

/// Where each start value that is written lies in its type, each leaf starts with a value of its
/// type.
pub fn leaves_start_in_their_types()
    ensures { (types : List NamedType) (vars : List VarTree) → StartsLieInTypes types
        → StartsLieIn (listed vars)
        → AllByRecursion StartsWell (leaves_of types vars) }
{}

/// Where each type that a named type names is there, and so on, and none contains itself, its
/// leaves are those of its variables, in which named types are laid out alike: counting how many
/// stand inside each other takes nothing away.
pub fn named_types_are_laid_out()
    ensures { (types : List NamedType) (key path : List ℕ) (section : Section)
        → let n = length types in NestsWithin types n key
        → leaves_of_named types n key path section
        ≡ leaves_of_vars (leaves_of_named types n) (instance section) path
        (listed (unwrap_or (look_up types key) [])) }
{}

/// Where each named type names only types that are there and have a lower rank, a type of a rank
/// below n has at most n types inside each other, all of them there.
pub fn ranked_types_nest()
    ensures { (types : List NamedType) (rank : List ℕ → ℕ) → AreRanked types rank
        → (n : ℕ) (key : List ℕ) → IsThere types key → rank key < n → NestsWithin types n key }
{}

/// Where each name that is declared is a word and none is declared twice at one level (a block's
/// variables, the fields of a structure, the variables of a named type), any two leaves have
/// different paths, also where letter case plays no part, and whatever path they lie beneath.
pub fn paths_of_leaves_differ()
    ensures { (path : List ℕ) (types : List NamedType) (vars : List VarTree)
        → NamesDifferInTypes types
        → NamesDifferIn (listed vars) → AllPathsDiffer (leaves_beneath path types vars) }
{}
