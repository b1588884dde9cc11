//! What a reduction keeps. Each law is the contract of a function that does nothing.
ghost use Rattle.std.specs.Prelude.{◌≡◌, ◌≤◌, ℕ, true, List, length};
ghost use Rattle.std.specs.List.{AllByRecursion};
ghost use Rattle.pv_machine.specs.Machines.{Machine, Values, IsState, IsInput, AreParams, IsLawful};
ghost use Rattle.pv_machine.specs.Queries.{FailsAtLast, MeetsBase, MeetsStep, MeetsReachableStep};
ghost use Rattle.pv_machine.specs.Reductions.{Maps, Link, IsReduction, IsExact, AreJoined, joined, all_joined, all_exact};
ghost use Rattle.pv_machine.specs.Replays.{ReplaysAs, BaseReplays};
ghost use Rattle.pv_machine.specs.Same.{IsSame};

/// Queries that the first machine meets the second one meets: so what is refuted of the second is refuted of the first, of step over
/// the states that runs reach.
pub fn reductions_keep_queries()
    ensures base { (a b : Machine) (r : Maps) (k : ℕ) → IsLawful a → IsReduction a b r
        → MeetsBase a k → MeetsBase b k }
    ensures step { (a b : Machine) (r : Maps) (k : ℕ) → IsLawful a → IsReduction a b r
        → MeetsReachableStep a k → MeetsReachableStep b k }
    ensures any_step { (a b : Machine) (r : Maps) (k : ℕ) → IsLawful a → IsReduction a b r
        → MeetsReachableStep a k → MeetsStep b k }
{}

/// By an exact reduction runs of the second machine are runs of the first.
pub fn exact_reductions_replay()
    ensures base { (a b : Machine) (r : Maps) (k : ℕ) → IsLawful a → IsLawful b → IsReduction a b r → IsExact a b r
        → (met : MeetsBase b k) → BaseReplays a b r met.params met.inputs }
    ensures meets { (a b : Machine) (r : Maps) (k : ℕ) → IsLawful a → IsLawful b → IsReduction a b r → IsExact a b r
        → MeetsBase b k → MeetsBase a k }
    ensures step { (a b : Machine) (r : Maps) (t : Values) (inputs : List Values) → IsLawful a → IsReduction a b r
        → IsExact a b r → IsState b t → AllByRecursion (IsInput b) inputs → ReplaysAs a b r (r.embed t) inputs }
    ensures meets_step { (a b : Machine) (r : Maps) (k : ℕ) → IsLawful a → IsReduction a b r → IsExact a b r
        → MeetsStep b k → MeetsStep a k }
{}

/// One reduction after another is a reduction, and exact where both are; so are any number that go on where the one before ends.
pub fn joined_reductions_are_reductions()
    ensures two { (a b c d : Machine) (f g : Maps) → IsReduction a b f → IsSame b c → IsReduction c d g → IsReduction a d (joined f g) }
    ensures exact { (a b c d : Machine) (f g : Maps) → IsReduction a b f → IsExact a b f → IsSame b c → IsReduction c d g → IsExact c d g
        → IsExact a d (joined f g) }
    ensures all { (a z : Machine) (links : List Link) → AreJoined a links z → IsReduction a z (all_joined links) }
    ensures all_exact { (a z : Machine) (links : List Link) → AreJoined a links z → all_exact links ≡ true
        → IsExact a z (all_joined links) }
{}

/// Where base(j) is met for no j from 1 to n, no run fails at one of its first n scans.
pub fn refuted_bases_leave_no_early_failure()
    ensures { (m : Machine) (n : ℕ) → ((j : ℕ) → 1 ≤ j → j ≤ n → MeetsBase m j → ⊥)
        → (params : Values) (inputs : List Values) → AreParams m params → AllByRecursion (IsInput m) inputs
        → length inputs ≤ n → FailsAtLast m (m.start params) inputs → ⊥ }
{}
