//! A law of machines, the contract of a function that does nothing.
ghost use Rattle.std.specs.Prelude.{◌≤◌, ℕ, List, length};
ghost use Rattle.std.specs.List.{AllByRecursion};
ghost use Rattle.pv_machine.specs.Machines.{Machine, Values, IsInput, AreParams};
ghost use Rattle.pv_machine.specs.Queries.{MeetsBase, NoneFails};

/// Where the machine meets base for no number up to n, no run fails at one of its first n scans: what an end says of base queries, it says of
/// runs.
pub fn no_run_fails_early()
    ensures { (m : Machine) (n : ℕ) → ((j : ℕ) → 1 ≤ j → j ≤ n → MeetsBase m j → ⊥)
        → (params : Values) (inputs : List Values) → AreParams m params → AllByRecursion (IsInput m) inputs → length inputs ≤ n
        → NoneFails m (m.start params) inputs }
{}
