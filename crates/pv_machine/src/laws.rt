//! Laws of machines, each the contract of a function that does nothing.
ghost use Rattle.std.specs.Prelude.{◌≤◌, ℕ, List};
ghost use Rattle.std.specs.List.{AllByRecursion};
ghost use Rattle.pv_machine.specs.Machines.{Machine, Values, IsInput, AreParams, IsLawful};
ghost use Rattle.pv_machine.specs.Queries.{MeetsBase, MeetsStep, MeetsReachableStep, NoneFails};

/// k-induction (Sheeran, Singh and Stålmarck) over the states that a run reaches: where no run fails
/// at one of its first k scans, and no state that a run reaches by scans that are done has k good
/// scans before one that fails, no run fails at any scan that only good ones precede.
pub fn k_induction_over_reachable_states()
    ensures { (m : Machine) (k : ℕ)
        → ((j : ℕ) → 1 ≤ j → j ≤ k → MeetsBase m j → ⊥) → (MeetsReachableStep m k → ⊥)
        → (n : ℕ) → MeetsBase m n → ⊥ }
{}

/// k-induction over all states, its plainer instance.
pub fn k_induction()
    ensures { (m : Machine) (k : ℕ) → IsLawful m
        → ((j : ℕ) → 1 ≤ j → j ≤ k → MeetsBase m j → ⊥) → (MeetsStep m k → ⊥)
        → (n : ℕ) → MeetsBase m n → ⊥ }
{}

/// A state that a run reaches is a state, so a machine that meets step over the states that runs reach
/// meets it over all.
pub fn reachable_steps_are_steps()
    ensures { (m : Machine) (k : ℕ) → IsLawful m → MeetsReachableStep m k → MeetsStep m k }
{}

/// Where no run fails at a scan that only good ones precede, no run has a scan that fails.
pub fn no_run_fails()
    ensures { (m : Machine) → ((n : ℕ) → MeetsBase m n → ⊥)
        → (params : Values) (inputs : List Values) → AreParams m params → AllByRecursion (IsInput m) inputs
        → NoneFails m (m.start params) inputs }
{}

/// A run that meets base has a scan that fails: what `no_run_fails` asks is no more than what it gives.
pub fn bases_are_failing_runs()
    ensures { (m : Machine) (n : ℕ) (base : MeetsBase m n) → NoneFails m (m.start base.params) base.inputs → ⊥ }
{}
