//! Machines that are the same as far as runs tell: what goes over from the one to the other. Each law is the contract of a function
//! that does nothing.
ghost use Rattle.std.specs.Prelude.{◌≡◌, ◌↔◌, ℕ, List};
ghost use Rattle.std.specs.List.{AllByRecursion};
ghost use Rattle.pv_machine.specs.Machines.{Machine, Values, IsState, IsInput, IsLawful};
ghost use Rattle.pv_machine.specs.Queries.{MeetsBase, MeetsStep, IsReachable, NoneFails};
ghost use Rattle.pv_machine.specs.Same.{IsSame, ActsAlike};

/// To be the same machine is an equivalence.
pub fn sameness_is_an_equivalence()
    ensures itself { (m : Machine) → IsSame m m }
    ensures back { (m n : Machine) → IsSame m n → IsSame n m }
    ensures on { (l m n : Machine) → IsSame l m → IsSame m n → IsSame l n }
{}

/// Machines whose ranges are equal are the same where their starts, steps and failing are equal on all lists that have these ranges
/// place by place.
pub fn machines_that_act_alike_are_the_same()
    ensures { (m n : Machine) → m.state ≡ n.state → m.input ≡ n.input → m.params ≡ n.params → ActsAlike m n
        → IsSame m n }
{}

/// The same machine is lawful, meets the same queries, reaches the same states, and has the same runs in which none fails.
pub fn same_machines_meet_the_same()
    ensures lawful { (m n : Machine) → IsLawful m → IsSame m n → IsLawful n }
    ensures base { (m n : Machine) (k : ℕ) → IsLawful m → IsSame m n → MeetsBase m k ↔ MeetsBase n k }
    ensures step { (m n : Machine) (k : ℕ) → IsLawful m → IsSame m n → MeetsStep m k ↔ MeetsStep n k }
    ensures reachable { (m n : Machine) (s : Values) → IsLawful m → IsSame m n → IsReachable m s ↔ IsReachable n s }
    ensures runs { (m n : Machine) (s : Values) (inputs : List Values) → IsLawful m → IsSame m n → IsState m s
        → AllByRecursion (IsInput m) inputs → NoneFails m s inputs ↔ NoneFails n s inputs }
{}
