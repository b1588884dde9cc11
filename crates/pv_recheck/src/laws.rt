//! Laws of certificates, each the contract of a function that does nothing.
ghost use Rattle.std.specs.Prelude.{◌≡◌, ◌↔◌, ℕ, Bool, List};
ghost use Rattle.std.specs.List.{AllByRecursion};
ghost use Rattle.pv_machine.specs.Machines.{Values, IsInput};
ghost use Rattle.pv_machine.specs.Queries.{MeetsStep, NoneFails};
ghost use Rattle.pv_cnf.specs.Clause.{Holds};
ghost use Rattle.pv_bool.specs.Tree.{ProgramTree, IsProgram};
ghost use Rattle.pv_bool.specs.Machine.{machine_of};
ghost use Rattle.pv_recheck.specs.declared.fault.Kind.{Kind};
ghost use Rattle.pv_recheck.specs.Form.{IsUnbuilt};
ghost use Rattle.pv_recheck.specs.Validity.{step_formula, IsValid};
ghost use Rattle.pv_recheck.specs.Faults.{IsFaultAt};

/// The formula of step(0) asks what it is meant to: some values make it hold exactly where the
/// machine of the program has a state and an input by which a scan fails.
pub fn step_formula_holds_where_a_scan_fails()
    ensures { (program : ProgramTree) → IsProgram program
        → (MeetsStep (machine_of program) 0
        ↔ ((values : ℕ → Bool) × Holds values (step_formula program).clauses)) }
{}

/// What a valid certificate says is so: the machine of the program has no state and no input by which
/// a scan fails. So no scan of any run fails.
pub fn valid_certificates_say_what_is_so()
    ensures step { (program : ProgramTree) (bytes : List ℕ)
        → IsProgram program → IsValid program bytes → MeetsStep (machine_of program) 0 → ⊥ }
    ensures runs { (program : ProgramTree) (bytes : List ℕ)
        → IsProgram program → IsValid program bytes
        → (params : Values) (inputs : List Values)
        → AllByRecursion (IsInput (machine_of program)) inputs
        → NoneFails (machine_of program) ((machine_of program).start params) inputs }
{}

/// A certificate has one first fault, with one line and one kind; a valid one has none, and is of
/// the form that is read.
pub fn certificates_have_one_fault()
    ensures one { (program : ProgramTree) (bytes : List ℕ)
        (at other_at : ℕ) (kind other_kind : Kind)
        → IsFaultAt program bytes at kind → IsFaultAt program bytes other_at other_kind
        → (at ≡ other_at) × (kind ≡ other_kind) }
    ensures none { (program : ProgramTree) (bytes : List ℕ) (at : ℕ) (kind : Kind)
        → IsValid program bytes → IsFaultAt program bytes at kind → ⊥ }
    ensures form { (program : ProgramTree) (bytes : List ℕ)
        → IsValid program bytes → IsUnbuilt bytes → ⊥ }
{}
