//! What is said of bytes as cases, for all of them.
ghost use Rattle.std.specs.Prelude.{◌≡◌, ℕ, List};
ghost use Rattle.pv_case.specs.declared.fault.Kind.{Kind as A_kind};
ghost use Rattle.pv_case.specs.Cases.{CaseData, IsCaseText, BreaksFirst};

/// Bytes are the text of one case at most.
pub fn bytes_say_one_case()
    ensures { (bytes : List ℕ) (case other : CaseData) → IsCaseText bytes case → IsCaseText bytes other → case ≡ other }
{}

/// Bytes break one rule first at most, by one member [`one`], and those of a case break none [`apart`].
pub fn first_breach_is_one()
    ensures one { (bytes : List ℕ) (kind other : A_kind) (field name : List ℕ) → BreaksFirst bytes kind field
        → BreaksFirst bytes other name → (kind ≡ other) × (field ≡ name) }
    ensures apart { (bytes : List ℕ) (case : CaseData) (kind : A_kind) (field : List ℕ) → IsCaseText bytes case
        → BreaksFirst bytes kind field → ⊥ }
{}
