//! Laws of lines and logs.
ghost use Rattle.std.specs.Prelude.{◌≡◌, ◌↔◌, ℕ, ◌+◌, ◌^◌, ◌<◌, ◌≤◌, Bool, List, length, None, IsTrue};
ghost use Rattle.pv_cnf.specs.Clause.{Holds, AreClauses, clause_value};
ghost use Rattle.pv_log.specs.declared.fault.LineFault.{LineFault};
ghost use Rattle.pv_log.specs.declared.line.Line.{Line};
ghost use Rattle.pv_log.specs.LineText.{Spells};
ghost use Rattle.pv_log.specs.Follows.{Follows, EachFollows, FailsFirst, fault_of, IsAccepted};
ghost use Rattle.pv_log.specs.Newness.{FollowsNew, new_fault_of, NoneEmpty};

/// A law: the clause of a line that follows is true wherever the clauses before it are.
pub fn line_is_true()
    ensures { (variables : ℕ) (clauses : List (List ℕ)) (line : Line) (values : ℕ → Bool)
        → Follows variables clauses line → Holds values clauses → IsTrue (clause_value values line.lits) }
{}

/// A law: no values make the clauses hold for which some log is accepted.
pub fn accepted_log_refutes()
    ensures { (variables : ℕ) (clauses : List (List ℕ)) (lines : List Line) (values : ℕ → Bool)
        → IsAccepted (Follows variables) clauses lines → Holds values clauses → ⊥ }
{}

/// A law: a line follows exactly where nothing is wrong with it, also where it has to be new.
pub fn line_without_fault_follows()
    ensures follows { (variables : ℕ) (clauses : List (List ℕ)) (line : Line)
        → (fault_of variables clauses line ≡ None) ↔ Follows variables clauses line }
    ensures fresh { (variables : ℕ) (clauses : List (List ℕ)) (line : Line)
        → (new_fault_of variables clauses line ≡ None) ↔ FollowsNew variables clauses line }
{}

/// A law: a text is that of at most one line.
pub fn text_determines_line()
    ensures { (bytes : List ℕ) (line other : Line) → Spells bytes line → Spells bytes other → line ≡ other }
{}

/// A law: at most one thing is wrong first with a log, and nothing where each line follows; the same where lines
/// have to be new.
pub fn first_fault_is_one()
    ensures one { (variables : ℕ) (clauses : List (List ℕ)) (lines : List Line)
        (m n : ℕ) (kind other : LineFault)
        → FailsFirst (fault_of variables) clauses lines m kind
        → FailsFirst (fault_of variables) clauses lines n other → (m ≡ n) × (kind ≡ other) }
    ensures none { (variables : ℕ) (clauses : List (List ℕ)) (lines : List Line)
        (n : ℕ) (kind : LineFault) → EachFollows (Follows variables) clauses lines
        → FailsFirst (fault_of variables) clauses lines n kind → ⊥ }
    ensures one_new { (variables : ℕ) (clauses : List (List ℕ)) (lines : List Line)
        (m n : ℕ) (kind other : LineFault)
        → FailsFirst (new_fault_of variables) clauses lines m kind
        → FailsFirst (new_fault_of variables) clauses lines n other → (m ≡ n) × (kind ≡ other) }
    ensures none_new { (variables : ℕ) (clauses : List (List ℕ)) (lines : List Line)
        (n : ℕ) (kind : LineFault) → EachFollows (FollowsNew variables) clauses lines
        → FailsFirst (new_fault_of variables) clauses lines n kind → ⊥ }
{}

/// A law: lines that follow, are new and aren't empty are fewer than three to the number of variables. A line
/// says of each variable one of three things: it is absent, or there with either sign.
pub fn new_lines_are_few()
    ensures { (variables : ℕ) (clauses : List (List ℕ)) (lines : List Line)
        → EachFollows (FollowsNew variables) clauses lines → NoneEmpty lines
        → length lines < 3 ^ variables }
{}

/// A law: a line that follows has no more literals than there are variables, and one hint more at most, since each
/// hint but the last makes a variable's literal true that had no value.
pub fn line_is_short()
    ensures lits { (variables : ℕ) (clauses : List (List ℕ)) (line : Line)
        → Follows variables clauses line → length line.lits ≤ variables }
    ensures hints { (variables : ℕ) (clauses : List (List ℕ)) (line : Line)
        → AreClauses variables clauses → Follows variables clauses line → length line.hints ≤ variables + 1 }
{}
