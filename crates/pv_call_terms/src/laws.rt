//! Laws of terms and deeds of copies, each the contract of a function that does nothing. Their statements are those of `specs/Correct`.
ghost use Rattle.pv_call_terms.specs.Correct.{EntryLies, CalleesLie, TermsAreCopied, TermsStayOrdered, DeedsAreCopied, DeedsStayTabled, ResetsAreMade};

/// The entry's variables lie at their own numbers.
pub fn entry_lies()
    ensures { EntryLies }
{}

/// The variables of a called block lie where they lie while it is at work, if its caller's do.
pub fn callees_lie()
    ensures { CalleesLie }
{}

/// Copies of a block's terms are its terms, renamed, behind those that were there.
pub fn terms_are_copied()
    ensures { TermsAreCopied }
{}

/// And the table stays one whose operands stand before their users.
pub fn terms_stay_ordered()
    ensures { TermsStayOrdered }
{}

/// Copies of a block's deeds have its guards and sets, renamed.
pub fn deeds_are_copied()
    ensures { DeedsAreCopied }
{}

/// And their numbers name terms.
pub fn deeds_stay_tabled()
    ensures { DeedsStayTabled }
{}

/// What an edge into a called block sets is what its call begins with.
pub fn resets_are_made()
    ensures { ResetsAreMade }
{}
