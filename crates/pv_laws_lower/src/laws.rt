//! Laws of expressions and operands as terms, each the contract of a function that does nothing. Their statements are those of
//! `specs/Correct`.
ghost use Rattle.pv_laws_lower.specs.Below.{TermLaws, BelowLaws};
ghost use Rattle.pv_laws_lower.specs.Correct.{ValuesHold, AssignedHold, PlacesHold, SpotsAreRead, SpotsAreWritten};
ghost use Rattle.pv_laws_lower.specs.Correct.{EntryLies, SpotsAreWrittenWhere, ValuesStay, ValuesStayInRuns};
ghost use Rattle.pv_laws_lower.specs.Correct.{BlocksAreFit, ChecksAreCounted, EachIsFit, PatternsAreFit};
ghost use Rattle.pv_laws_lower.specs.Patterns.{PatternsHold, SaidAreFit, ScansAreSeen, WidthsAreShort};

use pv_access::laws::{choices_hold, reads_hold, writes_hold};
use pv_laws_spelled::laws::spelled_addresses_are_short;
use pv_laws_types::laws::entered_blocks_are_at_work;
use pv_mean::laws::{scans_keep_the_ranges, tables_are_laid_out};
use pv_terms::laws::{binaries_hold, conversions_hold, functions_hold, indexes_hold, unaries_hold};
use pv_tree::{expressions_have_types, parts_of_typed_expressions_have_types};
use pv_variables::laws::{
    bound_are_counted, brief_cells_are_apart, elements_are_placed, fields_are_placed,
    names_are_placed,
};

/// What terms are worth.
fn terms_hold()
    ensures { TermLaws }
{
    conversions_hold();
    unaries_hold();
    binaries_hold();
    functions_hold();
    indexes_hold();
}

/// The laws below on which these stand.
fn laws_below_hold()
    ensures { BelowLaws }
{
    terms_hold();
    parts_of_typed_expressions_have_types();
    names_are_placed();
    fields_are_placed();
    elements_are_placed();
    brief_cells_are_apart();
    reads_hold();
    writes_hold();
    choices_hold();
    tables_are_laid_out();
}

/// The entered block's variables lie at their own places.
pub fn entry_lies()
    ensures { EntryLies }
{
    bound_are_counted();
}

/// An expression traps exactly where its first check that is true is that trap, and else has its term's value.
pub fn values_hold()
    ensures { ValuesHold }
{
    laws_below_hold();
}

/// So it is of its value as one of a type to which its own widens.
pub fn assigned_hold()
    ensures { AssignedHold }
{
    laws_below_hold();
}

/// An operand names a spot exactly where none of its checks is true, and it is the one to which its indexes move it.
pub fn places_hold()
    ensures { PlacesHold }
{
    laws_below_hold();
}

/// Reading that spot traps exactly where the last check is true, and else gives the value of the read's term.
pub fn spots_are_read()
    ensures { SpotsAreRead }
{
    laws_below_hold();
}

/// Setting what an assignment sets is writing the spot: frame and valuation agree behind it.
pub fn spots_are_written()
    ensures { SpotsAreWritten }
{
    laws_below_hold();
}

/// And so it is of a BOOL that is written where a condition is true.
pub fn spots_are_written_where()
    ensures { SpotsAreWrittenWhere }
{
    laws_below_hold();
}

/// No write takes a brief cell's value away.
pub fn values_stay()
    ensures { ValuesStay }
{}

/// Nor does a statement, an instruction or a call of the block.
pub fn values_stay_in_runs()
    ensures { ValuesStayInRuns }
{}

/// There are as many checks as the sizes count.
pub fn checks_are_counted()
    ensures { ChecksAreCounted }
{
    parts_of_typed_expressions_have_types();
    tables_are_laid_out();
}

/// The expressions of a block of a project that keeps the rules fit, and its operands' addresses have cells.
pub fn blocks_are_fit()
    ensures { BlocksAreFit }
{}

/// Each of them fits by itself, with a type by what is wanted of it, and so does each operand that has a type.
pub fn each_is_fit()
    ensures { EachIsFit }
{
    expressions_have_types();
}

/// And so does a pattern that breaks no rule.
pub fn patterns_are_fit()
    ensures { PatternsAreFit }
{}

/// An expression that reads no brief cell has, by visible cells alone, the value of its term; where it breaks no rule on patterns it makes no
/// check, so that it never traps.
pub fn patterns_hold()
    ensures { PatternsHold }
{
    laws_below_hold();
    entered_blocks_are_at_work();
    entry_lies();
    checks_are_counted();
}

/// A valuation whose first variables are the visible cells of a scan's beginning, or of its end, has them in their types.
pub fn scans_are_seen()
    ensures { ScansAreSeen }
{
    scans_keep_the_ranges();
}

/// What a pattern's text says fits, where each byte that the texts name has a cell.
pub fn said_are_fit()
    ensures { SaidAreFit }
{
    spelled_addresses_are_short();
}

/// An address is as wide as its type exactly where it is one of a bit, a byte, a word or a double word.
pub fn widths_are_short()
    ensures { WidthsAreShort }
{}
