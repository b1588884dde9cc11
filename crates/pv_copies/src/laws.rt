//! Laws of copies, each the contract of a function that does nothing. Their statements are those of `specs/Correct`. All are of parts
//! that have no fault and are well made.
ghost use Rattle.pv_copies.specs.Correct.{LoopsAreCopies, CopiesLeadToCopies, CopiesLeadForward, PlacesAreShifts, TextHasPlaces, TextHasCopies, TextIsLong, CopiesAreNumbers, UnrolledHasTheMachine, NumbersLeadForward, UnrolledIsWellMade, SameMachine, EdgesAreCounted};

/// Runs with counts and runs along copies are equal, with as many steps, whatever the loop bound is.
pub fn loops_are_copies()
    ensures { LoopsAreCopies }
{}

/// An edge leads from a copy to a copy, with a loop bound of 1 at least.
pub fn copies_lead_to_copies()
    ensures { CopiesLeadToCopies }
{}

/// An edge leads from a copy forward, whatever copies take, with a loop bound of 1 at least.
pub fn copies_lead_forward()
    ensures { CopiesLeadForward }
{}

/// A copy stands behind the first of its kind by what the turns before it take.
pub fn places_are_shifts()
    ensures { PlacesAreShifts }
{}

/// What stands in the text is a copy, and its number is its place, with a loop bound of 1 at least.
pub fn text_has_places()
    ensures { TextHasPlaces }
{}

/// Each copy that stands in the text stands at its place.
pub fn text_has_copies()
    ensures { TextHasCopies }
{}

/// The text is as long as its size.
pub fn text_is_long()
    ensures { TextIsLong }
{}

/// The automaton of the copies runs as the one that it is made of, with as many steps and a loop bound of 1 at least.
pub fn copies_are_numbers()
    ensures { CopiesAreNumbers }
{}

/// With as many steps its machine is the same, with a loop bound of 1 at least.
pub fn unrolled_has_the_machine()
    ensures { UnrolledHasTheMachine }
{}

/// It has neither loops nor call edges, and its edges lead forward, with a loop bound of 1 at least.
pub fn numbers_lead_forward()
    ensures { NumbersLeadForward }
{}

/// It has no fault and is well made, with a loop bound of 1 at least, if there are no call edges.
pub fn unrolled_is_well_made()
    ensures { UnrolledIsWellMade }
{}

/// Its machine is that of the automaton, if there are no call edges and the loop bound is 1 at least.
pub fn same_machine()
    ensures { SameMachine }
{}

/// It has as many edges as are counted, whatever the loop bound is.
pub fn edges_are_counted()
    ensures { EdgesAreCounted }
{}
