//! Laws of copies of called blocks, each the contract of a function that does nothing. Their statements are those of `specs/Correct`.
ghost use Rattle.pv_call_copies.specs.Correct.{TermsAreRenamed, SetsAreRenamed, ResetsClear, CallsAreNests, NestsAreCopies, CallsAreCopies, CopiesAreCalls, VariablesAreNeeded, InlinedIsWellMade, InlinedHasNoCalls, EdgesAreCounted, CopiesStand, PartsAreMade, LoopsAreEntered, EdgesLead, VariablesStay, InlinedHasTheMachine};

/// A renamed term has the value that the term has where each variable is read at its place.
pub fn terms_are_renamed()
    ensures { TermsAreRenamed }
{}

/// Renamed sets do what the block's sets do.
pub fn sets_are_renamed()
    ensures { SetsAreRenamed }
{}

/// What is set on the way into a called block is what its call begins with.
pub fn resets_clear()
    ensures { ResetsClear }
{}

/// The entry's run with calls is one of nests.
pub fn calls_are_nests()
    ensures { CallsAreNests }
{}

/// A run of nests is one of the automaton with copies.
pub fn nests_are_copies()
    ensures { NestsAreCopies }
{}

/// The entry's run with calls is one of the automaton with copies, with the same end and the same valuation.
pub fn calls_are_copies()
    ensures { CallsAreCopies }
{}

/// As a run of the automaton with copies ends, so does the entry's with calls.
pub fn copies_are_calls()
    ensures { CopiesAreCalls }
{}

/// A call adds as many variables as it needs.
pub fn variables_are_needed()
    ensures { VariablesAreNeeded }
{}

/// The automaton with copies has no fault and is well made.
pub fn inlined_is_well_made()
    ensures { InlinedIsWellMade }
{}

/// The automaton with copies has no call edges.
pub fn inlined_has_no_calls()
    ensures { InlinedHasNoCalls }
{}

/// The automaton with copies has as many edges as are counted.
pub fn edges_are_counted()
    ensures { EdgesAreCounted }
{}

/// The edges of a copy begin in the part of the text that it takes.
pub fn copies_stand()
    ensures { CopiesStand }
{}

/// What the parts of the automaton with copies mean is as it is where they are well made.
pub fn parts_are_made()
    ensures { PartsAreMade }
{}

/// Each loop of the automaton with copies is entered at its first location, and has turns as its block's loop has.
pub fn loops_are_entered()
    ensures { LoopsAreEntered }
{}

/// Each edge of the automaton with copies leads forward, or back to the first location of a loop.
pub fn edges_lead()
    ensures { EdgesLead }
{}

/// What calls add is no part of states, inputs and parameters, and begins with 0.
pub fn variables_stay()
    ensures { VariablesStay }
{}

/// The machine of the automaton with copies is that of the entry with calls.
pub fn inlined_has_the_machine()
    ensures { InlinedHasTheMachine }
{}
