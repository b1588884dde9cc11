//! Laws of automata and their runs, each the contract of a function that does nothing. Their statements are those of `specs/Correct`.
ghost use Rattle.pv_flow.specs.Correct.{TermsAreTyped, RunsKeepTypes, MoreStepsChangeNothing, RunsEndOnce, RunsEnd, AcyclicRunsEnd, UntouchedStay, CallsEndOnce, MoreLevelsChangeNothing, CallsEnd, CallsKeepTypes, CallsLeaveOthers, WorksArePlaced, OwnVariablesStay, MachinesAreLawful, ClosedWalksTakeTurns};
ghost use Rattle.pv_flow.specs.CallMachines.{OneMachineWithCalls, InlinedMachineWithCalls};
ghost use Rattle.pv_flow.specs.Kept.{TypesKeep};

/// A typed term over variables that have values of their types has a value of its type.
pub fn terms_are_typed()
    ensures { TermsAreTyped }
{}

/// A run whose edges are typed leaves variables with values of their types.
pub fn runs_keep_types()
    ensures { RunsKeepTypes }
{}

/// With more steps an outcome stays.
pub fn more_steps_change_nothing()
    ensures { MoreStepsChangeNothing }
{}

/// A run has one outcome, whatever steps it may take.
pub fn runs_end_once()
    ensures { RunsEndOnce }
{}

/// A run of a well-made automaton ends within as many steps as there are copies of its locations.
pub fn runs_end()
    ensures { RunsEnd }
{}

/// One of an acyclic automaton ends within as many steps as there are locations.
pub fn acyclic_runs_end()
    ensures { AcyclicRunsEnd }
{}

/// A run with calls has one outcome at most.
pub fn calls_end_once()
    ensures { CallsEndOnce }
{}

/// Where no block calls itself, levels of calls beyond the number of blocks add no variables.
pub fn more_levels_change_nothing()
    ensures { MoreLevelsChangeNothing }
{}

/// A run of a block, of blocks that fit, has an outcome.
pub fn calls_end()
    ensures { CallsEnd }
{}

/// And where it is done it leaves variables with values of their types.
pub fn calls_keep_types()
    ensures { CallsKeepTypes }
{}

/// A run with calls that is done leaves places alone that its block's callers use and where none of its variables lies.
pub fn calls_leave_others()
    ensures { CallsLeaveOthers }
{}

/// Variables lie below the first free number, and no other lies where one of a block's own does.
pub fn works_are_placed()
    ensures { WorksArePlaced }
{}

/// A call that is done leaves its caller's own variables alone, but for those that it has as bound ones.
pub fn own_variables_stay()
    ensures { OwnVariablesStay }
{}

/// A variable that no edge sets keeps its value.
pub fn untouched_variables_stay()
    ensures { UntouchedStay }
{}

/// Of blocks that fit, an automaton with call edges has at most one machine.
pub fn one_machine_with_calls()
    ensures { OneMachineWithCalls }
{}

/// Without call edges it is that of the automaton with its loop bound.
pub fn inlined_machine_with_calls()
    ensures { InlinedMachineWithCalls }
{}

/// The machine of an automaton with typed parts is lawful.
pub fn machines_are_lawful()
    ensures { MachinesAreLawful }
{}

/// Each automaton has no fault, is well made, and its tables' numbers name something; each machine keeps the conditions with which it
/// was made.
pub fn types_keep_their_conditions()
    ensures { TypesKeep }
{}

/// A closed walk along edges and call edges takes a turn edge of a loop whose range holds it.
pub fn closed_walks_take_turns()
    ensures { ClosedWalksTakeTurns }
{}
