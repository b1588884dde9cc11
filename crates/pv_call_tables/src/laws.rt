//! Laws of tables, each the contract of a function that does nothing.
ghost use Rattle.pv_call_tables.specs.Known.{StandingsAre, CallsAre};

/// Of each location what it ends.
pub fn standings_are()
    ensures { StandingsAre }
{}

/// And the number of the call edge that begins there.
pub fn calls_are()
    ensures { CallsAre }
{}
