//! What the promises of a run exclude: a body that always answers one status, or that keeps a certificate whose report wasn't written,
//! doesn't keep them, whatever its form is.
ghost use Rattle.pv_contracts_commands.specs.Excluded.{CommandsAreNotRefused, FaultsKeepNothing, NoWordsAreRefused};

use pv_edge::Sink;

/// Without words the status is 5 where nothing failed and memory didn't end, so no other status answers each run.
pub fn no_words_are_refused<S: Sink>()
    ensures { NoWordsAreRefused S.call }
{}

/// The words of a command never have status 5.
pub fn commands_are_not_refused<S: Sink>()
    ensures { CommandsAreNotRefused S.call }
{}

/// Where a report or a certificate can't be written whole, a check leaves what was kept.
pub fn faults_keep_nothing<S: Sink>()
    ensures { FaultsKeepNothing S.call }
{}
