//! A clause-learning solver with a log of what it learned. Clauses, lemmas and lists of watches lie in one region
//! of words (`pv_region`), over which unit propagation goes by two watched literals a clause (`pv_watch`).
//!
//! All memory is taken when a solver is made. The search finds lemmas as it likes; what an answer says is checked
//! or holds by what the trail keeps: propagation had ended at each decision, and each other literal has a clause as
//! its reason.
#![tactic(auto)]

mod answer;
mod laws;
mod pick;
mod restarts;
mod search;
mod solver;

pub use answer::Answer;
pub use laws::{limits_that_suffice, propagation_spends_nothing};
pub use pv_region::MakeFault;
pub use solver::Solver;
