//! Unit propagation by two watched literals a clause, over clauses and lemmas in a region of words.
#![tactic(auto)]

mod enter;
mod propagator;
mod trail;
mod turn;
mod visit;

pub use propagator::Propagator;
pub use trail::Trail;
