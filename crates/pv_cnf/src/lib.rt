//! Literals, clauses and formulas in conjunctive normal form, and their DIMACS text.
//!
//! A literal is a `u32`: `2v` for variable `v`, and `2v + 1` for its negation, with `v` from 1.
#![tactic(auto)]

mod check;
mod clauses;
mod dimacs;
mod formula;
mod literal;
mod value;

pub use clauses::{ClauseView, Clauses, PushFault, Values};
pub use dimacs::{text_determines_clauses, to_dimacs};
pub use formula::Formula;
pub use literal::flip;
pub use value::holds;
