//! Automata, their runs and their machines.
//!
//! The definitions stand in `specs/`; the functions of `laws` are laws of them.
#![tactic(auto)]

mod acyclic_machine;
mod as_machines;
mod attached;
mod automaton;
mod building;
mod count;
mod fault;
mod inlined_machine;
pub mod laws;
mod locations;
mod loops;
mod op;
mod parts;
mod term;
mod variables;
mod windows;

pub use acyclic_machine::Acyclic;
pub use as_machines::{acyclic, inlined};
pub use attached::{Attached, Guarding, Looking};
pub use automaton::Automaton;
pub use building::build;
pub use fault::FlowFault;
pub use inlined_machine::Inlined;
pub use op::{BinaryOp, UnaryOp};
pub use parts::{CallEdge, Deed, Edge, Loop, OverEnd, Parts, Set, TrapEnd, Variable};
pub use term::Node;
