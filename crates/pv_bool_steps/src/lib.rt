//! Boolean programs as sources of step circuits.
#![tactic(auto)]

mod source;

pub use source::ProgramSteps;
