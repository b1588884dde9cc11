//! The rules of the language on statements and calls: the least place at which the code of a project breaks one.
//!
//! What breaks a rule is looked for at one statement, target, call or argument by itself (`sites`), and one walk goes over the
//! statements (`walk`). Of all that is looked for it keeps the nearest place so far (`near`).
#![tactic(auto)]

mod argument;
mod around;
mod assignment;
mod called;
mod case;
mod counter;
mod fit;
mod given;
mod instruction;
mod near;
mod on_statements;
mod sites;
mod target;
mod walk;

pub use argument::param_in;
pub use near::CodeNear;
pub use on_statements::nearest_in_code;
