//! The rules of the language, tested on a project.
//!
//! A rule of pv_tree's `specs/Rules` says at which places a project breaks it. What is answered is the first breach: the
//! least place, and of the rules that are broken there the least. `specs/Least` says this of any family of rules, and `lesser`
//! puts two answers together, so that each rule is looked for by a function of its own, on each part of a block by itself.
#![tactic(auto)]

mod declarations;
mod doubled;
mod fault;
mod gathered;
mod joining;
mod least;
mod on_declarations;
mod on_starts;
mod pattern_expression;
mod starts;
mod types;
mod values;

pub use fault::{Breach, Rule, RuleFault};
pub use joining::answered;
pub use least::{Found, make_found};
pub use on_declarations::{doubled_name, misplaced_date, wrong_array};
pub use on_starts::{misfit_start, outside_start};
pub use pattern_expression::{check_expression, pattern_breach};
pub use types::missing_type;
pub use values::{StartNear, ValueNear, nearest_in_values};
