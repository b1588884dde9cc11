//! Contract tests of machines and reductions, and samples of both: a toggle with inputs that it ignores, and the reduction that leaves
//! one of them out.
#![tactic(auto)]

mod calls;
#[cfg(test)]
mod rows;
mod toggle;
mod without;

pub use calls::{embedded, is_exact, pulled, size_of_input, size_of_state};
pub use toggle::Toggle;
pub use without::{Without, without_input};
