//! Terms and deeds of copies of called blocks: a block's own, with each variable at the place where it lies while the block is at work.
//!
//! What they mean is defined in `pv_call_copies`. A copy's terms stand behind those that are there, so the numbers of its operands are those
//! of the block, counted from there on.
#![tactic(auto)]

mod deeds;
pub mod laws;
mod numbers;
mod places;
mod resets;
mod terms;

pub use deeds::add_deeds;
pub use places::Places;
pub use resets::add_resets;
pub use terms::add_terms;
