//! In which order variables are decided, and with which values: those that took part in late conflicts first, each
//! with the value that it had last.
#![tactic(auto)]

mod heap;
mod order;

pub use order::Order;
