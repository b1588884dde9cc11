//! What trees have that tokens spell, and no rule says: the definitions are those of the crates below; each law is the contract of a
//! function that does nothing.
#![tactic(auto)]

pub mod laws;
