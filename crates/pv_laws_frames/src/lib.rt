//! What the formulas of queries say of a machine whose steps a circuit does.
//!
//! The definitions stand in `specs/`; each law is the contract of a function that does nothing.
#![tactic(auto)]

pub mod laws;
