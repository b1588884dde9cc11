//! Contract tests of the recognizer, of the tokens and of the readers: each call once more, with the clauses of its library.
#![tactic(auto)]

pub mod recognizing;
pub mod sharing;
pub mod sources;
pub mod texts;
