//! A table-driven LL(1) recognizer with exact faults.
#![tactic(auto)]

mod laws;
mod machine;
mod sample;
mod table;
mod turn;
mod ways;

pub use laws::{
    makings_follow_along_walks, texts_have_one_trace, traces_have_one_walk, traces_tell_one_text,
    turns_do_what_texts_do, walks_do_what_texts_do, walks_pass_what_they_derive,
};
pub use machine::recognize;
pub use sample::recognize_sample;
pub use table::{Alternative, Language, Rule, Symbol};
pub use turn::Turn;
