//! The case: one JSON object that names the sources, the entry block, the requirement and the limits.
#![tactic(auto)]

mod address;
mod case;
mod checks;
mod fault;
mod fields;
mod inputs;
mod laws;
mod making;
mod members;
mod pattern;
mod reader;
mod reductions;
mod sources;
mod stop;
mod strays;
mod symbol_list;
mod symbols;

pub use case::{
    Bound, Case, Limits, MAX_DEPTH, MAX_LEMMAS, MAX_LOOP_BOUND, MAX_NAME, MAX_REGION_WORDS,
    MAX_SOURCES, MAX_TEXT, MIN_REGION_WORDS, PatternKind, PatternText, Reductions, Source, Symbol,
};
pub use checks::Breach;
pub use fault::{CaseFault, Kind};
pub use laws::{bytes_say_one_case, first_breach_is_one};
pub use reader::read;
