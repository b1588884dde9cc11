//! What is learned of a conflict: the clause at the first unique implication point with its hints, as far as it
//! passes a check, and else the trail itself.
#![tactic(auto)]

mod analysis;
mod draft;
mod known;
mod learn;
mod look;
mod places;

pub use analysis::Analysis;
pub use draft::Draft;
pub use known::next_id;
pub use learn::{make_last, make_lemma};
pub use look::{Look, look_at};
