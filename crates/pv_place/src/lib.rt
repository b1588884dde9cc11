//! What sources, cells and machines speak of alike: places in sources, kinds of traps, the roles of cells and the ranges of their values.
#![tactic(auto)]

mod place;
mod role;
mod trap;

pub use place::Place;
pub use role::Role;
pub use trap::TrapKind;
