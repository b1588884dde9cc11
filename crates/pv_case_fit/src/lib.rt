//! A case against its project: the block that its entry names, and the inputs that it lists.
#![tactic(auto)]

mod entry;
mod fault;
mod inputs;

pub use entry::entry_of;
pub use fault::{EntryFault, InputFault};
pub use inputs::view_of;
