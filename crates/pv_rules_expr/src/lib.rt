//! The rules of the language on expressions: the least place at which an expression breaks one.
//!
//! One walk goes over an expression with all in it (`walk`). At each part it keeps the nearest places so far of whatever is looked
//! for (`near`), by what the parts in it are.
#![tactic(auto)]

mod added;
mod indexes;
mod misfit;
mod near;
mod nearest;
mod operand;
mod search;
mod walk;

pub use indexes::{IndexFault, index_behind, misused_behind, thing_behind};
pub use misfit::{is_whole, where_is};
pub use near::{Near, nothing_near};
pub use nearest::{is_nearer, nearer};
pub use operand::{name_of_missing, operand_of, wrong_address};
pub use search::{Look, misapplied_in, nearer_of};
pub use walk::{look_for_all, look_in_operand_for_all};
