//! Names, types and declarations of blocks.
#![tactic(auto)]

mod declaration;
mod fault;
pub mod laws;
mod layout;
mod leaf;
mod name;
mod named;
mod search;
mod var;
mod walk;
mod written;

pub use declaration::{DeclType, Interface, Literal, Section, Vars};
pub use fault::FlattenFault;
pub use layout::{MAX_LEAVES, flatten, flatten_beneath};
pub use leaf::{Leaf, Leaves};
pub use name::Name;
pub use named::Types;
pub use var::{Var, are_at_most, is_named, named_among, one_by_one, var_of};
