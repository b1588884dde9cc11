//! Which bytes of the areas of inputs, outputs and flags a project names.
//!
//! `pv_mean` defines them as a rising list; here all operands are gone through once for an area, each byte that one names is marked in
//! a table of the whole area, and the numbers are read off the table.
#![tactic(auto)]

mod areas;
mod bytes;
mod marks;
mod named;
mod operands;
mod statements;

pub use areas::AreaBytes;
pub use bytes::Bytes;
pub use named::named_bytes;
pub use statements::statements_of;
