//! The reader of STL sources.
#![tactic(auto)]

mod actions;
mod source;
mod table;

pub use pv_parse::ParseFault;
pub use source::parse;
pub use table::stl;
