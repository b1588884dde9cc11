//! The reader of SCL sources and of expressions.
#![tactic(auto)]

mod actions;
mod reading;
mod source;
mod table;

pub use pv_parse::ParseFault;
pub use reading::expression;
pub use source::parse;
pub use table::{scl, scl_expression, scl_name};
