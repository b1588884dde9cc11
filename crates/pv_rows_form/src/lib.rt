//! The form of rows: parts with their settings and rows, texts with signs for other bytes, and what is told of a row.
#![tactic(auto)]

mod parts;
mod settings;
mod telling;
mod text;

pub use parts::{Calls, Row, show_all};
pub use settings::{is_setting, last, numbers};
pub use telling::Told;
pub use text::{expanded, field};
