//! Logs of clauses that follow from a formula, a checker for them, and the text of their lines (LRAT).
#![tactic(auto)]

mod assignment;
mod checker;
mod fault;
mod filing;
mod follow;
mod laws;
mod left;
mod line;
mod newness;
mod numbers;
mod read;
mod stage;
mod view;
mod write;

pub use checker::Checker;
pub use fault::{LineFault, LratFault, Verdict};
pub use laws::{
    accepted_log_refutes, first_fault_is_one, line_is_short, line_is_true,
    line_without_fault_follows, new_lines_are_few, text_determines_line,
};
pub use line::Line;
pub use numbers::Numbers;
pub use read::read_line;
pub use view::{Log, LogView};
pub use write::write_line;
