//! What the statements of SCL make of what lies on the stack while a tree is built.
#![tactic(auto)]

mod code_stack;
mod making;
mod statements;

pub use code_stack::pop_stmts;
pub use statements::act_on_stmt;
