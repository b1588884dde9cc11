//! Names of a block found: its expressions and operands as the nodes that pv_eval evaluates.
//!
//! A block's text is gone through once; nodes of a part stand before that of the whole. What is said of each call that adds nodes is
//! what they mean behind those that are there (`Means`, `Names`), so that neither depth nor recursion is in any statement.
#![tactic(auto)]

mod begin;
mod context;
mod fault;
mod firsts;
mod forms;
mod function;
mod growing;
mod held;
mod laid;
mod ready;
mod resolve;
mod variables;
mod walk;

pub use begin::{Begin, Where, number_of, start_of};
pub use context::{Context, context_at, context_in, context_of, with_firsts};
pub use fault::ResolveFault;
pub use firsts::FirstCells;
pub use laid::LaidLevel;
