//! A project's entered block and those that calls lead to from there, as a program that pv_run runs.
//!
//! Each block's text is gone through once. The lists inside a statement are put behind the program before the statement itself, so a
//! list is gathered apart and put behind it whole. What is said of each call is that what stood in the program stands there still
//! (`Extends`), and what the number that it gives means there (`IsValue`, `IsBody`, `IsCall`, ..), for every source of the context.
#![tactic(auto)]

mod action;
mod along;
mod argument;
mod block;
mod call;
mod choice;
mod fault;
mod given;
mod grow;
mod handing;
mod instance;
mod instr;
mod label;
mod placed;
mod plain;
mod project;
mod reach;
mod replay;
mod slot;
mod stmt;
mod value;
mod word;

pub use fault::ProgramFault;
pub use project::program_of;
pub use replay::{make, replay_of};
