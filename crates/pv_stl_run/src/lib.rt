//! Instructions of STL with their names found: an array of them for each body, run on registers of fixed fields and in a frame.
//!
//! `step` makes one instruction, by its row of the table (`pv_mean`'s `Instructions`); `Going::go` makes one behind another, up to
//! a call or the block's end, and counts the turns of backward jumps. Calls are made by who calls it. Neither takes memory.
#![tactic(auto)]

mod change;
mod go;
mod instr;
mod logic;
mod math;
mod numbers;
mod operand;
mod registers;
mod steps;
mod stop;
mod turns;

pub use go::Going;
pub use instr::{
    Action, Change, Combining, Goal, Instr, Math, Relation, Shifting, Test, When, Written,
};
pub use numbers::Part;
pub use registers::{Codes, Joining, Junction, Logic, MOST_NESTINGS, Nesting, Registers};
pub use steps::{Next, step};
pub use stop::Stop;
pub use turns::Turn;
