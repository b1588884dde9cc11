//! Circuits of words over shared gates: sums, products, quotients, comparisons, choices and shifts.
//!
//! A word is a list of literals of the gates, the least bit first. Each call makes one circuit,
//! whose gates and their order are fixed, since the text of a formula depends on them.
#![tactic(auto)]

mod choice;
mod compare;
pub mod laws;
mod overflow;
mod product;
mod quotient;
mod sum;
mod word;

pub use choice::{select, shift};
pub use compare::{equal, less};
pub use overflow::{difference_overflow, product_overflow, sum_overflow};
pub use product::multiply;
pub use quotient::divide;
pub use sum::{adder, subtract};
