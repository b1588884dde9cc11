//! The arithmetic of the elementary types of S7-300/400 blocks.
//!
//! A value is a whole number. Each operation is that on whole numbers, and its result is brought back into the range of the
//! type by [`wrap`]; the operations on bits work on the pattern of a value. No call takes memory, and none refuses.
#![tactic(auto)]

mod arithmetic;
mod bits;
pub mod laws;
mod types;
mod wrapping;

pub use arithmetic::{add, compare, div, mul, rem, sub};
pub use bits::{and, not, or, shl, shr, xor};
pub use types::{Ty, greatest, in_range, is_signed, least, width};
pub use wrapping::wrap;
