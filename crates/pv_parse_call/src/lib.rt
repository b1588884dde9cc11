//! What the calls of SCL and of STL make of what lies on the stack while a tree is built, and parts that are taken off it for
//! statements, instructions and declarations alike.
#![tactic(auto)]

mod calls;
mod parts;

pub use calls::{act_on_call, path_name};
pub use parts::{
    mistyped_code, mistyped_decl, pop_args, pop_body, pop_call, pop_code, pop_decl, pop_literal,
    pop_words,
};
