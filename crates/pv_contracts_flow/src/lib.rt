//! Contract tests of automata and of their layers, and rows of parts that are built or refused.
#![tactic(auto)]

mod calls;
mod copies;
mod layers;
mod parts;
#[cfg(test)]
mod rows;

pub use calls::{attach, attached_to, bound_of, build, copy_loops, unroll, unrolled_size};
pub use copies::{copy_bare, copy_calls, inline, inlined_size, one_call};
pub use layers::{act, branch, empty, enter, finish, has_room, has_spot, open_loop};
pub use parts::{
    bare, deed_of, edge_past, entered_within, far_edge, fault_of_crossing, loops_cross, one_edge,
    set_past,
};
