//! What names, calls and expressions are in a block of a project.
//!
//! The definitions are those of pv_tree: `specs/Scopes`, `Things` and `Types` say what a name and an expression are, `specs/Callees`
//! what a call runs. Here they are computed, with each name found in a table (`firsts`).
#![tactic(auto)]

mod blocks;
mod callee;
mod doubled;
mod entry;
mod firsts;
mod function;
mod literal;
mod needed;
mod operator;
mod param;
mod scope;
mod sort;
mod tables;
mod thing;
mod typing;

pub use blocks::entries;
pub use callee::{Called, Callee, How, how_of, is_by_stl, is_word};
pub use entry::Entry;
pub use firsts::Firsts;
pub use function::result_of_function;
pub use literal::{Written, is_literal, is_outside, literal_of, type_of_literal};
pub use needed::is_fc;
pub use operator::{common_type, is_bool, result_of_binary, wanted_beside};
pub use param::{Param, named_param, only_var, param_for, section_of_param, type_of_param};
pub use scope::{Scope, is_stl, own_value, quoted_value};
pub use sort::{
    Number, Sort, Want, holds, is_whole_number, one_of, own_type, sort_of_written, taken, widens,
};
pub use tables::Tables;
pub use thing::{Held, Thing, dated, is_address, is_const, is_date, level_of, type_of_bits};
pub use typing::{
    binary_sort, first_place, is_index, is_index_type, is_void, last_behind, lies_in, root_place,
    unary_sort, value_of_unary,
};
