//! The trees of SCL and STL sources: blocks, declarations, statements, instructions and
//! expressions.
//!
//! `specs/` has them as plain data, and the definitions of reading over it: which tokens spell a
//! tree, which trees are well formed, which words are outside the profile, and how deep a tree
//! nests.
#![tactic(auto)]

mod behind;
mod block;
mod expr;
mod instr;
mod kept;
mod laws;
mod making;
mod named_operand;
mod range;
mod rule_laws;
mod stmt;

pub use block::{Block, BlockKind, Blocks, Body};
pub use expr::{Area, BinaryOp, Expr, Operand, Root, StdFunction, Step, UnaryOp};
pub use instr::{Behind, Instr, Op};
pub use kept::Project;
pub use laws::{
    addresses_say_their_digits, deepest_place_is_one, first_outside_is_one, first_tokens_are_kept,
    levels_and_parts_agree, parts_keep_the_order_of_tokens, syntax_fault_is_one,
};
pub use making::project;
pub use named_operand::operand_of_instruction;
pub use range::ChoiceRange;
pub use rule_laws::{
    calls_run_blocks, chains_of_calls_end, expressions_have_types, least_fault_is_one,
    literal_indexes_lie_in_bounds, named_types_are_grounded, parts_of_typed_expressions_have_types,
    patterns_have_types,
};
pub use stmt::{Arg, CallTree, Choice, ForHead, Stmt};
