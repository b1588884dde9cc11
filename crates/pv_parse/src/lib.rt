//! What the readers of SCL and of STL share.
#![tactic(auto)]

mod action;
mod code_item;
mod decl_item;
mod decl_shades;
mod depth;
mod entries;
mod expr_shades;
mod expressions;
mod fault;
mod held;
mod instr_shades;
mod item;
mod kind;
mod laws;
mod levels;
mod look_up;
mod numbers;
mod outside;
mod role;
mod shade;
mod spot;
mod stack;
mod stmt_shades;
mod texts;
mod token_kinds;

pub use action::{
    Action, BlockAction, CallAction, DeclAction, ExprAction, InstrAction, StmtAction, acting,
    action_at,
};
pub use code_item::{CodeItem, Value};
pub use decl_item::{Bounds, DeclItem, Fields, Heading};
pub use depth::find_too_deep;
pub use expressions::{act_on_expr, joined_name, pop_boxed, pop_word, push_root, push_step};
pub use fault::{ParseFault, ReadFault};
pub use held::{added, with};
pub use item::{Item, Sliced};
pub use laws::{fronts_have_front_kinds, kinds_have_witnesses, tokens_have_kinds};
pub use numbers::{area_of, negated_value, number_type};
pub use outside::first_outside;
pub use stack::{Stop, mistyped, pop_expr, pop_item, pop_path, pop_token, push, word_in};
pub use texts::{is_text, truth_of};
pub use token_kinds::{bytes_of, kinds};
