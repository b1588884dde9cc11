//! The code of a block, in which calls stand.

use pv_tree::{Instr, Stmt};

/// The code of a block: of SCL all its statements, each by itself, of STL its instructions, and the other none.
#[derive(Clone, Copy)]
pub(crate) struct Code<'l, 's, 'i> {
    pub(crate) statements: &'l [&'s Stmt],
    pub(crate) instructions: &'i [Instr],
}
