//! A call, and how it is made.

use pv_names::How;
use pv_tree::CallTree;

/// A call, and how it is made.
#[derive(Clone, Copy)]
pub(crate) struct Made<'p> {
    pub(crate) how: How,
    pub(crate) call: &'p CallTree,
}
