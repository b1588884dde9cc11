//! The loops around a statement.

use pv_types::Name;

/// A loop around a statement: FOR with its variable, or another.
#[derive(Clone, Copy)]
pub(crate) enum Loop<'p> {
    For(&'p Name),
    Other,
}
