//! Requirements by their expressions.
use pv_tree::Expr;

/// A requirement whose expressions are read, and belong to someone else.
#[derive(Clone, Copy)]
pub enum Requirement<'a> {
    /// a is true at each end.
    Invariant(&'a Expr),
    /// a is false at each end.
    Forbidden(&'a Expr),
    /// Where a is true at an end, b is.
    Implication(&'a Expr, &'a Expr),
    /// Where a is true at a beginning, b is true at the same scan's end.
    Within(&'a Expr, &'a Expr),
    /// Where a was true at the end of the scan before and b is true at an end, c is true there.
    Between(&'a Expr, &'a Expr, &'a Expr),
    /// A scan is asked for at whose end a is true.
    Reach(&'a Expr),
}
