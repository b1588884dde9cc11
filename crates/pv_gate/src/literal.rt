//! Literals: a node, or the complement of one.

ghost use Rattle.std.specs.Prelude.{◌≡◌, ◌<◌, ◌^◌, pos, neg_ℤ, unsigned_abs};
ghost use Rattle.std.specs.Int.{is_negative};
ghost use Rattle.pv_gate.specs.Build.{lower, higher};

use crate::netlist::{FALSE, Node, TRUE};

/// A literal's number, which has a complement: node n is n, and its complement -n.
#[derive(Clone, Copy, PartialEq, Eq)]
pub(crate) struct Literal {
    code: i32,
    ghost fits: { unsigned_abs code < 2 ^ 31 },
}

impl Literal {
    pub(crate) const TRUE: Literal = Literal { code: TRUE };

    pub(crate) const FALSE: Literal = Literal { code: FALSE };

    pub(crate) fn new(code: i32) -> Literal
        requires { unsigned_abs code < 2 ^ 31 }
        ensures { result.code ≡ code }
    {
        Literal { code }
    }

    pub(crate) fn code(self) -> i32
        ensures { result ≡ self.code }
    {
        self.code
    }

    pub(crate) fn complement(self) -> Literal
        ensures { result.code ≡ neg_ℤ self.code }
    {
        Literal { code: -self.code }
    }

    pub(crate) fn is_complement(self) -> bool
        ensures { result ≡ is_negative self.code }
    {
        self.code < 0
    }

    /// The node itself.
    pub(crate) fn node(self) -> Literal
        ensures { result.code ≡ pos (unsigned_abs self.code) }
    {
        Literal {
            code: self.code.abs(),
        }
    }

    /// The two in the order of their nodes' numbers.
    pub(crate) fn in_order(self, other: Literal) -> (Literal, Literal)
        ensures first { result.0.code ≡ lower self.code other.code }
        ensures second { result.1.code ≡ higher self.code other.code }
    {
        if self.code.unsigned_abs() <= other.code.unsigned_abs() {
            (self, other)
        } else {
            (other, self)
        }
    }
}

/// The And node of two literals.
pub(crate) fn and_node(a: Literal, b: Literal) -> Node
    ensures { result ≡ Node.And (lower a.code b.code) (higher a.code b.code) }
{
    let (first, second) = a.in_order(b);
    Node::And(first.code, second.code)
}

/// The Xor node of two literals.
pub(crate) fn xor_node(a: Literal, b: Literal) -> Node
    ensures { result ≡ Node.Xor (lower a.code b.code) (higher a.code b.code) }
{
    let (first, second) = a.in_order(b);
    Node::Xor(first.code, second.code)
}

/// The Mux node of three literals.
pub(crate) fn mux_node(s: Literal, a: Literal, b: Literal) -> Node
    ensures { result ≡ Node.Mux s.code a.code b.code }
{
    Node::Mux(s.code, a.code, b.code)
}
