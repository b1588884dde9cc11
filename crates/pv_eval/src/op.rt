//! Operations: nodes as they are run. A node that only copies a constant or a visible cell has none of its own; what works on its value
//! fetches it there.

use crate::node::{OneOp, Part, Spot, ThreeOp, TwoOp};
use pv_place::Place;
use pv_word::Ty;

/// What is worked on.
#[derive(Clone, Copy)]
pub(crate) enum Arg {
    Constant(i64),
    /// What the operation of this node left.
    Value(usize),
    /// A visible cell.
    Visible(usize),
    /// The visible cell that stands so far behind the first one of the instance.
    Own(u32),
}

/// What is read or assigned.
#[derive(Clone, Copy)]
pub(crate) enum Access {
    At(Spot),
    /// The visible cell that stands so far behind the first one of the instance.
    Own(u32),
    /// The cell that stands so far behind the one of this number.
    Element(Part, u32, Arg),
}

/// What an operation does.
#[derive(Clone, Copy)]
pub(crate) enum Deed {
    Read(Access, Place),
    One {
        op: OneOp,
        ty: Ty,
        arg: Arg,
    },
    Two {
        op: TwoOp,
        ty: Ty,
        place: Place,
        left: Arg,
        right: Arg,
    },
    Three {
        op: ThreeOp,
        first: Arg,
        second: Arg,
        third: Arg,
    },
    /// The number of an element's cell, as nodes have it.
    Element {
        from: Arg,
        index: Arg,
        low: i64,
        high: i64,
        stride: i64,
        place: Place,
    },
}

/// An operation, and the number of its node, under which it leaves its value.
#[derive(Clone, Copy)]
pub(crate) struct Op {
    pub(crate) to: usize,
    pub(crate) deed: Deed,
}
