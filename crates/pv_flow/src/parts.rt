//! The parts of an automaton.

use crate::term::Node;
use pv_place::{Place, Role, TrapKind};
use pv_word::Ty;
use smallvec::SmallVec;

/// A variable: a cell, whether a cell has a value, or what a statement keeps for itself.
#[derive(Clone, Copy)]
pub struct Variable {
    pub ty: Ty,
    pub role: Role,
    /// Its value before the first scan; of a brief one its value where each scan begins.
    pub start: i128,
    /// Of a parameter the one value that it may have, where the case binds it.
    pub only: Option<i128>,
}

/// The variable of this number takes the value of the term of that number.
#[derive(Clone, Copy, Default)]
pub struct Set {
    pub variable: u32,
    pub value: u32,
}

/// What an edge asks and does: the number of its guard, a term, and its sets, which are made at once. Of two sets of one variable the
/// later one stands. Copies of an edge share it.
#[derive(Drop)]
pub struct Deed {
    pub guard: u32,
    pub sets: SmallVec<Set, 2>,
}

/// An edge between two locations, with the number of its deed. In parts that are no automaton a number that names none has the guard
/// FALSE.
#[derive(Clone, Copy)]
pub struct Edge {
    pub from: u32,
    pub to: u32,
    pub deed: u32,
}

/// An edge that runs the block of this number, whose bound variables are the caller's from `instance` on.
#[derive(Clone, Copy)]
pub struct CallEdge {
    pub from: u32,
    pub to: u32,
    pub block: u32,
    pub instance: u32,
    pub place: Place,
}

/// A loop: the range of its locations, both ends included, whether entering it from outside starts turn 1, and the numbers of the edges
/// whose taking starts a turn.
#[derive(Drop)]
pub struct Loop {
    pub first: u32,
    pub last: u32,
    pub entry_turn: bool,
    pub turns: Vec<u32>,
    pub place: Place,
}

/// The location where a scan ends by a trap.
#[derive(Clone, Copy)]
pub struct TrapEnd {
    pub location: u32,
    pub kind: TrapKind,
    pub place: Place,
}

/// The location where a scan ends that went over a loop's bound.
#[derive(Clone, Copy)]
pub struct OverEnd {
    pub location: u32,
    pub place: Place,
}

/// The parts of an automaton. Scans begin at location 0. The variables are the bound ones, the shared ones and the block's own, in this
/// order; loops stand outermost first.
#[derive(Drop)]
pub struct Parts {
    pub nodes: Vec<Node>,
    pub deeds: Vec<Deed>,
    pub vars: Vec<Variable>,
    /// How many variables are bound.
    pub bound: u32,
    /// How many variables are shared.
    pub shared: u32,
    /// How many locations there are.
    pub locations: u32,
    pub edges: Vec<Edge>,
    pub calls: Vec<CallEdge>,
    pub loops: Vec<Loop>,
    /// The location where a scan is done.
    pub done: u32,
    pub traps: Vec<TrapEnd>,
    pub overs: Vec<OverEnd>,
}
