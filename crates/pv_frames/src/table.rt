//! A frame's literals: those of the input nodes in a list, those of the nodes behind them by
//! arithmetic.

ghost use Rattle.std.specs.Prelude.{◌≡◌, ℕ, ◌+◌, ◌*◌, ◌<◌, ◌≤◌, ◌^◌, ℤ, unsigned_abs, length, slice_index_or, if◌then◌else◌, unwrap_or, Option, None, Some, All};
ghost use Rattle.std.specs.Option.{is_none};
ghost use Rattle.pv_frames.specs.Frames.{literal_in};
ghost use Rattle.pv_frames.specs.Queries.{given_for, own_below, numbered};
ghost use Rattle.pv_frames.specs.Tables.{table_frame, IsBegin};

use pv_cnf::flip;

/// The literal of node `n`, from 1.
pub(crate) fn node_literal(begins: &[Option<u32>], gates: u32, n: u32) -> u32
    requires from_one { 1 ≤ n }
    requires few { gates + n < 2 ^ 31 }
    ensures { result ≡ table_frame begins.now gates n }
{
    if n == 1 {
        return 2;
    }
    let behind = n as usize - 2;
    if behind < begins.len() {
        begins[behind].unwrap_or(0)
    } else {
        2 * (gates + (behind - begins.len()) as u32)
    }
}

/// The literal of a circuit's literal.
pub(crate) fn literal(begins: &[Option<u32>], gates: u32, l: i32) -> u32
    requires from_one { 1 ≤ unsigned_abs l }
    requires few { gates + unsigned_abs l < 2 ^ 31 }
    ensures { result ≡ literal_in (table_frame begins.now gates) l }
{
    let node = node_literal(begins, gates, l.unsigned_abs());
    if l < 0 { flip(node) } else { node }
}

/// No literal at any place.
fn clear(begins: &mut [Option<u32>])
    ensures cleared { (i : ℕ) → i < length begins.old → slice_index_or begins.new i None ≡ None }
    ensures long { length begins.new ≡ length begins.old }
{
    for i in 0..begins.len() {
        begins[i] = None;
    }
}

/// Each given literal at its node's place, and none at the others.
fn place(begins: &mut [Option<u32>], nodes: &[i32], given: &[Option<u32>])
    requires nodes { All (IsBegin (length begins.old)) nodes.now }
    requires given { length given.now ≡ length nodes.now }
    ensures placed { (i : ℕ) → i < length begins.old
        → slice_index_or begins.new i None ≡ given_for None nodes.now given.now (2 + i) }
    ensures long { length begins.new ≡ length begins.old }
{
    clear(begins);
    for k in 0..nodes.len() {
        begins[nodes[k] as usize - 2] = given[k];
    }
}

/// The literal of a place, which is of the next variable where it has none, and the variable behind it.
fn numbered_one(lit: Option<u32>, next: u32) -> (u32, u32)
    requires few { next < 2 ^ 31 }
    ensures literal { result.0 ≡ unwrap_or lit (2 * next) }
    ensures next { result.1 ≡ next + (if is_none lit then 1 else 0) }
{
    match lit {
        Some(lit) => (lit, next),
        None => (2 * next, next + 1),
    }
}

/// Variables from `first` on for the places that have no literal. The first variable behind them.
fn number(begins: &mut [Option<u32>], first: u32) -> u32
    requires few { first + length begins.old < 2 ^ 31 }
    ensures numbered { (given : ℕ → Option ℕ)
        → ((i : ℕ) → i < length begins.old → slice_index_or begins.old i None ≡ given (2 + i))
        → (i : ℕ) → i < length begins.old
        → slice_index_or begins.new i None ≡ Some (numbered given first (2 + i)) }
    ensures next { (given : ℕ → Option ℕ)
        → ((i : ℕ) → i < length begins.old → slice_index_or begins.old i None ≡ given (2 + i))
        → result ≡ first + own_below given (2 + length begins.old) }
    ensures long { length begins.new ≡ length begins.old }
{
    let mut next = first;
    for i in 0..begins.len() {
        let (lit, behind) = numbered_one(begins[i], next);
        begins[i] = Some(lit);
        next = behind;
    }
    next
}

/// The literals of the input nodes, where the state's bits have those that are given or variables of
/// their own, from `first` on. The variable of the first node behind them.
pub(crate) fn lay(
    begins: &mut [Option<u32>],
    nodes: &[i32],
    given: &[Option<u32>],
    first: u32,
) -> u32
    requires nodes { All (IsBegin (length begins.old)) nodes.now }
    requires given { length given.now ≡ length nodes.now }
    requires few { first + length begins.old < 2 ^ 31 }
    ensures laid { (i : ℕ) → i < length begins.old
        → slice_index_or begins.new i None
        ≡ Some (numbered (given_for None nodes.now given.now) first (2 + i)) }
    ensures next { result
        ≡ first + own_below (given_for None nodes.now given.now) (2 + length begins.old) }
    ensures long { length begins.new ≡ length begins.old }
{
    place(begins, nodes, given);
    number(begins, first)
}
