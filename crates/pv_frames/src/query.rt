//! The formula of a query over a step circuit, pushed into a store.

ghost use Rattle.std.specs.Prelude.{◌≡◌, ◌≢◌, ℕ, ◌+◌, ◌*◌, ◌^◌, ◌<◌, ◌≤◌, List, length, map, count_by, if◌then◌else◌, Some, All, IsTrue, IfOk, OnOk, IfErr};
ghost use Rattle.std.specs.List.{flat_map};
ghost use Rattle.std.specs.Option.{is_some};
ghost use Rattle.pv_gate.specs.Node.{Names, gate_count};
ghost use Rattle.pv_cnf.specs.Clause.{AreClauses};
ghost use Rattle.pv_circuit.specs.Starts.{next_of, is_moved};
ghost use Rattle.pv_circuit.specs.Made.{circuit_seen};
ghost use Rattle.pv_frames.specs.Frames.{literal_in, node_clauses, frame_clauses};
ghost use Rattle.pv_frames.specs.Formulas.{written};
ghost use Rattle.pv_frames.specs.Queries.{IsAsked, frame_count, frame_at, first_of, constant, asked, query_clauses, variable_count};
ghost use Rattle.pv_frames.specs.declared.push.TheConstants.{MAX_QUERY_GATES, MAX_CLAUSES_BEFORE};
ghost use Rattle.pv_frames.specs.Pushing.{ArePushed, StopsAt, Pushes};
ghost use Rattle.pv_frames.specs.Short.{clauses_of};
ghost use Rattle.pv_frames.specs.declared.short.Short.TheVariants.{One};
ghost use Rattle.pv_frames.specs.Tables.{table_frame, NamesOperands, IsBegin, IsTable, IsFit, gate_clauses};

use crate::gate::{and_gate, mux_gate, xor_gate};
use crate::push::{push_all, push_short};
use crate::short::Short;
use crate::table::{lay, literal, node_literal};
use pv_cert::Query;
use pv_circuit::{Start, StepCircuit};
use pv_cnf::{Clauses, PushFault};
use pv_gate::{Gates, Node};
use std::alloc::{AllocError, Global};

/// So many nodes the circuit of a query may have.
pub const MAX_QUERY_NODES: u32 = 30_000_000;

/// The literal of a constant, since variable 1 is true.
fn constant(value: bool) -> u32
    ensures { result ≡ constant value }
{
    if value { 2 } else { 3 }
}

/// How many frames a query has.
pub(crate) fn frame_count(query: Query) -> u32
    requires { IsAsked query }
    ensures { result ≡ frame_count query }
{
    match query {
        Query::Base(k) => k,
        Query::Step(k) => k + 1,
    }
}

/// The literal of a state's bit in the first frame; none where the bit has a variable of its own.
fn first_of(query: Query, start: Start) -> Option<u32>
    ensures { result ≡ first_of query start }
{
    match start {
        Start::Fixed(value) => Some(constant(value)),
        Start::Begins(value) => match query {
            Query::Base(_) => Some(constant(value)),
            Query::Step(_) => None,
        },
        Start::Free => None,
    }
}

/// How many of the state's bits have a constant in the first frame.
fn constants(query: Query, start: &[Start]) -> usize
    ensures { result ≡ count_by (λ s. is_some (first_of query s)) start.now }
{
    let mut count = 0;
    for s in start {
        if first_of(query, *s).is_some() {
            count += 1;
        }
    }
    count
}

/// The number of variables of a query's formula, which are 1 to this number.
///
/// `start` has one entry for each bit of the circuit's state. A base query's number is in 1..64, a
/// step query's in 0..64; the circuit has at most `MAX_QUERY_NODES` nodes.
pub fn variables(c: &StepCircuit, start: &[Start], query: Query) -> u32
    requires start { length start.now ≡ length c.now.state_in.items }
    requires query { IsAsked query }
    requires nodes { length c.now.gates.nodes ≤ MAX_QUERY_NODES }
    ensures count { result ≡ variable_count (circuit_seen c.now) start.now query }
    ensures few { result < 2 ^ 31 }
{
    fit(c, start, query);
    let nodes = c.gates.nodes();
    let first = nodes - constants(query, start) as u32;
    let later = nodes - (1 + start.len() as u32);
    first + (frame_count(query) - 1) * later
}

/// The literals that the state's bits have in the first frame.
pub(crate) fn first_given(
    alloc: Global,
    query: Query,
    start: &[Start],
) -> Result<Vec<Option<u32>>, AllocError>
    ensures { IfOk result (λ given. given.items ≡ map (first_of query) start.now) }
{
    let mut given = Vec::with_capacity(alloc, start.len())?;
    for s in start {
        given.push(first_of(query, *s))?;
    }
    Ok(given)
}

/// The literal that a bit has behind a frame.
fn next_literal(start: Start, begin: u32, end: u32) -> u32
    ensures { result ≡ (if is_moved start then end else begin) }
{
    match start {
        Start::Begins(_) => end,
        Start::Fixed(_) => begin,
        Start::Free => begin,
    }
}

/// The literals that the state's bits have in the next frame.
fn advance(
    c: &StepCircuit,
    start: &[Start],
    begins: &[Option<u32>],
    gates: u32,
    given: &mut [Option<u32>],
)
    requires start { length start.now ≡ length c.now.state_in.items }
    requires end { length c.now.state_out.items ≡ length c.now.state_in.items }
    requires given { length given.old ≡ length c.now.state_in.items }
    requires state_in { All (Names (length c.now.gates.nodes)) c.now.state_in.items }
    requires state_out { All (Names (length c.now.gates.nodes)) c.now.state_out.items }
    requires few { gates + length c.now.gates.nodes < 2 ^ 31 }
    ensures { given.new ≡ map (λ lit. Some lit) (next_of start.now
        (map (literal_in (table_frame begins.now gates)) c.now.state_in.items)
        (map (literal_in (table_frame begins.now gates)) c.now.state_out.items)) }
{
    for k in 0..start.len() {
        let begin = literal(begins, gates, c.state_in[k]);
        let end = literal(begins, gates, c.state_out[k]);
        given[k] = Some(next_literal(start[k], begin, end));
    }
}

/// The literals of the next frame in place of those of a frame, `gates` being the variable of its first
/// node behind the inputs. That variable of the next frame.
pub(crate) fn next_table(
    c: &StepCircuit,
    start: &[Start],
    begins: &mut [Option<u32>],
    gates: u32,
    given: &mut [Option<u32>],
) -> u32
    requires start { length start.now ≡ length c.now.state_in.items }
    requires end { length c.now.state_out.items ≡ length c.now.state_in.items }
    requires begins { length begins.old ≡ length c.now.state_in.items + length c.now.input.items }
    requires given { length given.old ≡ length c.now.state_in.items }
    requires state_begins { All (IsBegin (length c.now.state_in.items + length c.now.input.items))
        c.now.state_in.items }
    requires state_in { All (Names (length c.now.gates.nodes)) c.now.state_in.items }
    requires state_out { All (Names (length c.now.gates.nodes)) c.now.state_out.items }
    requires inputs { 1 + (length c.now.state_in.items + length c.now.input.items)
        ≤ length c.now.gates.nodes }
    requires few { gates + length c.now.gates.nodes < 2 ^ 31 }
    ensures next { (q : Query) (j : ℕ)
        → IsTable (circuit_seen c.now) begins.old gates (frame_at (circuit_seen c.now) start.now q j)
        → IsTable (circuit_seen c.now) begins.new result
        (frame_at (circuit_seen c.now) start.now q (j + 1)) }
    ensures long_begins { length begins.new ≡ length begins.old }
    ensures long_given { length given.new ≡ length given.old }
{
    advance(c, start, begins, gates, given);
    let behind = c.gates.nodes() - (1 + begins.len() as u32);
    lay(begins, &c.state_in, given, gates + behind)
}

/// The clauses of node number `n` in a frame: none where it is no gate.
fn clauses_in(begins: &[Option<u32>], gates: u32, n: u32, node: Node) -> [Short; 4]
    requires from_one { 1 ≤ n }
    requires operands { NamesOperands n node }
    requires few { gates + n < 2 ^ 31 }
    ensures { flat_map clauses_of result
        ≡ flat_map written (node_clauses (table_frame begins.now gates) n node) }
{
    let g = node_literal(begins, gates, n);
    match node {
        Node::And(a, b) => and_gate(g, literal(begins, gates, a), literal(begins, gates, b)),
        Node::Xor(a, b) => xor_gate(g, literal(begins, gates, a), literal(begins, gates, b)),
        Node::Mux(s, a, b) => mux_gate(
            g,
            literal(begins, gates, s),
            literal(begins, gates, a),
            literal(begins, gates, b),
        ),
        Node::True => [Short::Omitted; 4],
        Node::Input(_) => [Short::Omitted; 4],
    }
}

/// The clauses of a frame's gates, in node order.
fn push_frame<C: Clauses>(
    circuit: &Gates,
    begins: &[Option<u32>],
    gates: u32,
    into: &mut C,
) -> Result<(), PushFault>
    requires takes { IsTrue (C.takes_clauses into.old) }
    requires valid { AreClauses (C.variables into.old)
        (flat_map written (frame_clauses (table_frame begins.now gates) 1 circuit.now.nodes)) }
    requires few { gates + length circuit.now.nodes < 2 ^ 31 }
    requires room { length (C.clauses into.old) + 4 * gate_count circuit.now.nodes + 4 < 2 ^ 32 }
    ensures pushes { Pushes (C.overflow into.old) (C.clauses into.old)
        (flat_map written (frame_clauses (table_frame begins.now gates) 1 circuit.now.nodes))
        (C.clauses into.new) result }
    ensures variables_kept { C.variables into.new ≡ C.variables into.old }
    ensures takes_kept { C.takes_clauses into.new ≡ C.takes_clauses into.old }
    ensures overflow_kept { (all : List (List ℕ)) → C.overflow into.new all ≡ C.overflow into.old all }
{
    for k in 0..circuit.nodes() {
        push_all(&clauses_in(begins, gates, k + 1, circuit.node(k + 1)), into)?;
    }
    Ok(())
}

/// What the frames of a query need of its circuit, as its type keeps it.
pub(crate) fn fit(c: &StepCircuit, start: &[Start], query: Query)
    requires start { length start.now ≡ length c.now.state_in.items }
    requires query { IsAsked query }
    requires nodes { length c.now.gates.nodes ≤ MAX_QUERY_NODES }
    ensures { IsFit (circuit_seen c.now) start.now query }
{
    // The nodes are in order.
    let _count = c.gates.nodes();
}

/// What has to be true in a frame: the last scan fails, and each before it is done and doesn't.
fn goal(c: &StepCircuit, begins: &[Option<u32>], gates: u32, is_last: bool) -> Short
    requires ok { Names (length c.now.gates.nodes) c.now.ok }
    requires fail { Names (length c.now.gates.nodes) c.now.fail }
    requires few { gates + length c.now.gates.nodes < 2 ^ 31 }
    ensures { result ≡ One (literal_in (table_frame begins.now gates)
        (if is_last then c.now.fail else c.now.ok)) }
{
    if is_last {
        Short::One(literal(begins, gates, c.fail))
    } else {
        Short::One(literal(begins, gates, c.ok))
    }
}

/// The clauses of all frames' gates. What has to be true in each frame
/// is filled into `goals`.
fn push_scans<C: Clauses>(
    c: &StepCircuit,
    start: &[Start],
    query: Query,
    begins: &mut [Option<u32>],
    first: u32,
    given: &mut [Option<u32>],
    goals: &mut [Short],
    into: &mut C,
) -> Result<(), PushFault>
    requires fit { IsFit (circuit_seen c.now) start.now query }
    requires query { IsAsked query }
    requires table { IsTable (circuit_seen c.now) begins.old first
        (frame_at (circuit_seen c.now) start.now query 0) }
    requires begins { length begins.old ≡ length c.now.state_in.items + length c.now.input.items }
    requires given { length given.old ≡ length c.now.state_in.items }
    requires goals { length goals.old ≡ frame_count query }
    requires few_gates { gate_count c.now.gates.nodes ≤ MAX_QUERY_GATES }
    requires takes { IsTrue (C.takes_clauses into.old) }
    requires variables { variable_count (circuit_seen c.now) start.now query ≤ C.variables into.old }
    requires room { length (C.clauses into.old) ≤ 1 + MAX_CLAUSES_BEFORE }
    ensures pushes { Pushes (C.overflow into.old) (C.clauses into.old)
        (gate_clauses (circuit_seen c.now) start.now query (frame_count query))
        (C.clauses into.new) result }
    ensures goals { OnOk result (goals.new
        ≡ map (λ lit. One lit) (asked (circuit_seen c.now) start.now query)) }
    ensures variables_kept { C.variables into.new ≡ C.variables into.old }
    ensures takes_kept { C.takes_clauses into.new ≡ C.takes_clauses into.old }
    ensures overflow_kept { (all : List (List ℕ)) → C.overflow into.new all ≡ C.overflow into.old all }
{
    let mut gates = first;
    for j in 0..goals.len() {
        push_frame(&c.gates, begins, gates, into)?;
        goals[j] = goal(c, begins, gates, j + 1 == goals.len());
        gates = next_table(c, start, begins, gates, given);
    }
    Ok(())
}

/// The clauses of a query, where the first frame's literals are laid.
fn push_laid<C: Clauses>(
    c: &StepCircuit,
    start: &[Start],
    query: Query,
    begins: &mut [Option<u32>],
    first: u32,
    given: &mut [Option<u32>],
    goals: &mut [Short],
    into: &mut C,
) -> Result<(), PushFault>
    requires fit { IsFit (circuit_seen c.now) start.now query }
    requires query { IsAsked query }
    requires table { IsTable (circuit_seen c.now) begins.old first
        (frame_at (circuit_seen c.now) start.now query 0) }
    requires begins { length begins.old ≡ length c.now.state_in.items + length c.now.input.items }
    requires given { length given.old ≡ length c.now.state_in.items }
    requires goals { length goals.old ≡ frame_count query }
    requires few_gates { gate_count c.now.gates.nodes ≤ MAX_QUERY_GATES }
    requires takes { IsTrue (C.takes_clauses into.old) }
    requires variables { variable_count (circuit_seen c.now) start.now query ≤ C.variables into.old }
    requires room { length (C.clauses into.old) ≤ MAX_CLAUSES_BEFORE }
    ensures pushes { Pushes (C.overflow into.old) (C.clauses into.old)
        (query_clauses (circuit_seen c.now) start.now query) (C.clauses into.new) result }
    ensures variables_kept { C.variables into.new ≡ C.variables into.old }
    ensures takes_kept { C.takes_clauses into.new ≡ C.takes_clauses into.old }
    ensures overflow_kept { (all : List (List ℕ)) → C.overflow into.new all ≡ C.overflow into.old all }
{
    push_short(Short::One(constant(true)), into)?;
    push_scans(c, start, query, begins, first, given, goals, into)?;
    push_all(goals, into)
}

/// Pushes the clauses of a query over a step circuit.
///
/// `start` has one entry for each bit of the circuit's state. A base query's number is in 1..64, a
/// step query's in 0..64; the circuit has at most `MAX_QUERY_NODES` nodes and `MAX_QUERY_GATES`
/// gates, and the store at most `MAX_CLAUSES_BEFORE` clauses. `Full` comes where a clause doesn't fit
/// into the store, with the need of the first such clause; after it, and after want of memory, the
/// clauses before the one that was refused stand there.
pub fn push_frames<C: Clauses>(
    alloc: Global,
    c: &StepCircuit,
    start: &[Start],
    query: Query,
    into: &mut C,
) -> Result<(), PushFault>
    requires start { length start.now ≡ length c.now.state_in.items }
    requires query { IsAsked query }
    requires nodes { length c.now.gates.nodes ≤ MAX_QUERY_NODES }
    requires few_gates { gate_count c.now.gates.nodes ≤ MAX_QUERY_GATES }
    requires takes { IsTrue (C.takes_clauses into.old) }
    requires variables { variable_count (circuit_seen c.now) start.now query ≤ C.variables into.old }
    requires room { length (C.clauses into.old) ≤ MAX_CLAUSES_BEFORE }
    ensures ok { OnOk result (ArePushed (C.overflow into.old) (C.clauses into.old)
        (query_clauses (circuit_seen c.now) start.now query) (C.clauses into.new)) }

    // The clauses before the one that is refused stand there, and each of them fits.
    ensures err { IfErr result (λ fault. StopsAt (C.overflow into.old) (C.clauses into.old)
        (query_clauses (circuit_seen c.now) start.now query) (C.clauses into.new) fault) }

    // The faults of a clause itself never come.
    ensures in_range { result ≢ Err PushFault.VariableOutOfRange }
    ensures distinct { result ≢ Err PushFault.Doubled }
    ensures nonempty { result ≢ Err PushFault.Empty }

    ensures variables_kept { C.variables into.new ≡ C.variables into.old }
    ensures takes_kept { C.takes_clauses into.new ≡ C.takes_clauses into.old }
    ensures overflow_kept { (all : List (List ℕ)) → C.overflow into.new all ≡ C.overflow into.old all }
{
    // All memory is taken before the first clause.
    let mut begins = vec![in alloc; None; c.state_in.len() + c.input.len()]?;
    let mut given = first_given(alloc, query, start)?;
    let mut goals = vec![in alloc; Short::Omitted; frame_count(query) as usize]?;

    fit(c, start, query);
    let gates = lay(&mut begins, &c.state_in, &given, 2);
    push_laid(
        c,
        start,
        query,
        &mut begins,
        gates,
        &mut given,
        &mut goals,
        into,
    )
}
