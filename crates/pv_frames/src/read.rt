//! The run that values of a query's variables stand for.

ghost use Rattle.std.specs.Prelude.{◌≡◌, ◌+◌, ◌^◌, ◌<◌, ◌≤◌, ℕ, false, length, map, All, IfOk};
ghost use Rattle.pv_gate.specs.Node.{Names};
ghost use Rattle.pv_cnf.specs.Literal.{literal_value, is_outside};
ghost use Rattle.pv_circuit.specs.Made.{circuit_seen};
ghost use Rattle.pv_frames.specs.Frames.{literal_in};
ghost use Rattle.pv_frames.specs.Queries.{IsAsked, frame_at, frames, variable_count};
ghost use Rattle.pv_frames.specs.Runs.{input_in, run_of, run_seen};
ghost use Rattle.pv_frames.specs.Tables.{table_frame, Inside, IsTable, IsFit};

use crate::bits::{BitTrace, Bits, ScanBits};
use crate::query::{MAX_QUERY_NODES, first_given, fit, frame_count, next_table};
use crate::table::{lay, literal};
use pv_cert::Query;
use pv_circuit::{Start, StepCircuit};
use pv_cnf::Values;
use std::alloc::{AllocError, Global};

/// Whether a literal is true.
fn is_true<V: Values>(lit: u32, values: &V) -> bool
    requires { is_outside (V.assigned values.now) lit ≡ false }
    ensures { result ≡ literal_value (V.truth values.now) lit }
{
    let value = values.value(lit / 2);
    if lit % 2 == 1 { !value } else { value }
}

/// The values of a circuit's literals in a frame.
fn read_bits<V: Values>(
    alloc: Global,
    c: &StepCircuit,
    begins: &[Option<u32>],
    gates: u32,
    literals: &[i32],
    values: &V,
) -> Result<Bits, AllocError>
    requires names { All (Names (length c.now.gates.nodes)) literals.now }
    requires few { gates + length c.now.gates.nodes < 2 ^ 31 }
    requires inside { Inside (V.assigned values.now) (length c.now.gates.nodes)
        (table_frame begins.now gates) }
    ensures { IfOk result (λ bits. bits
        ≡ map (λ l. literal_value (V.truth values.now) (literal_in (table_frame begins.now gates) l))
        literals.now) }
{
    let mut bits = Bits::new(alloc);
    for k in 0..literals.len() {
        bits.push(is_true(literal(begins, gates, literals[k]), values))?;
    }
    Ok(bits)
}

/// The bits of each scan's input, where the first frame's literals are laid.
fn read_inputs<V: Values>(
    alloc: Global,
    c: &StepCircuit,
    start: &[Start],
    query: Query,
    begins: &mut [Option<u32>],
    first: u32,
    given: &mut [Option<u32>],
    values: &V,
) -> Result<ScanBits, AllocError>
    requires fit { IsFit (circuit_seen c.now) start.now query }
    requires query { IsAsked query }
    requires table { IsTable (circuit_seen c.now) begins.old first
        (frame_at (circuit_seen c.now) start.now query 0) }
    requires begins { length begins.old ≡ length c.now.state_in.items + length c.now.input.items }
    requires given { length given.old ≡ length c.now.state_in.items }
    requires values { variable_count (circuit_seen c.now) start.now query ≤ V.assigned values.now }
    ensures { IfOk result (λ inputs. inputs
        ≡ map (input_in (circuit_seen c.now) (V.truth values.now))
        (frames (circuit_seen c.now) start.now query)) }
{
    let mut inputs = ScanBits::new(alloc);
    let mut gates = first;
    for _j in 0..frame_count(query) {
        let bits = read_bits(alloc, c, begins, gates, &c.input, values)?;
        inputs.push(bits)?;
        gates = next_table(c, start, begins, gates, given);
    }
    Ok(inputs)
}

/// The run that values stand for, where the first frame's literals are laid.
fn read_laid<V: Values>(
    alloc: Global,
    c: &StepCircuit,
    start: &[Start],
    query: Query,
    begins: &mut [Option<u32>],
    first: u32,
    given: &mut [Option<u32>],
    values: &V,
) -> Result<BitTrace, AllocError>
    requires fit { IsFit (circuit_seen c.now) start.now query }
    requires query { IsAsked query }
    requires table { IsTable (circuit_seen c.now) begins.old first
        (frame_at (circuit_seen c.now) start.now query 0) }
    requires begins { length begins.old ≡ length c.now.state_in.items + length c.now.input.items }
    requires given { length given.old ≡ length c.now.state_in.items }
    requires values { variable_count (circuit_seen c.now) start.now query ≤ V.assigned values.now }
    ensures { IfOk result (λ trace. run_seen trace
        ≡ run_of (circuit_seen c.now) start.now query (V.truth values.now)) }
{
    let state = read_bits(alloc, c, begins, first, &c.state_in, values)?;
    let inputs = read_inputs(alloc, c, start, query, begins, first, given, values)?;
    Ok(BitTrace { state, inputs })
}

/// The run that values of a query's variables stand for: the bits of the first frame's state, and of
/// each frame's input, in the circuit's order.
///
/// `start` has one entry for each bit of the circuit's state. A base query's number is in 1..64, a
/// step query's in 0..64; the circuit has at most `MAX_QUERY_NODES` nodes, and each of the query's
/// variables has a value.
pub fn read_frames<V: Values>(
    alloc: Global,
    c: &StepCircuit,
    start: &[Start],
    query: Query,
    values: &V,
) -> Result<BitTrace, AllocError>
    requires start { length start.now ≡ length c.now.state_in.items }
    requires query { IsAsked query }
    requires nodes { length c.now.gates.nodes ≤ MAX_QUERY_NODES }
    requires values { variable_count (circuit_seen c.now) start.now query ≤ V.assigned values.now }
    ensures { IfOk result (λ trace. run_seen trace
        ≡ run_of (circuit_seen c.now) start.now query (V.truth values.now)) }
{
    let mut begins = vec![in alloc; None; c.state_in.len() + c.input.len()]?;
    let mut given = first_given(alloc, query, start)?;

    fit(c, start, query);
    let gates = lay(&mut begins, &c.state_in, &given, 2);
    read_laid(
        alloc,
        c,
        start,
        query,
        &mut begins,
        gates,
        &mut given,
        values,
    )
}
