//! The circuit of one scan of a program.
ghost use Rattle.std.specs.Prelude.{◌≡◌, ◌<◌, ◌≤◌, ◌+◌, length, neg_ℤ, [], ◌∷◌, Ok, Err};
ghost use Rattle.std.specs.Prelude.{IfOk, OnOk, OnErr};
ghost use Rattle.pv_gate.specs.declared.fault.GateFault.TheVariants.{Limit, NoMemory};
ghost use Rattle.pv_gate.specs.declared.netlist.Node.TheVariants.{True};
ghost use Rattle.pv_gate.specs.Node.{Names, gate_count, input_count};
ghost use Rattle.pv_bool.specs.Programs.{program_tree};
ghost use Rattle.pv_circuit.specs.Circuits.{begin_nodes, input_literals, circuit_with, IsCircuit};
ghost use Rattle.pv_circuit.specs.Made.{IsStepCircuit};
ghost use Rattle.pv_step.specs.Circuits.{kept_literals, taken_literals, circuit_of};

use crate::build::scan;
use pv_bool::{Bit, Program};
use pv_circuit::StepCircuit;
use pv_gate::{GateFault, Gates, MAX_GATES, MAX_INPUTS, make};
use std::alloc::Global;

/// The step circuit of a program. Node 1 is true, and the input nodes follow, one for each bit, in
/// the order of the bits.
///
/// Limit exactly where it has more than `limit` gates, unless memory runs out first, which is the other
/// error.
pub fn circuit(alloc: Global, program: &Program, limit: u32) -> Result<StepCircuit, GateFault>
    requires gates { limit ≤ MAX_GATES }
    requires bits { length program.now.bits.items ≤ MAX_INPUTS }
    ensures made { IfOk result
        (λ c. IsStepCircuit (circuit_of (program_tree program.now)) limit c) }
    ensures within { OnOk result
        (gate_count (circuit_of (program_tree program.now)).nodes ≤ limit) }
    ensures limit { result ≡ Err Limit
        → limit < gate_count (circuit_of (program_tree program.now)).nodes }
    ensures few { OnOk result (length (circuit_of (program_tree program.now)).nodes
        ≤ 1 + length program.now.bits.items + limit) }
    ensures kept { OnOk result (IsCircuit (circuit_of (program_tree program.now))) }
{
    let gates = or_no_memory(make(alloc, limit))?;
    build(alloc, program, gates)
}

/// The circuit of a program, on node 1 alone.
fn build(alloc: Global, program: &Program, mut gates: Gates) -> Result<StepCircuit, GateFault>
    requires bits { length program.now.bits.items ≤ MAX_INPUTS }
    requires empty { gates.nodes ≡ True ∷ [] }
    ensures made { IfOk result
        (λ c. IsStepCircuit (circuit_of (program_tree program.now)) gates.limit c) }
    ensures within { OnOk result
        (gate_count (circuit_of (program_tree program.now)).nodes ≤ gates.limit) }
    ensures limit { result ≡ Err Limit
        → gates.limit < gate_count (circuit_of (program_tree program.now)).nodes }
{
    let begin = inputs(alloc, &mut gates, program.bits.len())?;
    let mut end = or_no_memory(Vec::from_slice(alloc, &begin))?;
    let ok = scan(&mut gates, program, &mut end)?;
    judged(alloc, program, gates, &begin, &end, ok)
}

/// The circuit of these nodes, with the requirement's literal at the end of the scan.
///
/// The scan takes one path: it is done, with neither trap nor loop bound, and so the gates of its
/// outcome fold to the requirement's literal and its complement.
fn judged(
    alloc: Global,
    program: &Program,
    gates: Gates,
    begin: &[i32],
    end: &[i32],
    ok: i32,
) -> Result<StepCircuit, GateFault>
    requires begin { length begin.now ≡ length program.now.bits.items }
    requires end { length end.now ≡ length program.now.bits.items }
    requires ok { Names (length gates.nodes) ok }
    requires circuit { IsCircuit (circuit_with gates.nodes
        (kept_literals program.now.bits.items begin.now)
        (taken_literals program.now.bits.items begin.now)
        (kept_literals program.now.bits.items end.now) ok (neg_ℤ ok)) }
    ensures gates { IfOk result (λ c. c.gates ≡ gates) }
    ensures state_in { IfOk result
        (λ c. c.state_in.items ≡ kept_literals program.now.bits.items begin.now) }
    ensures input { IfOk result
        (λ c. c.input.items ≡ taken_literals program.now.bits.items begin.now) }
    ensures state_out { IfOk result
        (λ c. c.state_out.items ≡ kept_literals program.now.bits.items end.now) }
    ensures ok { IfOk result (λ c. c.ok ≡ ok) }
    ensures fail { IfOk result (λ c. c.fail ≡ neg_ℤ ok) }
    ensures within { gate_count gates.nodes ≤ gates.limit }
    ensures err { OnErr result (result ≡ Err NoMemory) }
{
    // There are no more gates than the limit allows.
    let _count = gates.nodes();
    let fail = gates.complement(ok);
    Ok(StepCircuit {
        state_in: kept(alloc, &program.bits, begin)?,
        input: taken(alloc, &program.bits, begin)?,
        state_out: kept(alloc, &program.bits, end)?,
        gates,
        ok,
        fail,
    })
}

/// What a call made whose one error is want of memory. That the call made this very value lets the
/// caller cite the call's own clauses.
fn or_no_memory<T, E: Drop>(made: Result<T, E>) -> Result<T, GateFault>
    ensures made { IfOk result (λ value. made ≡ Ok value) }
    ensures err { OnErr result (result ≡ Err NoMemory) }
{
    match made {
        Ok(value) => Ok(value),
        Err(_) => Err(GateFault::NoMemory),
    }
}

/// The literals with which a scan of this many bits begins: those of an input node for each.
fn inputs(alloc: Global, gates: &mut Gates, count: usize) -> Result<Vec<i32>, GateFault>
    requires empty { gates.old.nodes ≡ True ∷ [] }
    requires count { count ≤ MAX_INPUTS }
    ensures literals { IfOk result (λ literals. literals.items ≡ input_literals 0 count) }
    ensures nodes { OnOk result (gates.new ≡ record gates.old { nodes = begin_nodes count }) }
    ensures err { OnErr result (result ≡ Err NoMemory) }
{
    let mut literals = or_no_memory(Vec::with_capacity(alloc, count))?;
    for taken in 0..count {
        let literal = gates.input()?;
        if literals.push(literal).is_err() {
            return Err(GateFault::NoMemory);
        }
    }
    Ok(literals)
}

/// The literals of the kept bits.
fn kept(alloc: Global, bits: &[Bit], literals: &[i32]) -> Result<Vec<i32>, GateFault>
    requires { length literals.now ≡ length bits.now }
    ensures literals { IfOk result (λ found. found.items ≡ kept_literals bits.now literals.now) }
    ensures err { OnErr result (result ≡ Err NoMemory) }
{
    let mut found = Vec::new(alloc);
    for (number, bit) in bits.iter().enumerate() {
        if bit.role.is_kept() && found.push(literals[number]).is_err() {
            return Err(GateFault::NoMemory);
        }
    }
    Ok(found)
}

/// The literals of the input bits.
fn taken(alloc: Global, bits: &[Bit], literals: &[i32]) -> Result<Vec<i32>, GateFault>
    requires { length literals.now ≡ length bits.now }
    ensures literals { IfOk result (λ found. found.items ≡ taken_literals bits.now literals.now) }
    ensures err { OnErr result (result ≡ Err NoMemory) }
{
    let mut found = Vec::new(alloc);
    for (number, bit) in bits.iter().enumerate() {
        if bit.role.is_input() && found.push(literals[number]).is_err() {
            return Err(GateFault::NoMemory);
        }
    }
    Ok(found)
}
