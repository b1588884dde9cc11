//! Calls of pv_step.
ghost use Rattle.std.specs.Prelude.{◌≡◌, ◌<◌, ◌≤◌, ◌+◌, length, Err, IfOk, OnOk};
ghost use Rattle.pv_gate.specs.declared.fault.GateFault.TheVariants.{Limit};
ghost use Rattle.pv_gate.specs.Node.{gate_count};
ghost use Rattle.pv_bool.specs.Programs.{program_tree};
ghost use Rattle.pv_circuit.specs.Circuits.{IsCircuit};
ghost use Rattle.pv_circuit.specs.Made.{IsStepCircuit};
ghost use Rattle.pv_step.specs.Circuits.{circuit_of};

use pv_bool::Program;
use pv_gate::{GateFault, MAX_GATES, MAX_INPUTS};
use pv_step::StepCircuit;
use std::alloc::Global;

/// [`pv_step::circuit`].
pub fn circuit(alloc: Global, program: &Program, limit: u32) -> Result<StepCircuit, GateFault>
    requires gates { limit ≤ MAX_GATES }
    requires bits { length program.now.bits.items ≤ MAX_INPUTS }
    ensures made { IfOk result
        (λ c. IsStepCircuit (circuit_of (program_tree program.now)) limit c) }
    ensures within { OnOk result
        (gate_count (circuit_of (program_tree program.now)).nodes ≤ limit) }
    ensures limit { result ≡ Err Limit
        → limit < gate_count (circuit_of (program_tree program.now)).nodes }
    ensures few { OnOk result (length (circuit_of (program_tree program.now)).nodes
        ≤ 1 + length program.now.bits.items + limit) }
    ensures kept { OnOk result (IsCircuit (circuit_of (program_tree program.now))) }
{
    pv_step::circuit(alloc, program, limit)
}
