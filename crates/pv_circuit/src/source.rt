//! What has a step circuit.
ghost use Rattle.std.specs.Prelude.{◌≡◌, ◌<◌, ◌≤◌, List, IfOk, OnOk};
ghost use Rattle.pv_gate.specs.Node.{gate_count};
ghost use Rattle.pv_gate.specs.declared.fault.GateFault.TheVariants.{Limit};
ghost use Rattle.pv_machine.specs.Machines.{Machine};
ghost use Rattle.pv_circuit.specs.declared.start.Start.{Start};
ghost use Rattle.pv_circuit.specs.Circuits.{Circuit, IsCircuit};
ghost use Rattle.pv_circuit.specs.Made.{IsStepCircuit};
ghost use Rattle.pv_circuit.specs.Steps.{Form, Steps};

use crate::circuit::StepCircuit;
use crate::start::Starts;
use pv_gate::{GateFault, MAX_GATES};
use pv_word::Ty;
use std::alloc::{AllocError, Global};

/// Something that stands for a machine, and has a circuit that does its steps.
pub trait StepSource {
    /// The machine.
    ghost machine: { Self → Machine };

    /// The circuit of one scan.
    ghost step: { Self → Circuit };

    /// The types of the values of a state and of an input.
    ghost form: { Self → Form };

    /// How the bits of a state begin.
    ghost start: { Self → List Start };

    /// The circuit. Limit exactly where it has more gates than the limit, unless memory runs out first.
    fn circuit(&self, alloc: Global, limit: u32) -> Result<StepCircuit, GateFault>
        requires { limit ≤ MAX_GATES }
        ensures made { IfOk result (λ c. IsStepCircuit (step self.now) limit c) }
        ensures within { OnOk result (gate_count (step self.now).nodes ≤ limit) }
        ensures limit { result ≡ Err Limit → limit < gate_count (step self.now).nodes };

    /// How the bits of a state begin, in the circuit's order.
    fn starts(&self, alloc: Global) -> Result<Starts, AllocError>
        ensures { IfOk result (λ s. s ≡ start self.now) };

    /// The types of the values of a state.
    fn state_types(&self) -> &[Ty]
        ensures { result.now ≡ (form self.now).state };

    /// The types of the values of an input.
    fn input_types(&self) -> &[Ty]
        ensures { result.now ≡ (form self.now).input };

    ghost kept: { (s : Self) → IsCircuit (step s) };

    ghost steps: { (s : Self) → Steps (machine s) (form s) (start s) (step s) };
}
