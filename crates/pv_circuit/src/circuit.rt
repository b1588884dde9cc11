//! A step circuit.
ghost use Rattle.pv_circuit.specs.Circuits.{circuit_with, IsCircuit};

use pv_gate::Gates;

/// The gates of one scan of a machine. The lists of literals have one for each bit, in one order for
/// `state_in` and `state_out`.
#[derive(Drop)]
pub struct StepCircuit {
    pub gates: Gates,
    /// The bits of the state at the scan's beginning: input nodes.
    pub state_in: Vec<i32>,
    /// The bits of the input: input nodes.
    pub input: Vec<i32>,
    /// The bits of the state at the scan's end.
    pub state_out: Vec<i32>,
    /// True where the scan is done and doesn't fail.
    pub ok: i32,
    /// True where the scan fails.
    pub fail: i32,
    /// Each literal names a node, the lists of the beginning have each input node once, and as many
    /// bits are kept at the end.
    pub ghost kept: { ∥ IsCircuit (circuit_with gates.nodes state_in.items input.items state_out.items ok fail) ∥₁ },
}
