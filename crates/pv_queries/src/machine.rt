//! The machine whose steps circuits do.
use pv_circuit::StepSource;
use pv_machine::Machine;

/// The machine of a source of step circuits.
#[derive(Drop)]
pub struct CircuitMachine<'a, C: StepSource> {
    /// The circuits.
    pub circuits: &'a C,
}

impl<'a, C: StepSource> Machine for CircuitMachine<'a, C> {
    ghost use Rattle.pv_queries.specs.Lawful.{lawful_by_circuits};

    ghost machine = { λ m. C.machine m.circuits.now };

    fn state_len(&self) -> usize {
        self.circuits.state_types().len()
    }

    fn input_len(&self) -> usize {
        self.circuits.input_types().len()
    }

    ghost lawful = { λ m. lawful_by_circuits (C.machine m.circuits.now) (C.form m.circuits.now) (C.start m.circuits.now)
        (C.step m.circuits.now) (C.kept m.circuits.now) (C.steps m.circuits.now) };
}
