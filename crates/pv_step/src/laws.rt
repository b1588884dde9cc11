//! Laws that join a program's step circuit with its scan, each the contract of a function that does
//! nothing.
ghost use Rattle.std.specs.Prelude.{◌≡◌, ℕ, Bool, length};
ghost use Rattle.pv_bool.specs.Tree.{ProgramTree, IsProgram};
ghost use Rattle.pv_bool.specs.Scans.{Bits, state_len, input_len};
ghost use Rattle.pv_circuit.specs.Circuits.{IsCircuit};
ghost use Rattle.pv_circuit.specs.Steps.{Steps};
ghost use Rattle.pv_step.specs.Circuits.{circuit_of};
ghost use Rattle.pv_bool.specs.Machine.{machine_of};
ghost use Rattle.pv_step.specs.Correct.{DoesTheScan, HaveLengths, StandFor};
ghost use Rattle.pv_step.specs.Steps.{form_of, starts_of};

/// Whatever the inputs are, they stand for a state and an input, and the circuit's literals have the
/// values of the scan from there: `fail` is true exactly where the requirement isn't kept, `ok`
/// exactly where it is, and the kept bits' literals behind the scan are the next state.
pub fn circuits_do_the_scan()
    ensures scan { (program : ProgramTree) (inputs : ℕ → Bool)
        → IsProgram program → DoesTheScan program inputs }
    ensures lengths { (program : ProgramTree) (inputs : ℕ → Bool) → HaveLengths program inputs }
{}

/// Some inputs stand for each state and input.
pub fn inputs_stand_for_each_scan()
    ensures { (program : ProgramTree) (state input : Bits)
        → IsProgram program
        → length state ≡ state_len program.bits → length input ≡ input_len program.bits
        → StandFor program state input }
{}

/// The nodes of a circuit are in order, and its literals name them.
pub fn circuits_are_netlists()
    ensures { (program : ProgramTree) → IsProgram program → IsCircuit (circuit_of program) }
{}

/// A program's circuit does the steps of its machine, each of whose values is a BOOL.
pub fn circuits_do_the_steps()
    ensures { (program : ProgramTree)
        → IsProgram program → Steps (machine_of program) (form_of program) (starts_of program) (circuit_of program) }
{}
