//! Laws of Boolean programs, each the contract of a function that does nothing.
ghost use Rattle.std.specs.Prelude.{◌≡◌, ℕ, ℤ, List, length, replicate};
ghost use Rattle.pv_place.specs.Ranges.{AreWithin};
ghost use Rattle.pv_machine.specs.Machines.{IsLawful};
ghost use Rattle.pv_bool.specs.declared.program.Bit.{Bit};
ghost use Rattle.pv_bool.specs.Tree.{ProgramTree};
ghost use Rattle.pv_bool.specs.Scans.{Bits, state_len, input_len};
ghost use Rattle.pv_bool.specs.Machine.{bit_range, machine_of};
ghost use Rattle.pv_bool.specs.Correct.{HasLengths, HasParts, BeginsWith, AreOfBits, AreNumbers};

/// States, inputs and frames keep their lengths: a scan's frame has a value for each bit, and what it
/// leaves one for each that is stored.
pub fn scans_keep_lengths()
    ensures scans { (program : ProgramTree) → HasLengths program }
    ensures parts { (bits : List Bit) (frame : Bits) → HasParts bits frame }
{}

/// A scan begins with its state and its input.
pub fn scans_begin_with_state_and_input()
    ensures { (bits : List Bit) (state input : Bits)
        → length state ≡ state_len bits → length input ≡ input_len bits
        → BeginsWith bits state input }
{}

/// The machine of a program is lawful.
pub fn machines_are_lawful()
    ensures { (program : ProgramTree) → IsLawful (machine_of program) }
{}

/// Bits are numbers of 0 and 1, and each such number is a bit.
pub fn bits_are_numbers()
    ensures numbers { (bits : Bits) → AreNumbers bits }
    ensures bits { (n : ℕ) (values : List ℤ)
        → AreWithin (replicate n bit_range) values → AreOfBits n values }
{}
