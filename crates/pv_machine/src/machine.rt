//! Machines of the code.
ghost use Rattle.std.specs.Prelude.{◌≡◌, length};
ghost use Rattle.pv_machine.specs.Machines.{Machine as A_machine, IsLawful};

/// Something that stands for a machine, whose states and inputs are lists of numbers.
pub trait Machine {
    /// The machine that it stands for.
    ghost machine: { Self → A_machine };

    /// How many values a state has.
    fn state_len(&self) -> usize
        ensures { result ≡ length (machine self.now).state };

    /// How many values an input has.
    fn input_len(&self) -> usize
        ensures { result ≡ length (machine self.now).input };

    ghost lawful: { (m : Self) → IsLawful (machine m) };
}
