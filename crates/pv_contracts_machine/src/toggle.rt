//! A toggle: one bit that each step turns round, and that fails where it is 1, whatever the inputs are.
ghost use Rattle.std.specs.Prelude.{◌≡◌};

use pv_machine::Machine;

/// The toggle with so many inputs, numbers from 0 to 255.
#[derive(Clone, Copy, Drop)]
pub struct Toggle {
    pub inputs: usize,
}

impl Machine for Toggle {
    ghost use Rattle.pv_contracts_machine.specs.Toggles.{toggle, toggle_is_lawful};

    ghost machine = { λ t. toggle t.inputs };

    fn state_len(&self) -> usize {
        1
    }

    fn input_len(&self) -> usize {
        self.inputs
    }

    ghost lawful = { λ t. toggle_is_lawful t.inputs };
}
