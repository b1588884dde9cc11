//! Reductions of the code.
ghost use Rattle.std.specs.Prelude.{◌≡◌, Bool, true, IfOk};
ghost use Rattle.pv_machine.specs.Machines.{Machine as A_machine, IsState, IsInput};
ghost use Rattle.pv_machine.specs.Reductions.{Maps, IsReduction, IsExact};

use crate::machine::Machine;
use std::alloc::AllocError;

/// A reduction from one machine to another: each run of the first is a run of the second, and by an exact one also each run of the
/// second is a run of the first.
pub trait Reduction {
    /// What is reduced.
    type From: Machine;
    /// What it is reduced to.
    type To: Machine;

    ghost from: { Self → A_machine };

    ghost to: { Self → A_machine };

    ghost maps: { Self → Maps };

    ghost is_exact: { Self → Bool };

    /// The machine that is reduced.
    fn source(&self) -> &Self::From
        ensures { Self.From.machine result.now ≡ from self.now };

    /// The machine that it is reduced to.
    fn target(&self) -> &Self::To
        ensures { Self.To.machine result.now ≡ to self.now };

    /// Whether runs of the target are runs of the source, too.
    fn exact(&self) -> bool
        ensures { result ≡ is_exact self.now };

    /// An input of the source for one of the target.
    fn pull(&self, input: &[i128]) -> Result<Vec<i128>, AllocError>
        requires { IsInput (to self.now) input.now }
        ensures { IfOk result (λ v. v.items ≡ (maps self.now).pull input.now) };

    /// A state of the source for one of the target.
    fn embed(&self, state: &[i128]) -> Result<Vec<i128>, AllocError>
        requires { IsState (to self.now) state.now }
        ensures { IfOk result (λ v. v.items ≡ (maps self.now).embed state.now) };

    ghost reduces: { (r : Self) → IsReduction (from r) (to r) (maps r) };

    ghost replays: { (r : Self) → is_exact r ≡ true → IsExact (from r) (to r) (maps r) };
}
