//! What is asked of a case when a certificate is judged.
ghost use Rattle.std.specs.Prelude.{◌≡◌, ◌^◌, ◌<◌, true, false, IfOk, OnOk};
ghost use Rattle.pv_kind.specs.Oracles.{IsAsked};
ghost use Rattle.pv_valid.specs.Cases.{Case, IsSound};
ghost use Rattle.pv_valid.specs.Shown.{IsStretch};
ghost use Rattle.pv_valid.specs.Starts.{IsStart, state_from};
ghost use Rattle.pv_valid.specs.Validity.{AreInputs};

use crate::facts::Facts;
use pv_cert::Query;
use pv_claims::CellValues;
use pv_cnf::Formula;
use pv_gate::GateFault;
use pv_stretch::{Stretch, StretchStart};

/// A case by which certificates are judged: it makes the formulas of its queries anew, and replays scans on its sources.
pub trait Judged {
    /// The case. No call changes it.
    ghost case: { Self → Case };

    /// What is known of it.
    fn facts(&self) -> &Facts
        ensures { result.now ≡ (case self.now).facts };

    /// The formula of a query.
    fn formula(&mut self, q: Query) -> Result<Formula, GateFault>
        requires { IsAsked q }
        ensures formula { IfOk result (λ formula. formula ≡ (case self.old).formula q) }
        ensures few { IfOk result (λ formula. formula.variables < 2 ^ 31) }

        // Limit comes exactly where the circuit passes the limit, running out of memory aside.
        ensures fits { OnOk result ((case self.old).passes ≡ false) }
        ensures passes { result ≡ Err GateFault.Limit → (case self.old).passes ≡ true }

        ensures kept { case self.new ≡ case self.old };

    /// Scans with these inputs: how many are good before the first that fails or isn't done, and how that one ends. It takes no memory.
    fn stretch(&mut self, start: StretchStart, inputs: &[CellValues]) -> Stretch
        ensures stretch { IsStart (case self.old) start.entry → AreInputs (case self.old) inputs.now
            → IsStretch (case self.old).machine (state_from (case self.old) start.entry) inputs.now result.good result.ending }
        ensures kept { case self.new ≡ case self.old };

    ghost sound: { (j : Self) → IsSound (case j) };
}
