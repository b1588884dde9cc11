//! A lift as a case by which certificates are judged.
use crate::lift::Lift;
use crate::once;
use pv_cert::Query;
use pv_circuit::StepSource;
use pv_claims::CellValues;
use pv_cnf::Formula;
use pv_gate::GateFault;
use pv_stretch::{Stretch, StretchStart, run_stretch};
use pv_valid::{Facts, Judged};

impl<'a, C: StepSource> Judged for Lift<'a, C> {
    ghost use Rattle.pv_lift.specs.Facts.{limits_in};
    ghost use Rattle.pv_lift.specs.Cases.{case_of};
    ghost use Rattle.pv_lift.specs.CaseSound.{case_is_sound};

    ghost case = { λ l. case_of (C.machine l.machine.circuits.now) (C.step l.machine.circuits.now)
        (C.start l.machine.circuits.now) l.facts };

    fn facts(&self) -> &Facts {
        &self.facts
    }

    fn formula(&mut self, q: Query) -> Result<Formula, GateFault> {
        match self.build_once() {
            Ok(()) => once::formula(&self.built, self.alloc, q),
            Err(fault) => Err(fault),
        }
    }

    fn stretch(&mut self, start: StretchStart<'_>, inputs: &[CellValues]) -> Stretch {
        run_stretch(&mut self.replay, self.pattern, start, inputs)
    }

    ghost sound = { λ l. case_is_sound (C.machine l.machine.circuits.now) (C.form l.machine.circuits.now)
        (C.start l.machine.circuits.now) (C.step l.machine.circuits.now) l.replay l.pattern.now l.facts l.lifted
        (C.kept l.machine.circuits.now) (C.steps l.machine.circuits.now) (limits_in l.facts) l.known l.few_queries };
}
