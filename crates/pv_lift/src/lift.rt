//! The oracle of a case.
ghost use Rattle.std.specs.Prelude.{◌≡◌, ◌+◌, ◌<◌, ◌≤◌, IsTrue, IfOk, IfSome, OnOk};
ghost use Rattle.std.specs.Option.{is_some};
ghost use Rattle.std.proofs.Props.{props};
ghost use Rattle.pv_gate.specs.Node.{gate_count};
ghost use Rattle.pv_circuit.specs.Steps.{widths};
ghost use Rattle.pv_cert.specs.CertificateText.{no_reduction};
ghost use Rattle.pv_queries.specs.Built.{IsBuilt};
ghost use Rattle.pv_queries.specs.declared.built.TheConstants.{MAX_BUILT_GATES, MAX_BUILT_BITS};
ghost use Rattle.pv_kind.specs.declared.told.TheConstants.{LAST_QUERY};
ghost use Rattle.pv_replay.specs.Replays.{cells_of};
ghost use Rattle.pv_stretch.specs.Judged.{is_goal};
ghost use Rattle.pv_valid.specs.Deciding.{IsOracleFor};
ghost use Rattle.pv_lift.specs.Lifts.{fixed_of, looks_back_of, IsLifted};
ghost use Rattle.pv_lift.specs.Stages.{oracle_fault, stage_of, encoding_of};
ghost use Rattle.pv_lift.specs.Facts.{facts_of, limits_in};
ghost use Rattle.pv_lift.specs.Cases.{case_of};

use crate::facts::{facts_of, looks_back};
use crate::once;
use pv_cert::{Chain, Query};
use pv_circuit::StepSource;
use pv_cnf::{Clauses, PushFault, Values};
use pv_gate::GateFault;
use pv_kind::{Limits, Oracle, OracleFault, Told};
use pv_log::Numbers;
use pv_pattern::Pattern;
use pv_queries::{Built, CircuitMachine};
use pv_replay::Replay;
use pv_stretch::asks_for_goal;
use pv_valid::Facts;
use std::alloc::{AllocError, Global};

/// Which reductions are made before queries are asked. None is built yet, and a lift makes none.
#[derive(Clone, Copy)]
pub struct Reduce {
    /// Cells that never change are replaced by their values.
    pub constants: bool,
    /// Cells that may take any value at any time.
    pub abstraction: bool,
    /// Cells that nothing observed depends on are left out.
    pub cone: bool,
}

/// The queries on the machine of a source and a pattern, by circuits that do its steps. A circuit is built once.
#[derive(Drop)]
pub struct Lift<'a, C: StepSource> {
    pub(crate) alloc: Global,
    /// The machine that is asked of.
    pub machine: CircuitMachine<'a, C>,
    /// Replays of the source.
    pub replay: Replay<'a>,
    /// The source's pattern.
    pub pattern: &'a Pattern,
    /// What is known of the case by which certificates are judged.
    pub facts: Facts,
    chain: Chain,
    pub(crate) built: Option<Built>,
    ghost plain: { chain ≡ no_reduction } by { Prim.hlevel props },
    ghost few: { widths (C.form machine.circuits.now).state + widths (C.form machine.circuits.now).input ≤ MAX_BUILT_BITS },
    ghost is_built: { IfSome built (IsBuilt (C.step machine.circuits.now) (C.start machine.circuits.now)) } by { Prim.hlevel props },
    ghost within: { IfSome built (λ _. gate_count (C.step machine.circuits.now).nodes ≤ MAX_BUILT_GATES) } by { Prim.hlevel props },
    ghost lifted: { ∥ IsLifted (C.machine machine.circuits.now) replay pattern.now ∥₁ },
    ghost known: { facts ≡ facts_of (cells_of replay) (is_goal pattern.now) (looks_back_of pattern.now) (limits_in facts) } by { Prim.hlevel props },
    ghost few_queries: { facts.depth ≤ LAST_QUERY },
}

/// The queries on the machine of the replay's source and the pattern, which the circuits' machine is the same as. A state and an input
/// of it have at most `MAX_BUILT_BITS` bits together. No reduction is made, whichever are named. The limits are those of the case by which
/// certificates are judged.
pub fn make<'a, C: StepSource>(
    alloc: Global,
    circuits: &'a C,
    replay: Replay<'a>,
    pattern: &'a Pattern,
    reduce: &Reduce,
    limits: &Limits,
) -> Result<Lift<'a, C>, AllocError>
    requires lifted { IsLifted (C.machine circuits.now) replay pattern.now }
    requires few { widths (C.form circuits.now).state + widths (C.form circuits.now).input ≤ MAX_BUILT_BITS }
    requires depth { limits.now.depth ≤ LAST_QUERY }
    ensures circuits { IfOk result (λ lift. lift.machine.circuits.now ≡ circuits.now) }
    ensures replay { IfOk result (λ lift. lift.replay ≡ replay.entry) }
    ensures pattern { IfOk result (λ lift. lift.pattern.now ≡ pattern.now) }
    ensures facts { IfOk result (λ lift. lift.facts
        ≡ facts_of (cells_of replay.entry) (is_goal pattern.now) (looks_back_of pattern.now) limits.now) }
    ensures alike { IfOk result (λ lift. IsOracleFor
        (case_of (C.machine circuits.now) (C.step circuits.now) (C.start circuits.now) lift.facts)
        (encoding_of (C.machine circuits.now) (C.step circuits.now) (C.start circuits.now) (cells_of replay.entry)
        (looks_back_of pattern.now)) (stage_of lift.chain) limits.now) }
{
    let _ = reduce;
    let facts = facts_of(
        alloc,
        replay.cells(),
        asks_for_goal(pattern),
        looks_back(pattern),
        limits,
    )?;
    Ok(Lift {
        alloc,
        machine: CircuitMachine { circuits },
        replay,
        pattern,
        chain: Chain {
            constants: false,
            havoc: Numbers::new(alloc),
            cone: false,
        },
        facts,
        built: None,
    })
}

impl<'a, C: StepSource> Lift<'a, C> {
    /// Builds the circuit, unless it was built before.
    pub(crate) fn build_once(&mut self) -> Result<(), GateFault>
        ensures built { OnOk result (IsTrue (is_some self.new.built)) }
        ensures is_built { IfSome self.new.built (IsBuilt (C.step self.old.machine.circuits.now)
            (C.start self.old.machine.circuits.now)) }
        ensures within { OnOk result (gate_count (C.step self.old.machine.circuits.now).nodes
            ≤ MAX_BUILT_GATES) }
        ensures limit { result ≡ Err GateFault.Limit
            → MAX_BUILT_GATES < gate_count (C.step self.old.machine.circuits.now).nodes }
        ensures kept { IsTrue (is_some self.old.built) → IsTrue (is_some self.new.built) }
        ensures fixed { fixed_of self.new.machine self.new.replay self.new.pattern.now self.new.facts
            ≡ fixed_of self.old.machine self.old.replay self.old.pattern.now self.old.facts }
        ensures chain { self.new.chain ≡ self.old.chain }
    {
        if self.built.is_some() {
            return Ok(());
        }
        match Built::build(self.alloc, self.machine.circuits) {
            Ok(built) => {
                self.built = Some(built);
                Ok(())
            }
            Err(fault) => Err(fault),
        }
    }
}

fn oracle_fault(fault: GateFault) -> OracleFault
    ensures { result ≡ oracle_fault fault }
{
    match fault {
        GateFault::Limit => OracleFault::Gates,
        GateFault::NoMemory => OracleFault::NoMemory,
    }
}

impl<'a, C: StepSource> Oracle for Lift<'a, C> {
    ghost use Rattle.std.specs.Prelude.{Bool, List};
    ghost use Rattle.std.specs.Option.{is_some};
    ghost use Rattle.pv_mean.specs.declared.cell.Cell.{Cell};
    ghost use Rattle.pv_queries.specs.declared.machine.CircuitMachine.{CircuitMachine as A_machine};
    ghost use Rattle.pv_valid.specs.declared.facts.Facts.{Facts};
    ghost use Rattle.pv_lift.specs.Lifts.{fixed_of};
    ghost use Rattle.pv_lift.specs.Stages.{stage_of, encoding_of};
    ghost use Rattle.pv_lift.specs.Sound.{sound_of};

    type Source = CircuitMachine<'a, C>;

    ghost Fixed = { A_machine C × List Cell × Bool × Facts };

    ghost fixed = { λ o. fixed_of o.machine o.replay o.pattern.now o.facts };

    ghost source = { λ f. f.0 };

    ghost encoding = { λ f. encoding_of (C.machine f.0.circuits.now) (C.step f.0.circuits.now) (C.start f.0.circuits.now) f.1 f.2 };

    ghost stage = { λ o. stage_of o.chain };

    ghost is_ready = { λ o q. IsTrue (is_some o.built) };

    fn variables(&mut self, q: Query) -> Result<u32, OracleFault> {
        match self.build_once() {
            Ok(()) => once::count(&self.built, q),
            Err(fault) => Err(oracle_fault(fault)),
        }
    }

    fn push<D: Clauses>(&mut self, q: Query, into: &mut D) -> Result<(), PushFault> {
        once::push(&self.built, self.alloc, q, into)
    }

    fn chain(&self) -> &Chain {
        &self.chain
    }

    fn told<V: Values>(&mut self, q: Query, values: &V) -> Result<Told, AllocError> {
        let trace = once::told(
            &self.built,
            self.alloc,
            self.replay.cells(),
            q,
            self.machine.circuits.state_types(),
            self.machine.circuits.input_types(),
            values,
        )?;
        Ok(Told::Same(trace))
    }

    fn put_back(&mut self, cells: &[u32]) -> Result<(), AllocError> {
        let _ = cells;
        Ok(())
    }

    ghost sound = { λ o. sound_of (C.machine o.machine.circuits.now) (C.form o.machine.circuits.now) (C.start o.machine.circuits.now)
        (C.step o.machine.circuits.now) o.replay o.pattern.now o.lifted (C.kept o.machine.circuits.now)
        (C.steps o.machine.circuits.now) o.chain (λ q. IsTrue (is_some o.built)) };
}
