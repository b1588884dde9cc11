//! Copies of logs and chains, for proofs.
ghost use Rattle.std.specs.Prelude.{◌≡◌, ◌-◌, ◌<◌, ◌≤◌, ◌∷◌, [], ◌++◌, Some, length, slice_get, IfOk, OnOk, OnErr};
ghost use Rattle.pv_kind.specs.Refinements.{Stage};

use crate::oracle::Oracle;
use pv_cert::{Chain, Proof, Proofs, Query};
use pv_log::{Line, Log, LogView, Numbers};
use std::alloc::{AllocError, Global};

/// A line with these parts.
fn line(alloc: Global, id: u32, lits: &[u32], hints: &[u32]) -> Result<Line, AllocError>
    ensures { IfOk result (λ line. line ≡ record { id = id; lits = lits.now; hints = hints.now }) }
{
    let lits = Numbers::from_slice(alloc, lits)?;
    let hints = Numbers::from_slice(alloc, hints)?;
    Ok(Line { id, lits, hints })
}

/// The same line.
pub(crate) fn copied_line(alloc: Global, from: &Line) -> Result<Line, AllocError>
    ensures { IfOk result (λ line. line ≡ from.now) }
{
    line(alloc, from.id, from.lits.as_slice(), from.hints.as_slice())
}

/// Line `n` of a log, from 1.
fn line_at<L: LogView>(alloc: Global, log: &L, n: u32) -> Result<Line, AllocError>
    requires from_one { 0 < n }
    requires to_last { n ≤ length (L.all_lines log.now) }
    ensures { IfOk result (λ line. slice_get (L.all_lines log.now) (n - 1) ≡ Some line) }
{
    line(alloc, log.id(n), log.lits(n), log.hints(n))
}

/// The same lines.
fn copied_log<L: LogView>(alloc: Global, from: &L) -> Result<Log, AllocError>
    ensures { IfOk result (λ log. log ≡ L.all_lines from.now) }
{
    let mut log = Log::new(alloc);
    for n in 0..from.lines() {
        log.push(line_at(alloc, from, n + 1)?)?;
    }
    Ok(log)
}

/// The same chain.
fn copied_chain(alloc: Global, from: &Chain) -> Result<Chain, AllocError>
    ensures { IfOk result (λ chain. chain ≡ from.now) }
{
    let havoc = Numbers::from_slice(alloc, from.havoc.as_slice())?;
    Ok(Chain {
        constants: from.constants,
        havoc,
        cone: from.cone,
    })
}

/// Adds a proof of the query under the present chain, with this log.
pub(crate) fn add_proof<O: Oracle, L: LogView>(
    alloc: Global,
    oracle: &O,
    q: Query,
    log: &L,
    proofs: &mut Proofs,
) -> Result<(), AllocError>
    ensures ok { OnOk result (proofs.new ≡ proofs.old
        ++ record { query = q; chain = (O.stage oracle.now).chain; log = L.all_lines log.now } ∷ []) }
    ensures err { OnErr result (proofs.new ≡ proofs.old) }
{
    let chain = copied_chain(alloc, oracle.chain())?;
    let log = copied_log(alloc, log)?;
    proofs.push(Proof {
        query: q,
        chain,
        log,
    })
}
