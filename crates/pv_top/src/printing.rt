//! Where the lines go that are told of an outcome, and what is kept of it.
ghost use Rattle.std.specs.Prelude.{◌≡◌, ◌≢◌, true, false};
ghost use Rattle.pv_edge.specs.Faults.{HasRisen};
ghost use Rattle.pv_top.specs.Outcomes.{silent_status};
ghost use Rattle.pv_top.specs.Printing.{PrintsLines, Prints, kept_if};

use crate::outcome::Told;
use pv_command_show::{NO_MEMORY, Status, WRITE_FAULT};
use pv_edge::{Sink, SinkFault, Text};

/// What became of the lines that are told of an outcome.
#[derive(Clone, Copy)]
pub(crate) struct Printed {
    /// The program's status.
    pub status: Status,
    /// Whether all of them were taken.
    pub whole: bool,
}

/// What becomes of an outcome of this status without lines: its certificate couldn't be written, or memory ended.
fn silent(status: Status) -> Printed
    ensures status { result.status ≡ silent_status status }
    ensures part { result.whole ≡ false }
{
    let status = if status == WRITE_FAULT {
        WRITE_FAULT
    } else {
        NO_MEMORY
    };
    Printed {
        status,
        whole: false,
    }
}

/// Offers lines to the sink until they are taken, with this status then.
fn offer<S: Sink>(out: &mut S, lines: &[u8], status: Status) -> Printed
    ensures prints { PrintsLines S.call status lines.now result (record {
      old = out.old;
      new = out.new;
      taken = S.taken out.old;
      taken_after = S.taken out.new;
    }) }
    ensures unwritten { result.status ≡ 7 → status ≢ 7 → HasRisen (S.faults out.old) (S.faults out.new) }
    ensures all_taken { result.status ≢ 7 → S.faults out.new ≡ S.faults out.old }
{
    match pv_edge::write_all(out, lines) {
        Ok(()) => Printed {
            status,
            whole: true,
        },
        Err(SinkFault::Failed) => Printed {
            status: WRITE_FAULT,
            whole: false,
        },
        Err(SinkFault::NoMemory) => Printed {
            status: NO_MEMORY,
            whole: false,
        },
    }
}

/// Offers to the sink what is told, until it is taken.
pub(crate) fn print<S: Sink>(out: &mut S, told: &Told) -> Printed
    ensures prints { Prints S.call told.now result (record {
      old = out.old;
      new = out.new;
      taken = S.taken out.old;
      taken_after = S.taken out.new;
    }) }
    ensures unwritten { result.status ≡ 7 → told.now.status ≢ 7 → HasRisen (S.faults out.old) (S.faults out.new) }
    ensures all_taken { result.status ≢ 7 → S.faults out.new ≡ S.faults out.old }
{
    match &told.text {
        Ok(lines) => offer(out, lines.as_slice(), told.status),
        Err(_) => silent(told.status),
    }
}

/// Keeps this, if it is there.
fn keep_all(kept: &mut Text, keep: Option<Text>)
    ensures { kept.new ≡ kept_if true keep kept.old }
{
    if let Some(evidence) = keep {
        *kept = evidence;
    }
}

/// Keeps what there is to keep, if all lines were taken.
pub(crate) fn keep(kept: &mut Text, told: Told, whole: bool)
    ensures { kept.new ≡ kept_if whole told.keep kept.old }
{
    if whole {
        keep_all(kept, told.keep);
    }
}
