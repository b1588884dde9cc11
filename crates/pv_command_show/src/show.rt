//! The command `show CASE TRACE`.
ghost use Rattle.std.specs.Prelude.{◌≡◌, Ok, Some, IfOk};
ghost use Rattle.pv_command_replay.specs.Handed.{Counts, IsUnread};
ghost use Rattle.pv_command_show.specs.Shows.{SaysShow, show_status, show_unread, shown_text};

use crate::scans::scans_of;
use pv_command_replay::{ReplayStop, Replayed, Status, end_lines, run_in};
use pv_edge::Files;
use pv_mean::laws::views_keep_paths_types_and_starts;
use std::alloc::{AllocError, Global};

/// What a show prints.
#[derive(Drop)]
pub struct Shown {
    /// What a replay reports.
    pub replayed: Replayed,
    /// The lines of the scans.
    pub scans: Vec<u8>,
}

impl Shown {
    pub fn status(&self) -> Status
        ensures { result ≡ show_status (Ok self.now) }
    {
        self.replayed.status()
    }

    /// The whole text. Paths have the bytes of their source, so it needn't be UTF-8.
    pub fn text(&self, alloc: Global) -> Result<Vec<u8>, AllocError>
        ensures { IfOk result (λ text. shown_text (Ok self.now) ≡ Some text.items) }
    {
        let ending = end_lines(alloc, self.replayed.sources.as_slice(), self.replayed.end)?;
        let mut text = Vec::new(alloc);
        text.extend_from_slice(b"PLCV 1\ncase ")?;
        text.extend_from_slice(self.replayed.case.as_bytes())?;
        text.push(b'\n')?;
        text.extend_from_slice(self.scans.as_slice())?;
        text.extend_from_slice(ending.as_bytes())?;
        Ok(text)
    }
}

/// Runs the trace on the case's project as a replay does, and tells what each scan does, up to the one by which the replay ends. What a replay
/// refuses is refused so.
pub fn show_in<F: Files>(
    alloc: Global,
    files: &mut F,
    case_file: &str,
    trace_file: &str,
) -> Result<Shown, ReplayStop>
    ensures files { F.told files.new ≡ F.told files.old }
    ensures says { SaysShow (F.told files.old) case_file.now trace_file.now result }
    ensures counted { Counts (show_status result) (F.read_faults files.old) (F.read_faults files.new) }
    ensures named { IsUnread (show_unread result) (F.unread files.new) }
    ensures writes { F.write_faults files.new ≡ F.write_faults files.old }
{
    views_keep_paths_types_and_starts();
    let ran = run_in(alloc, files, case_file, trace_file)?;
    let scans = scans_of(alloc, &ran.subject, &ran.trace, ran.end)?;
    Ok(Shown {
        replayed: ran.reported(),
        scans,
    })
}
