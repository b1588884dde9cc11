//! What a run of the program comes to: its status, its text, and what is kept of it.
ghost use Rattle.std.specs.Prelude.{◌≡◌, Some, None, IfOk, string_bytes};
ghost use Rattle.std.specs.Result.{IsOkAnd};
ghost use Rattle.pv_top.specs.Outcomes.{status_of, text_of, keeps_of};
ghost use Rattle.pv_command_show.specs.Handed.{stop_status, stop_text};
ghost use Rattle.pv_top.specs.declared.outcome.Outcome.TheVariants.{Check as Is_check, Replay as Is_replay, Recheck as Is_recheck, Show as Is_show};

use pv_command_check::{CheckStop, Checked};
use pv_command_recheck::{RecheckStop, Rechecked};
use pv_command_show::{ReplayStop, Replayed, Shown, Status, WORDS_REFUSED};
use pv_edge::Text;
use std::alloc::{AllocError, Global};

/// What the words come to.
#[derive(Drop)]
pub enum Outcome {
    /// The words have none of the forms.
    NoCommand,
    Check(Result<Checked, CheckStop>),
    Replay(Result<Replayed, ReplayStop>),
    Recheck(Result<Rechecked, RecheckStop>),
    Show(Result<Shown, ReplayStop>),
}

/// What is told of an outcome.
#[derive(Drop)]
pub struct Told {
    pub status: Status,
    /// The lines for the sink, each ended by a line feed; an error where memory ends or ended before, or where nothing is to be printed, as
    /// a certificate couldn't be written.
    pub text: Result<Vec<u8>, AllocError>,
    /// What is kept once these lines are taken whole.
    pub keep: Option<Text>,
}

/// What is told of an outcome of which nothing is kept.
fn unkept(status: Status, text: Result<Vec<u8>, AllocError>) -> Told
    ensures status { result.status ≡ status }
    ensures text { result.text ≡ text }
    ensures keep { result.keep ≡ None }
{
    Told {
        status,
        text,
        keep: None,
    }
}

/// What is told of a check.
fn checked(alloc: Global, came: Result<Checked, CheckStop>) -> Told
    ensures status { result.status ≡ status_of (Is_check came) }
    ensures text { IfOk result.text (λ text. text_of (Is_check came) ≡ Some text.items) }
    ensures keep { result.keep ≡ keeps_of (Is_check came) }
{
    match came {
        Ok(verdict) => {
            let status = verdict.status();
            Told {
                status,
                text: Ok(verdict.report),
                keep: Some(verdict.certificate),
            }
        }
        Err(stop) => {
            let status = stop.status();
            let text = bytes_of(stop.text(alloc));
            Told {
                status,
                text,
                keep: stop.into_chain(),
            }
        }
    }
}

/// What is told of a recheck.
fn rechecked(alloc: Global, came: Result<Rechecked, RecheckStop>) -> Told
    ensures status { result.status ≡ status_of (Is_recheck came) }
    ensures text { IfOk result.text (λ text. text_of (Is_recheck came) ≡ Some text.items) }
    ensures keep { result.keep ≡ keeps_of (Is_recheck came) }
{
    match came {
        Ok(verdict) => {
            let status = verdict.status();
            unkept(status, Ok(verdict.report))
        }
        Err(stop) => {
            let told = unkept(stop.status(), bytes_of(stop.text(alloc)));
            drop(stop);
            told
        }
    }
}

/// What is told of a replay.
fn replayed(alloc: Global, came: Result<Replayed, ReplayStop>) -> Told
    ensures status { result.status ≡ status_of (Is_replay came) }
    ensures text { IfOk result.text (λ text. text_of (Is_replay came) ≡ Some text.items) }
    ensures keep { result.keep ≡ keeps_of (Is_replay came) }
{
    match came {
        Ok(report) => {
            let told = unkept(report.status(), bytes_of(report.text(alloc)));
            drop(report);
            told
        }
        Err(stop) => stopped(alloc, stop),
    }
}

/// What is told of a show.
fn shown(alloc: Global, came: Result<Shown, ReplayStop>) -> Told
    ensures status { result.status ≡ status_of (Is_show came) }
    ensures text { IfOk result.text (λ text. text_of (Is_show came) ≡ Some text.items) }
    ensures keep { result.keep ≡ keeps_of (Is_show came) }
{
    match came {
        Ok(report) => {
            let told = unkept(report.status(), report.text(alloc));
            drop(report);
            told
        }
        Err(stop) => stopped(alloc, stop),
    }
}

/// What is told of a command that replays and stops so.
fn stopped(alloc: Global, stop: ReplayStop) -> Told
    ensures status { result.status ≡ stop_status stop }
    ensures text { IfOk result.text (λ text. stop_text stop ≡ Some text.items) }
    ensures keep { result.keep ≡ None }
{
    let told = unkept(stop.status(), bytes_of(stop.text(alloc)));
    drop(stop);
    told
}

impl Outcome {
    /// Its status, its lines, and what is kept of it.
    pub fn told(self, alloc: Global) -> Told
        ensures status { result.status ≡ status_of self }
        ensures text { IfOk result.text (λ text. text_of self ≡ Some text.items) }
        ensures keep { result.keep ≡ keeps_of self }
    {
        match self {
            Outcome::NoCommand => unkept(
                WORDS_REFUSED,
                bytes_of(String::from_str(alloc, "plcv: words\n")),
            ),
            Outcome::Check(result) => checked(alloc, result),
            Outcome::Replay(result) => replayed(alloc, result),
            Outcome::Recheck(result) => rechecked(alloc, result),
            Outcome::Show(result) => shown(alloc, result),
        }
    }
}

/// The bytes of a text that was made, or was not.
fn bytes_of(text: Result<String, AllocError>) -> Result<Vec<u8>, AllocError>
    ensures { IfOk result (λ bytes. IsOkAnd text (λ t. bytes.items ≡ string_bytes t)) }
{
    Ok(text?.into_bytes())
}
