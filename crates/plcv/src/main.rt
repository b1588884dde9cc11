//! plcv: a requirement verifier for S7-300/400 programs. The program hands the host's files and
//! standard output to `pv_top::run`, and ends with its status.
#![tactic(auto)]

use pv_edge::{HostFiles, HostOut, Text};
use pv_top::Status;
use std::process::ExitCode;
use std::{env, io};

/// The status where not even the list of words can be made.
const NO_MEMORY: Status = 9;

fn main(rt: HostRuntime) -> ExitCode {
    match words(&rt) {
        Ok(words) => ExitCode::from(run(&rt, &words)),
        Err(_) => ExitCode::from(NO_MEMORY),
    }
}

/// The words after the program's own name.
fn words(rt: &HostRuntime) -> io::Result<Vec<String>> {
    let mut words = Vec::new(rt.alloc());
    for word in env::args(rt)?.skip(1) {
        if words.push(word).is_err() {
            return Err(io::Error::from(io::ErrorKind::OutOfMemory));
        }
    }
    Ok(words)
}

fn run(rt: &HostRuntime, words: &[String]) -> Status {
    let mut files = HostFiles {
        rt,
        read_faults: 0,
        unread: None,
        write_faults: 0,
    };
    let mut out = HostOut { rt, faults: 0 };
    let mut kept = Text::from(Vec::new(rt.alloc()));
    pv_top::run(rt.alloc(), words, &mut files, &mut out, &mut kept)
}
