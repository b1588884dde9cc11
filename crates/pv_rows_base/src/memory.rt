//! Files and a sink in memory, step by step.
use pv_edge::{FileFault, Files, MemFiles, MemSink, Sink, SinkFault, write_all};
use pv_rows_form::Told;
use std::alloc::{AllocError, Global};

fn tell_read(read: Result<Vec<u8>, FileFault>, told: &mut Told) {
    match read {
        Ok(bytes) => told.bytes(bytes.as_slice()),
        Err(FileFault::Failed) => told.text("failed"),
        Err(FileFault::NoMemory) => told.lose(),
    }
}

fn tell_written(written: Result<(), FileFault>, told: &mut Told) {
    match written {
        Ok(()) => told.text("written"),
        Err(FileFault::Failed) => told.text("failed"),
        Err(FileFault::NoMemory) => told.lose(),
    }
}

/// Reads a file of this name, or writes it.
fn tell_file(files: &mut MemFiles, step: &str, told: &mut Told) {
    let alloc = told.alloc();
    let (word, more) = step.split_once(' ').unwrap_or((step, ""));
    let (name, said) = more.split_once(' ').unwrap_or((more, ""));
    if word == "read" {
        tell_read(files.read(alloc, name), told);
    } else {
        tell_written(files.write(alloc, name, said.as_bytes()), told);
    }
}

fn tell_counts(files: &MemFiles, told: &mut Told) {
    told.text("files ");
    told.number(files.files.len() as i128);
    told.text(", calls ");
    told.number(i128::from(files.calls));
    told.text(", faults ");
    told.number(i128::from(files.read_faults));
    told.text(" ");
    told.number(i128::from(files.write_faults));
}

/// The numbers of calls, with blanks between them.
fn calls(alloc: Global, said: &str) -> Result<Vec<u64>, AllocError> {
    let mut list = Vec::new(alloc);
    for word in said.split(' ') {
        if let Ok(number) = word.parse::<u64>() {
            list.push(number)?;
        }
    }
    Ok(list)
}

/// Files that fail at these calls.
fn files(alloc: Global, failing: &str) -> Result<MemFiles, AllocError> {
    Ok(MemFiles {
        files: Vec::new(alloc),
        calls: 0,
        fail_at: calls(alloc, failing)?,
        read_faults: 0,
        unread: None,
        write_faults: 0,
    })
}

/// What each step says of files that fail at these calls, and in the end how many there are, how many calls there were, and the faults.
pub fn tell_files(failing: &str, steps: &str, told: &mut Told) {
    match files(told.alloc(), failing) {
        Ok(made) => {
            let mut files = made;
            for step in steps.split(',') {
                tell_file(&mut files, step.trim(), told);
                told.text(", ");
            }
            tell_counts(&files, told);
        }
        Err(_) => told.lose(),
    }
}

fn tell_taken(taken: Result<usize, SinkFault>, told: &mut Told) {
    match taken {
        Ok(n) => told.number(n as i128),
        Err(SinkFault::Failed) => told.text("failed"),
        Err(SinkFault::NoMemory) => told.lose(),
    }
}

fn tell_offered(offered: Result<(), SinkFault>, told: &mut Told) {
    match offered {
        Ok(()) => told.text("whole"),
        Err(SinkFault::Failed) => told.text("failed"),
        Err(SinkFault::NoMemory) => told.lose(),
    }
}

/// Offers bytes once, or until all are taken; the calls and faults so far.
fn tell_sink_step(sink: &mut MemSink, step: &str, told: &mut Told) {
    let (word, said) = step.split_once(' ').unwrap_or((step, ""));
    if word == "once" {
        tell_taken(sink.write(said.as_bytes()), told);
    } else {
        tell_offered(write_all(sink, said.as_bytes()), told);
    }
    told.text(" ");
    told.number(i128::from(sink.calls));
    told.text(" ");
    told.number(i128::from(sink.faults));
    told.text(", ");
}

/// A sink that takes pieces of this size and fails at these calls.
fn sink(alloc: Global, piece: &str, failing: &str) -> Result<MemSink, AllocError> {
    Ok(MemSink {
        taken: Vec::new(alloc),
        piece: piece.parse::<usize>().unwrap_or(0),
        calls: 0,
        fail_at: calls(alloc, failing)?,
        faults: 0,
    })
}

/// What each step says of a sink of this piece that fails at these calls, and in the end what it has taken.
pub fn tell_sink(limits: &str, steps: &str, told: &mut Told) {
    let (piece, failing) = limits.split_once(' ').unwrap_or((limits, ""));
    match sink(told.alloc(), piece, failing) {
        Ok(made) => {
            let mut sink = made;
            for step in steps.split(',') {
                tell_sink_step(&mut sink, step.trim(), told);
            }
            told.text("taken `");
            told.bytes(sink.taken.as_slice());
            told.text("`");
        }
        Err(_) => told.lose(),
    }
}
