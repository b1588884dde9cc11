//! The files and the standard output of the host. They tell no bytes.
ghost use Rattle.std.specs.Prelude.{◌≡◌, ◌≤◌, ◌↔◌, length, None, Ok, Err, IfOk, IfErr, IfSome, IsErrOf, IsOkAnd, OnOk, MatchResult};
ghost use Rattle.std.specs.IoError.{error_kind};
ghost use Rattle.std.specs.Bool.{OnTrue, OnFalse};
ghost use Rattle.std.specs.Io.KnownBytes.{Appends};
ghost use Rattle.pv_edge.specs.Calls.{next_count};
ghost use Rattle.pv_edge.specs.Faults.{last_count};
ghost use Rattle.pv_edge.specs.Sink.{AppendsPart, faults_after};

use crate::counts::next;
use crate::made::told_name;
use crate::outside::{FileFault, Files, Sink, SinkFault};
use crate::words::Text;
use std::alloc::Global;
use std::fs;
use std::io::{self, ErrorKind, Read, Write};

/// The most calls of the system for one file, each of which reads or writes a byte at least, but for
/// the last one. A file that would take more is a fault.
const TURNS: u64 = 4_294_967_296;

/// How many bytes a read asks for.
const CHUNK: usize = 16_384;

/// The files of the host, over a runtime. Where the system itself has no memory for a read, the
/// answer is want of memory; at a write it is a fault, since the file may have changed.
#[derive(Drop)]
pub struct HostFiles<R> {
    /// The runtime.
    pub rt: R,
    /// How many reads failed. It stays at its last value.
    pub read_faults: u64,
    /// The name of the last read that failed, none where memory ended for it.
    pub unread: Option<Text>,
    /// How many writes failed. It stays at its last value.
    pub write_faults: u64,
}

/// The standard output of the host, over a runtime.
#[derive(Drop)]
pub struct HostOut<R> {
    /// The runtime.
    pub rt: R,
    /// How many calls failed or took nothing of what there was. It stays at its last value.
    pub faults: u64,
}

/// What an error of the system is: its own want of memory is want of memory here.
fn read_fault(error: &io::Error) -> FileFault
    ensures { (result ≡ FileFault.NoMemory) ↔ (error_kind error.now ≡ ErrorKind.OutOfMemory) }
{
    match error.kind() {
        ErrorKind::OutOfMemory => FileFault::NoMemory,
        _ => FileFault::Failed,
    }
}

/// All bytes of a reader up to its end.
fn read_all<R: Read>(alloc: Global, file: &mut R) -> Result<Vec<u8>, FileFault>
    ensures { IfOk result (λ bytes. IfSome (R.remaining file.old) (λ left. bytes.items ≡ left)) }
{
    let mut bytes = Vec::new(alloc);
    let mut buffer = [0u8; CHUNK];
    for _ in 0..TURNS {
        let n = match file.read(&mut buffer) {
            Ok(n) => n,
            Err(error) => return Err(read_fault(&error)),
        };
        if n == 0 {
            return Ok(bytes);
        }
        bytes.extend_from_slice(&buffer[..n])?;
    }
    Err(FileFault::Failed)
}

/// Whether a writer took all of the bytes. Else it took a prefix of them.
fn write_whole<W: Write>(file: &mut W, bytes: &[u8]) -> bool
    ensures all { OnTrue result (Appends (W.contents file.old) (W.contents file.new) bytes.now) }
    ensures part { OnFalse result (AppendsPart bytes.now (W.contents file.old) (W.contents file.new)) }
{
    let mut rest = bytes;
    for _ in 0..TURNS {
        if rest.is_empty() {
            return true;
        }
        let Ok(n) = file.write(rest) else {
            return false;
        };
        if n == 0 {
            return false;
        }
        let (_, left) = rest.split_at(n);
        rest = left;
    }
    rest.is_empty()
}

/// All bytes of a file that the system opened, or what its error is.
fn read_opened<F: Read + Drop>(alloc: Global, opened: io::Result<F>) -> Result<Vec<u8>, FileFault>
    ensures whole { IfOk result (λ bytes. IsOkAnd opened (λ file.
        IfSome (F.remaining file) (λ left. bytes.items ≡ left))) }
    ensures kind { IfErr opened (λ error.
        IsErrOf result FileFault.NoMemory ↔ (error_kind error ≡ ErrorKind.OutOfMemory)) }
{
    match opened {
        Ok(mut file) => read_all(alloc, &mut file),
        Err(error) => Err(read_fault(&error)),
    }
}

/// Whether the system opened a file and it took all of the bytes.
fn write_opened<F: Write>(opened: &mut io::Result<F>, bytes: &[u8]) -> bool
    ensures { OnTrue result (IsOkAnd opened.old (λ old. IsOkAnd opened.new (λ new.
        Appends (F.contents old) (F.contents new) bytes.now))) }
{
    match opened {
        Ok(file) => write_whole(file, bytes),
        Err(_) => false,
    }
}

/// What a sink answers where the system says this of a write.
fn taken(written: io::Result<usize>) -> Result<usize, SinkFault>
    ensures { MatchResult written (λ n. result ≡ Ok n) (λ _. result ≡ Err SinkFault.Failed) }
{
    match written {
        Ok(n) => Ok(n),
        Err(_) => Err(SinkFault::Failed),
    }
}

/// The count of faults behind this answer to an offer of so many bytes.
fn counted(faults: u64, offered: usize, answer: &Result<usize, SinkFault>) -> u64
    ensures { result ≡ faults_after offered answer.now faults }
{
    match answer {
        Ok(n) if *n == 0 && offered > 0 => next(faults),
        Ok(_) | Err(SinkFault::NoMemory) => faults,
        Err(SinkFault::Failed) => next(faults),
    }
}

impl<R: std::rt::Files> Files for HostFiles<R> {
    ghost told = { λ _. None };

    ghost read_faults = { λ host. host.read_faults };

    ghost unread = { λ host. host.unread };

    ghost write_faults = { λ host. host.write_faults };

    fn read(&mut self, alloc: Global, name: &str) -> Result<Vec<u8>, FileFault>
        ensures after_ok { OnOk result (self.new ≡ self.old) }
        ensures after_failed { IsErrOf result FileFault.Failed → self.new
            ≡ record self.old { read_faults = next_count self.old.read_faults; unread = self.new.unread } }
        ensures told { IsErrOf result FileFault.Failed → IfSome self.new.unread (λ unread. unread ≡ name.now) }
        ensures after_no_memory { IsErrOf result FileFault.NoMemory → self.new ≡ self.old }
        ensures never_falls { self.old.read_faults ≤ self.new.read_faults }
        ensures counted { self.new.read_faults ≤ last_count }
    {
        let faults = self.read_faults;
        let read = read_opened(alloc, fs::open(&self.rt, name));
        if let Err(FileFault::Failed) = read {
            self.read_faults = next(faults);
            self.unread = told_name(alloc, name);
        }
        read
    }

    fn write(&mut self, _alloc: Global, name: &str, bytes: &[u8]) -> Result<(), FileFault>
        ensures after_ok { OnOk result (self.new ≡ self.old) }
        ensures after_failed { IsErrOf result FileFault.Failed
            → self.new ≡ record self.old { write_faults = next_count self.old.write_faults } }
        ensures no_memory { ¬ IsErrOf result FileFault.NoMemory }
        ensures never_falls { self.old.write_faults ≤ self.new.write_faults }
        ensures counted { self.new.write_faults ≤ last_count }
    {
        let faults = self.write_faults;
        let mut opened = fs::create(&self.rt, name);
        if write_opened(&mut opened, bytes) {
            return Ok(());
        }
        self.write_faults = next(faults);
        Err(FileFault::Failed)
    }
}

impl<R: Print> Sink for HostOut<R> {
    ghost taken = { λ _. None };

    ghost faults = { λ host. host.faults };

    ghost call = { λ bytes answer old new. new ≡ record old { faults = faults_after (length bytes) answer old.faults } };

    fn write(&mut self, bytes: &[u8]) -> Result<usize, SinkFault>
        ensures within { IfOk result (λ n. n ≤ length bytes.now) }
        ensures after { self.new
            ≡ record self.old { faults = faults_after (length bytes.now) result self.old.faults } }
        ensures no_memory { ¬ IsErrOf result SinkFault.NoMemory }
        ensures never_falls { self.old.faults ≤ self.new.faults }
        ensures counted { self.new.faults ≤ last_count }
    {
        let faults = self.faults;
        let answer = taken(self.rt.write_some(bytes));
        self.faults = counted(faults, bytes.len(), &answer);
        answer
    }
}
