//! Files and a sink in memory, which tell all that they hold and fail at the calls that they are told to.
ghost use Rattle.std.specs.Prelude.{◌≡◌, ◌<◌, ◌≤◌, ◌↔◌, IfOk, IfSome, IfNone, IsErrOf, OnOk, OnErr, Some, None, length, take, min, IsTrue, ◌==◌, ◌&&◌, ◌++◌, nat_lt, [], if◌then◌else◌};
ghost use Rattle.pv_edge.specs.Faults.{last_count};
ghost use Rattle.pv_edge.specs.Calls.{next_count, is_failing};
ghost use Rattle.pv_edge.specs.Files.{Puts};
ghost use Rattle.pv_edge.specs.Sink.{IsPiece};
ghost use Rattle.pv_edge.specs.Entries.{entries, file_at, put, index_of, next_read};

use crate::counts::next;
use crate::made::{text, told_name};
use crate::outside::{FileFault, Files, Sink, SinkFault};
use crate::words::Text;
use std::alloc::{AllocError, Global};

/// Files in memory. The first entry of a name counts.
#[derive(Drop)]
pub struct MemFiles {
    /// The files: names and bytes.
    pub files: Vec<(Text, Vec<u8>)>,
    /// How many calls were made, reads and writes. It stays at its last value.
    pub calls: u64,
    /// The numbers of the calls that fail, from 1.
    pub fail_at: Vec<u64>,
    /// How many reads failed. It stays at its last value.
    pub read_faults: u64,
    /// The name of the last read that failed, none where memory ended for it.
    pub unread: Option<Text>,
    /// How many writes failed. It stays at its last value.
    pub write_faults: u64,
}

/// A sink in memory.
#[derive(Drop)]
pub struct MemSink {
    /// The bytes taken so far.
    pub taken: Vec<u8>,
    /// The most bytes that one call takes.
    pub piece: usize,
    /// How many calls were made. It stays at its last value.
    pub calls: u64,
    /// The numbers of the calls that fail, from 1.
    pub fail_at: Vec<u64>,
    /// How many calls failed or took nothing of what there was. It stays at its last value.
    pub faults: u64,
}

/// Whether the call after this many is to fail.
fn is_due(fail_at: &[u64], calls: u64) -> bool
    ensures { result ≡ is_failing fail_at.now calls }
{
    fail_at.contains(&next(calls))
}

/// Where the first entry of a name stands.
fn find(files: &[(Text, Vec<u8>)], name: &str) -> Option<usize>
    ensures none { IfNone result (index_of files.now name.now ≡ length files.now) }
    ensures some { IfSome result (λ i. i ≡ index_of files.now name.now) }
    ensures within { IfSome result (λ i. i < length files.now) }
{
    for (i, file) in files.iter().enumerate() {
        if file.0.bytes() == name.as_bytes() {
            return Some(i);
        }
    }
    None
}

/// A copy of the bytes that a name holds.
fn copy_of(alloc: Global, files: &[(Text, Vec<u8>)], name: &str) -> Result<Vec<u8>, FileFault>
    ensures held { IfOk result (λ bytes. file_at (entries files.now) name.now ≡ Some bytes.items) }
    ensures missing { IsErrOf result FileFault.Failed ↔ (file_at (entries files.now) name.now ≡ None) }
{
    match find(files, name) {
        None => Err(FileFault::Failed),
        Some(i) => match Vec::from_slice(alloc, files[i].1.as_slice()) {
            Ok(bytes) => Ok(bytes),
            Err(_) => Err(FileFault::NoMemory),
        },
    }
}

/// A copy of the bytes that a name holds, or a fault at the calls that are to fail.
fn copy_at_call(
    alloc: Global,
    fail_at: &[u64],
    calls: u64,
    files: &[(Text, Vec<u8>)],
    name: &str,
) -> Result<Vec<u8>, FileFault>
    ensures held { IfOk result (λ bytes.
        next_read fail_at.now calls (file_at (entries files.now)) name.now ≡ Some bytes.items) }
    ensures failed { IsErrOf result FileFault.Failed
        ↔ (next_read fail_at.now calls (file_at (entries files.now)) name.now ≡ None) }
{
    if is_due(fail_at, calls) {
        return Err(FileFault::Failed);
    }
    copy_of(alloc, files, name)
}

/// Makes a name hold these bytes.
fn put_bytes(
    alloc: Global,
    files: &mut Vec<(Text, Vec<u8>)>,
    name: &str,
    bytes: &[u8],
) -> Result<(), AllocError>
    ensures ok { OnOk result (entries files.new.items ≡ put name.now bytes.now (entries files.old.items)) }
    ensures err { OnErr result (files.new.items ≡ files.old.items) }
{
    let copy = Vec::from_slice(alloc, bytes)?;
    match find(files.as_slice(), name) {
        None => {
            let name = text(alloc, name.as_bytes())?;
            files.push((name, copy))?;
        }
        Some(i) => {
            let file = &mut files[i];
            file.1 = copy;
        }
    }
    Ok(())
}

impl Files for MemFiles {
    ghost told = { λ memory. Some (file_at (entries memory.files.items)) };

    ghost read_faults = { λ memory. memory.read_faults };

    ghost unread = { λ memory. memory.unread };

    ghost write_faults = { λ memory. memory.write_faults };

    fn read(&mut self, alloc: Global, name: &str) -> Result<Vec<u8>, FileFault>
        ensures ok { IfOk result (λ bytes. next_read self.old.fail_at.items self.old.calls
            (file_at (entries self.old.files.items)) name.now ≡ Some bytes.items) }
        ensures failed { IsErrOf result FileFault.Failed ↔ (next_read self.old.fail_at.items self.old.calls
            (file_at (entries self.old.files.items)) name.now ≡ None) }
        ensures after_ok { OnOk result (self.new ≡ record self.old { calls = next_count self.old.calls }) }
        ensures after_failed { IsErrOf result FileFault.Failed → self.new ≡ record self.old {
          calls = next_count self.old.calls;
          read_faults = next_count self.old.read_faults;
          unread = self.new.unread;
        } }
        ensures told { IsErrOf result FileFault.Failed → IfSome self.new.unread (λ unread. unread ≡ name.now) }
        ensures after_no_memory { IsErrOf result FileFault.NoMemory → self.new ≡ self.old }
        ensures never_falls { self.old.read_faults ≤ self.new.read_faults }
        ensures counted { self.new.read_faults ≤ last_count }
        ensures only_missing { self.old.fail_at.items ≡ [] → IsErrOf result FileFault.Failed
            → file_at (entries self.old.files.items) name.now ≡ None }
    {
        let faults = self.read_faults;
        match copy_at_call(
            alloc,
            &self.fail_at,
            self.calls,
            self.files.as_slice(),
            name,
        ) {
            Ok(bytes) => {
                self.calls = next(self.calls);
                Ok(bytes)
            }
            Err(FileFault::Failed) => {
                self.calls = next(self.calls);
                self.read_faults = next(faults);
                self.unread = told_name(alloc, name);
                Err(FileFault::Failed)
            }
            Err(FileFault::NoMemory) => Err(FileFault::NoMemory),
        }
    }

    fn write(&mut self, alloc: Global, name: &str, bytes: &[u8]) -> Result<(), FileFault>
        ensures ok { OnOk result (entries self.new.files.items
            ≡ put name.now bytes.now (entries self.old.files.items)) }
        ensures failed { IsErrOf result FileFault.Failed
            ↔ IsTrue (is_failing self.old.fail_at.items self.old.calls) }
        ensures after_ok { OnOk result (self.new
            ≡ record self.old { files = self.new.files; calls = next_count self.old.calls }) }
        ensures after_failed { IsErrOf result FileFault.Failed → self.new
            ≡ record self.old { calls = next_count self.old.calls; write_faults = next_count self.old.write_faults } }
        ensures after_no_memory { IsErrOf result FileFault.NoMemory
            → self.new ≡ record self.old { files = self.new.files } }
        ensures no_memory { IsErrOf result FileFault.NoMemory → self.new.files.items ≡ self.old.files.items }
        ensures puts { OnOk result (Puts name.now bytes.now
            (file_at (entries self.old.files.items)) (file_at (entries self.new.files.items))) }
        ensures never_falls { self.old.write_faults ≤ self.new.write_faults }
        ensures counted { self.new.write_faults ≤ last_count }
        ensures never_fails { self.old.fail_at.items ≡ [] → ¬ IsErrOf result FileFault.Failed }
    {
        let faults = self.write_faults;
        if is_due(&self.fail_at, self.calls) {
            self.calls = next(self.calls);
            self.write_faults = next(faults);
            return Err(FileFault::Failed);
        }
        match put_bytes(alloc, &mut self.files, name, bytes) {
            Ok(()) => {
                self.calls = next(self.calls);
                Ok(())
            }
            Err(_) => Err(FileFault::NoMemory),
        }
    }
}

impl Sink for MemSink {
    ghost taken = { λ memory. Some memory.taken.items };

    ghost faults = { λ memory. memory.faults };

    ghost call = { λ bytes answer old new. IfOk answer (λ n. IsPiece n bytes old.piece old.calls new.piece new.calls) };

    fn write(&mut self, bytes: &[u8]) -> Result<usize, SinkFault>
        ensures ok { IfOk result (λ n. n ≡ min (length bytes.now) self.old.piece) }
        ensures taken { IfOk result (λ n. self.new.taken.items ≡ self.old.taken.items ++ take n bytes.now) }
        ensures failed { IsErrOf result SinkFault.Failed
            ↔ IsTrue (is_failing self.old.fail_at.items self.old.calls) }
        ensures after_ok { IfOk result (λ n. self.new ≡ record self.old {
          taken = self.new.taken;
          calls = next_count self.old.calls;
          faults = if n == 0 && nat_lt 0 (length bytes.now)
              then next_count self.old.faults else self.old.faults;
        }) }
        ensures after_failed { IsErrOf result SinkFault.Failed → self.new
            ≡ record self.old { calls = next_count self.old.calls; faults = next_count self.old.faults } }
        ensures after_no_memory { IsErrOf result SinkFault.NoMemory
            → self.new ≡ record self.old { taken = self.new.taken } }
        ensures no_memory { IsErrOf result SinkFault.NoMemory → self.new.taken.items ≡ self.old.taken.items }
        ensures never_falls { self.old.faults ≤ self.new.faults }
        ensures counted { self.new.faults ≤ last_count }
        ensures never_fails { self.old.fail_at.items ≡ [] → ¬ IsErrOf result SinkFault.Failed }
        ensures never_stalls { 0 < self.old.piece → OnOk result (self.new.faults ≡ self.old.faults) }
    {
        let faults = self.faults;
        if is_due(&self.fail_at, self.calls) {
            self.calls = next(self.calls);
            self.faults = next(faults);
            return Err(SinkFault::Failed);
        }
        let n = bytes.len().min(self.piece);
        match self.taken.extend_from_slice(&bytes[..n]) {
            Ok(()) => {
                self.calls = next(self.calls);
                if n == 0 && !bytes.is_empty() {
                    self.faults = next(faults);
                }
                Ok(n)
            }
            Err(_) => Err(SinkFault::NoMemory),
        }
    }
}
