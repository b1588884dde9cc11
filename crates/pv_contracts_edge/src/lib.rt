//! Contract tests of pv_edge: each call once more, with the clauses of the library.
#![tactic(auto)]

ghost use Rattle.std.specs.Prelude.{◌≡◌, ◌<◌, ◌≤◌, ◌↔◌, ◌++◌, ◌==◌, ◌&&◌, [], IfErr, IfOk, IfSome, IsErr, IsErrOf, IsTrue, None, OnErr, OnOk, Some, if◌then◌else◌, length, min, nat_lt, take};
ghost use Rattle.pv_edge.specs.Calls.{is_failing, next_count};
ghost use Rattle.pv_edge.specs.Entries.{entries, file_at, next_read, put};
ghost use Rattle.pv_edge.specs.Faults.{HasRisen, last_count};
ghost use Rattle.pv_edge.specs.Files.{Changes, Puts, PutsPart};
ghost use Rattle.pv_edge.specs.Sink.{Offered, StopsOffering, Takes, TakesLess, faults_after};

use pv_edge::{FileFault, Files, HostFiles, HostOut, MemFiles, MemSink, Sink, SinkFault};
use std::alloc::Global;

/// [`pv_edge::write_all`].
pub fn write_all<S: Sink>(out: &mut S, bytes: &[u8]) -> Result<(), SinkFault>
    ensures ok { OnOk result (Takes bytes.now (S.taken out.old) (S.taken out.new)) }
    ensures err { OnErr result (TakesLess bytes.now (S.taken out.old) (S.taken out.new)) }
    ensures offered { OnOk result (Offered S.call bytes.now out.old [] out.new) }
    ensures stops { IfErr result (λ fault. StopsOffering S.call bytes.now out.old fault out.new) }
    ensures idle { bytes.now ≡ [] → out.new ≡ out.old }
    ensures failed { IsErrOf result SinkFault.Failed → HasRisen (S.faults out.old) (S.faults out.new) }
    ensures never_falls { S.faults out.old ≤ S.faults out.new }
    ensures no_memory { IsErrOf result SinkFault.NoMemory → S.faults out.new ≡ S.faults out.old }
    ensures only_faults { OnOk result (S.faults out.new ≡ S.faults out.old) }
{
    pv_edge::write_all(out, bytes)
}

/// [`Files::read`], through the bound.
pub fn read<F: Files>(files: &mut F, alloc: Global, name: &str) -> Result<Vec<u8>, FileFault>
    ensures unchanged { F.told files.new ≡ F.told files.old }
    ensures held { IfOk result (λ bytes.
        IfSome (F.told files.old) (λ told. told name.now ≡ Some bytes.items)) }
    ensures missing { IfSome (F.told files.old) (λ told. told name.now ≡ None → IsErr result) }
    ensures failed { IsErrOf result FileFault.Failed → HasRisen (F.read_faults files.old) (F.read_faults files.new) }
    ensures no_memory { IsErrOf result FileFault.NoMemory → F.read_faults files.new ≡ F.read_faults files.old }
    ensures never_falls { F.read_faults files.old ≤ F.read_faults files.new }
    ensures counted { F.read_faults files.new ≤ last_count }
    ensures only_faults { OnOk result (F.read_faults files.new ≡ F.read_faults files.old) }
    ensures named { IsErrOf result FileFault.Failed → IfSome (F.unread files.new) (λ unread. unread ≡ name.now) }
    ensures only_named { ¬ IsErrOf result FileFault.Failed → F.unread files.new ≡ F.unread files.old }
    ensures other_count { F.write_faults files.new ≡ F.write_faults files.old }
{
    files.read(alloc, name)
}

/// [`Files::write`], through the bound.
pub fn write<F: Files>(
    files: &mut F,
    alloc: Global,
    name: &str,
    bytes: &[u8],
) -> Result<(), FileFault>
    ensures ok { OnOk result (Changes (Puts name.now bytes.now) (F.told files.old) (F.told files.new)) }
    ensures left { IsErrOf result FileFault.Failed
        → Changes (PutsPart name.now bytes.now) (F.told files.old) (F.told files.new) }
    ensures failed { IsErrOf result FileFault.Failed → HasRisen (F.write_faults files.old) (F.write_faults files.new) }
    ensures no_memory { IsErrOf result FileFault.NoMemory → F.told files.new ≡ F.told files.old }
    ensures no_memory_count { IsErrOf result FileFault.NoMemory → F.write_faults files.new ≡ F.write_faults files.old }
    ensures never_falls { F.write_faults files.old ≤ F.write_faults files.new }
    ensures counted { F.write_faults files.new ≤ last_count }
    ensures only_faults { OnOk result (F.write_faults files.new ≡ F.write_faults files.old) }
    ensures other_name { F.unread files.new ≡ F.unread files.old }
    ensures other_count { F.read_faults files.new ≡ F.read_faults files.old }
{
    files.write(alloc, name, bytes)
}

/// [`Sink::write`], through the bound.
pub fn offer<S: Sink>(out: &mut S, bytes: &[u8]) -> Result<usize, SinkFault>
    ensures called { S.call bytes.now result out.old out.new }
    ensures within { IfOk result (λ n. n ≤ length bytes.now) }
    ensures ok { IfOk result (λ n. Takes (take n bytes.now) (S.taken out.old) (S.taken out.new)) }
    ensures err { OnErr result (S.taken out.new ≡ S.taken out.old) }
    ensures stalled { IfOk result (λ n. n ≡ 0 → 0 < length bytes.now → HasRisen (S.faults out.old) (S.faults out.new)) }
    ensures failed { IsErrOf result SinkFault.Failed → HasRisen (S.faults out.old) (S.faults out.new) }
    ensures no_memory { IsErrOf result SinkFault.NoMemory → S.faults out.new ≡ S.faults out.old }
    ensures never_falls { S.faults out.old ≤ S.faults out.new }
    ensures counted { S.faults out.new ≤ last_count }
    ensures only_faults { IfOk result (λ n. (n ≡ 0 → length bytes.now ≡ 0)
        → S.faults out.new ≡ S.faults out.old) }
{
    out.write(bytes)
}

/// [`Files::read`] of the host.
pub fn read_host<R: std::rt::Files>(
    host: &mut HostFiles<R>,
    alloc: Global,
    name: &str,
) -> Result<Vec<u8>, FileFault>
    ensures after_ok { OnOk result (host.new ≡ host.old) }
    ensures after_failed { IsErrOf result FileFault.Failed → host.new
        ≡ record host.old { read_faults = next_count host.old.read_faults; unread = host.new.unread } }
    ensures told { IsErrOf result FileFault.Failed → IfSome host.new.unread (λ unread. unread ≡ name.now) }
    ensures after_no_memory { IsErrOf result FileFault.NoMemory → host.new ≡ host.old }
    ensures never_falls { host.old.read_faults ≤ host.new.read_faults }
    ensures counted { host.new.read_faults ≤ last_count }
{
    host.read(alloc, name)
}

/// [`Files::write`] of the host.
pub fn write_host<R: std::rt::Files>(
    host: &mut HostFiles<R>,
    alloc: Global,
    name: &str,
    bytes: &[u8],
) -> Result<(), FileFault>
    ensures after_ok { OnOk result (host.new ≡ host.old) }
    ensures after_failed { IsErrOf result FileFault.Failed
        → host.new ≡ record host.old { write_faults = next_count host.old.write_faults } }
    ensures no_memory { ¬ IsErrOf result FileFault.NoMemory }
    ensures never_falls { host.old.write_faults ≤ host.new.write_faults }
    ensures counted { host.new.write_faults ≤ last_count }
{
    host.write(alloc, name, bytes)
}

/// [`Sink::write`] of the host.
pub fn offer_host<R: Print>(host: &mut HostOut<R>, bytes: &[u8]) -> Result<usize, SinkFault>
    ensures within { IfOk result (λ n. n ≤ length bytes.now) }
    ensures after { host.new
        ≡ record host.old { faults = faults_after (length bytes.now) result host.old.faults } }
    ensures no_memory { ¬ IsErrOf result SinkFault.NoMemory }
    ensures never_falls { host.old.faults ≤ host.new.faults }
    ensures counted { host.new.faults ≤ last_count }
{
    host.write(bytes)
}

/// [`Files::read`] in memory.
pub fn read_memory(memory: &mut MemFiles, alloc: Global, name: &str) -> Result<Vec<u8>, FileFault>
    ensures ok { IfOk result (λ bytes. next_read memory.old.fail_at.items memory.old.calls
        (file_at (entries memory.old.files.items)) name.now ≡ Some bytes.items) }
    ensures failed { IsErrOf result FileFault.Failed ↔ (next_read memory.old.fail_at.items memory.old.calls
        (file_at (entries memory.old.files.items)) name.now ≡ None) }
    ensures after_ok { OnOk result (memory.new ≡ record memory.old { calls = next_count memory.old.calls }) }
    ensures after_failed { IsErrOf result FileFault.Failed → memory.new ≡ record memory.old {
      calls = next_count memory.old.calls;
      read_faults = next_count memory.old.read_faults;
      unread = memory.new.unread;
    } }
    ensures told { IsErrOf result FileFault.Failed → IfSome memory.new.unread (λ unread. unread ≡ name.now) }
    ensures after_no_memory { IsErrOf result FileFault.NoMemory → memory.new ≡ memory.old }
    ensures never_falls { memory.old.read_faults ≤ memory.new.read_faults }
    ensures counted { memory.new.read_faults ≤ last_count }
    ensures only_missing { memory.old.fail_at.items ≡ [] → IsErrOf result FileFault.Failed
        → file_at (entries memory.old.files.items) name.now ≡ None }
{
    memory.read(alloc, name)
}

/// [`Files::write`] in memory.
pub fn write_memory(
    memory: &mut MemFiles,
    alloc: Global,
    name: &str,
    bytes: &[u8],
) -> Result<(), FileFault>
    ensures ok { OnOk result (entries memory.new.files.items
        ≡ put name.now bytes.now (entries memory.old.files.items)) }
    ensures failed { IsErrOf result FileFault.Failed
        ↔ IsTrue (is_failing memory.old.fail_at.items memory.old.calls) }
    ensures after_ok { OnOk result (memory.new
        ≡ record memory.old { files = memory.new.files; calls = next_count memory.old.calls }) }
    ensures after_failed { IsErrOf result FileFault.Failed → memory.new
        ≡ record memory.old { calls = next_count memory.old.calls; write_faults = next_count memory.old.write_faults } }
    ensures after_no_memory { IsErrOf result FileFault.NoMemory
        → memory.new ≡ record memory.old { files = memory.new.files } }
    ensures no_memory { IsErrOf result FileFault.NoMemory → memory.new.files.items ≡ memory.old.files.items }
    ensures puts { OnOk result (Puts name.now bytes.now
        (file_at (entries memory.old.files.items)) (file_at (entries memory.new.files.items))) }
    ensures never_falls { memory.old.write_faults ≤ memory.new.write_faults }
    ensures counted { memory.new.write_faults ≤ last_count }
    ensures never_fails { memory.old.fail_at.items ≡ [] → ¬ IsErrOf result FileFault.Failed }
{
    memory.write(alloc, name, bytes)
}

/// [`Sink::write`] in memory.
pub fn offer_memory(memory: &mut MemSink, bytes: &[u8]) -> Result<usize, SinkFault>
    ensures ok { IfOk result (λ n. n ≡ min (length bytes.now) memory.old.piece) }
    ensures taken { IfOk result (λ n. memory.new.taken.items ≡ memory.old.taken.items ++ take n bytes.now) }
    ensures failed { IsErrOf result SinkFault.Failed
        ↔ IsTrue (is_failing memory.old.fail_at.items memory.old.calls) }
    ensures after_ok { IfOk result (λ n. memory.new ≡ record memory.old {
      taken = memory.new.taken;
      calls = next_count memory.old.calls;
      faults = if n == 0 && nat_lt 0 (length bytes.now)
          then next_count memory.old.faults else memory.old.faults;
    }) }
    ensures after_failed { IsErrOf result SinkFault.Failed → memory.new
        ≡ record memory.old { calls = next_count memory.old.calls; faults = next_count memory.old.faults } }
    ensures after_no_memory { IsErrOf result SinkFault.NoMemory
        → memory.new ≡ record memory.old { taken = memory.new.taken } }
    ensures no_memory { IsErrOf result SinkFault.NoMemory → memory.new.taken.items ≡ memory.old.taken.items }
    ensures never_falls { memory.old.faults ≤ memory.new.faults }
    ensures counted { memory.new.faults ≤ last_count }
    ensures never_fails { memory.old.fail_at.items ≡ [] → ¬ IsErrOf result SinkFault.Failed }
    ensures never_stalls { 0 < memory.old.piece → OnOk result (memory.new.faults ≡ memory.old.faults) }
{
    memory.write(bytes)
}
