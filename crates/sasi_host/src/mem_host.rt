// A host in memory.
ghost use Rattle.std.specs.Prelude.{◌≡◌, ◌⊎◌, ◌-◌, ◌^◌, ◌<◌, ◌≤◌, ◌↔◌, IsTrue, IsErr, OnOk, OnErr, IfOk, IfSome, IfNone, Some, None, Contains};
ghost use Rattle.std.specs.FinMap as map;
ghost use Rattle.sasi_host.specs.View.{contents, counted};
ghost use Rattle.sasi_host.specs.Disk.{IsCrashOf};
ghost use Rattle.sasi_host.specs.Picks.{picked};
ghost use Rattle.sasi_host.specs.Calls.{replay, opened};
ghost use Rattle.sasi_host.specs.declared.call.Call.{Call};
ghost use Rattle.sasi_host.specs.Memory.{memory_host, host_view, host_with, done, begun_disk, IsDiskToFail, disk_failed, disk_refused, begun_emit, IsEmitToFail, emit_failed, emit_refused};

use crate::mem_disk::MemDisk;
use crate::mem_folder::MemFolder;
use crate::{Failed, FileName, Pick};
use std::alloc::{AllocError, Global};

/// A folder and replies in memory. A call fails where it is listed, after the stop, and where memory can't grow.
#[derive(Drop)]
pub struct MemHost {
    pub(crate) disk: MemDisk,
    pub(crate) failing_disk: Vec<u64>,
    pub(crate) failing_emits: Vec<u64>,
    pub(crate) stop: u64,
    pub(crate) disk_calls: u64,
    pub(crate) emits: u64,
    pub(crate) failed_last: bool,
    pub(crate) disk_faults: u64,
    pub(crate) out_faults: u64,
    pub(crate) reads: u64,
    pub(crate) refused: u64,
}

impl MemHost {
    /// A host with an empty folder, which doesn't fail.
    pub fn new(alloc: Global) -> MemHost
        ensures is { memory_host result ≡ host_with map.empty }
        ensures no_file { (name : _) → contents (host_view (memory_host result)) name ≡ None }
    {
        MemHost::on(
            MemDisk::new(alloc, MemFolder::new(alloc), MemFolder::new(alloc)),
            alloc,
        )
    }

    // A host on this folder, which doesn't fail.
    pub(crate) fn on(disk: MemDisk, alloc: Global) -> MemHost
        ensures { memory_host result ≡ record (host_with disk.start) { calls = disk.calls.items } }
    {
        MemHost {
            disk,
            failing_disk: Vec::new(alloc),
            failing_emits: Vec::new(alloc),
            stop: u64::MAX,
            disk_calls: 0,
            emits: 0,
            failed_last: false,
            disk_faults: 0,
            out_faults: 0,
            reads: 0,
            refused: 0,
        }
    }

    /// From now on the file calls listed fail, counted from 1 and from the making of the host.
    pub fn fail_disk(&mut self, calls: Vec<u64>)
        ensures { memory_host self.new ≡ record (memory_host self.old) { failing_disk = calls.items } }
    {
        self.failing_disk = calls;
    }

    /// From now on the emits listed fail, counted from 1 and from the making of the host.
    pub fn fail_emits(&mut self, calls: Vec<u64>)
        ensures { memory_host self.new ≡ record (memory_host self.old) { failing_emits = calls.items } }
    {
        self.failing_emits = calls;
    }

    /// Each call after the first so many fails. File calls and emits are counted together, from the making of the host.
    pub fn stop_after(&mut self, calls: u64)
        ensures { memory_host self.new ≡ record (memory_host self.old) { stop = calls } }
    {
        self.stop = calls;
    }

    /// Puts a file. Its name and its bytes are durable at once.
    pub fn put(&mut self, file: FileName, bytes: &[u8]) -> Result<(), AllocError>
        ensures ok { OnOk result (memory_host self.new ≡ done (Call.Put file bytes.now) (memory_host self.old)) }
        ensures reads { OnOk result (contents (host_view (memory_host self.new)) file ≡ Some bytes.now) }
        ensures err { OnErr result (memory_host self.new ≡ memory_host self.old) }
    {
        self.disk.put(file, bytes)
    }

    /// The bytes of the file; None exactly where it isn't there.
    pub fn bytes(&self, file: FileName) -> Option<&[u8]>
        ensures some { IfSome result (λ bytes. contents (host_view (memory_host self.now)) file ≡ Some bytes.now) }
        ensures none { IfNone result (contents (host_view (memory_host self.now)) file ≡ None) }
    {
        self.disk.bytes(file)
    }

    /// The bytes that were emitted.
    pub fn emitted(&self) -> &[u8]
        ensures { (host_view (memory_host self.now)).emitted ≡ Some result.now }
    {
        &self.disk.emitted
    }

    /// How often a file was read.
    pub fn reads(&self) -> u64
        ensures { result ≡ (memory_host self.now).reads }
    {
        self.reads
    }

    /// How often its memory couldn't grow.
    pub fn refused(&self) -> u64
        ensures { result ≡ (memory_host self.now).refused }
    {
        self.refused
    }

    /// The image of a crash now that the pick names. It has nothing pending, no replies, and doesn't fail.
    pub fn crash(&self, pick: Pick) -> Result<MemHost, AllocError>
        ensures image { IfOk result (λ h. IsCrashOf (host_view (memory_host self.now)) (host_view (memory_host h))) }
        ensures picked { IfOk result (λ h. memory_host h ≡ host_with (picked pick (memory_host self.now).calls (memory_host self.now).start)) }
    {
        Ok(MemHost::on(self.disk.crash(pick)?, self.disk.alloc))
    }

    // Counts a file call, which fails where it is to.
    pub(crate) fn begin_disk(&mut self) -> Result<(), Failed>
        ensures to_fail { IsErr result ↔ IsDiskToFail (memory_host self.old) }
        ensures ok { OnOk result (memory_host self.new ≡ begun_disk (memory_host self.old)) }
        ensures err { OnErr result (memory_host self.new ≡ disk_failed (begun_disk (memory_host self.old))) }
        ensures later { self.old.disk_faults ≤ self.new.disk_faults }
        ensures few { self.old.disk_calls ≤ 2 ^ 64 - 1 }
    {
        self.disk_calls = self.disk_calls.saturating_add(1);
        let all_calls = self.disk_calls.saturating_add(self.emits);
        self.failed_last = is_to_fail(&self.failing_disk, self.disk_calls, all_calls, self.stop);
        fail_if(self.failed_last, &mut self.disk_faults)
    }

    // Counts a file call that is out of memory.
    pub(crate) fn refuse_disk(&mut self) -> Failed
        ensures counts { memory_host self.new ≡ disk_refused (memory_host self.old) }
        ensures later { self.old.disk_faults ≤ self.new.disk_faults }
        ensures few { self.old.refused ≤ 2 ^ 64 - 1 }
    {
        self.disk_faults = self.disk_faults.saturating_add(1);
        self.failed_last = true;
        self.refused = self.refused.saturating_add(1);
        Failed
    }

    // Counts an emit, which fails where it is to.
    pub(crate) fn begin_emit(&mut self) -> Result<(), Failed>
        ensures to_fail { IsErr result ↔ IsEmitToFail (memory_host self.old) }
        ensures ok { OnOk result (memory_host self.new ≡ begun_emit (memory_host self.old)) }
        ensures err { OnErr result (memory_host self.new ≡ emit_failed (begun_emit (memory_host self.old))) }
        ensures later { self.old.out_faults ≤ self.new.out_faults }
        ensures few { self.old.emits ≤ 2 ^ 64 - 1 }
    {
        self.emits = self.emits.saturating_add(1);
        let all_calls = self.disk_calls.saturating_add(self.emits);
        self.failed_last = is_to_fail(&self.failing_emits, self.emits, all_calls, self.stop);
        fail_if(self.failed_last, &mut self.out_faults)
    }

    // Counts an emit that is out of memory.
    pub(crate) fn refuse_emit(&mut self) -> Failed
        ensures counts { memory_host self.new ≡ emit_refused (memory_host self.old) }
        ensures later { self.old.out_faults ≤ self.new.out_faults }
        ensures few { self.old.refused ≤ 2 ^ 64 - 1 }
    {
        self.out_faults = self.out_faults.saturating_add(1);
        self.failed_last = true;
        self.refused = self.refused.saturating_add(1);
        Failed
    }
}

// Fails if a call is to, and counts that.
fn fail_if(to_fail: bool, faults: &mut u64) -> Result<(), Failed>
    ensures to_fail { IsErr result ↔ IsTrue to_fail }
    ensures ok { OnOk result (faults.new ≡ faults.old) }
    ensures err { OnErr result (faults.new ≡ counted faults.old) }
    ensures later { faults.old ≤ faults.new }
{
    if to_fail {
        *faults = faults.saturating_add(1);
        return Err(Failed);
    }
    Ok(())
}

// Whether a call fails: it is listed, or comes after the stop.
fn is_to_fail(failing: &[u64], call: u64, all_calls: u64, stop: u64) -> bool
    ensures { IsTrue result ↔ (Contains failing.now call ⊎ (stop < all_calls)) }
{
    failing.contains(&call) || all_calls > stop
}
