// What a host in memory does at each call.
ghost use Rattle.std.specs.Prelude.{◌≡◌, ◌⊎◌, ◌+◌, ◌^◌, ◌≤◌, ◌<◌, [], length, is_err, IsErr, IfOk, IfErr, OnOk, OnErr};
ghost use Rattle.std.specs.List.Sorted.{IsStrictlySortedBy};
ghost use Rattle.sasi_host.specs.declared.call.Call.{Call};
ghost use Rattle.sasi_host.specs.Names.{name_cmp};
ghost use Rattle.sasi_host.specs.View.{IsCall, IsEmit, has_failed, IsThere, IsAbsent, Holds, Reaches, contents, KeepsMoments, DiskCauses, ReadCauses, ListCauses, OutCauses, AllOut, Emits, TellsPrefixes};
ghost use Rattle.sasi_host.specs.Disk.{Changes, Same, FileChange, InPlace, Torn, MaybeCreated, MaybeDeleted, Becomes, overlay, IsSynced, IsFolderSynced, Lists, Fills};
ghost use Rattle.sasi_host.specs.Memory.{memory_host, host_view, done, begun_disk, begun_read, IsDiskToFail, disk_failed, disk_refused, begun_emit, IsEmitToFail, emit_failed, emit_refused};
ghost use Rattle.sasi_host.specs.MemoryLaws.{host_sound};

use crate::{Failed, FileName, Host, HostFault, MemHost};
use std::alloc::Global;

impl Host for MemHost {
    ghost view = { λ h. host_view (memory_host h) };

    ghost sound = { host_sound };

    fn list(&mut self, alloc: Global) -> Result<Vec<FileName>, HostFault>
        ensures ok { IfOk result (λ names. Lists (host_view (memory_host self.old)) names.items) }
        ensures sorted { IfOk result (λ names. IsStrictlySortedBy name_cmp names.items) }
        ensures changes { Changes Same (host_view (memory_host self.old)) (host_view (memory_host self.new)) }
        ensures moments { KeepsMoments (host_view (memory_host self.old)) (host_view (memory_host self.new)) }
        ensures call { IsCall (host_view (memory_host self.old)) (host_view (memory_host self.new)) (has_failed result) }
        ensures causes { ListCauses (host_view (memory_host self.old)) (host_view (memory_host self.new)) result }
        ensures done { OnOk result (memory_host self.new ≡ begun_disk (memory_host self.old)) }
        ensures to_fail { IsDiskToFail (memory_host self.old) → (result ≡ Err HostFault.Failed) × (memory_host self.new ≡ disk_failed (begun_disk (memory_host self.old))) }
        ensures failed { result ≡ Err HostFault.Failed → IsDiskToFail (memory_host self.old) }
        ensures no_memory { result ≡ Err HostFault.OutOfMemory → memory_host self.new ≡ begun_disk (memory_host self.old) }
    {
        self.begin_disk()?;
        Ok(self.disk.names(alloc)?)
    }

    fn size(&mut self, file: FileName) -> Result<u64, Failed>
        requires { IsThere (host_view (memory_host self.old)) file }
        ensures ok { IfOk result (λ n. (bytes : _) → contents (host_view (memory_host self.old)) file ≡ Some bytes → n ≡ length bytes) }
        ensures changes { Changes Same (host_view (memory_host self.old)) (host_view (memory_host self.new)) }
        ensures moments { KeepsMoments (host_view (memory_host self.old)) (host_view (memory_host self.new)) }
        ensures call { IsCall (host_view (memory_host self.old)) (host_view (memory_host self.new)) (is_err result) }
        ensures causes { DiskCauses (host_view (memory_host self.old)) (host_view (memory_host self.new)) result }
        ensures done { OnOk result (memory_host self.new ≡ begun_disk (memory_host self.old)) }
        ensures to_fail { IsDiskToFail (memory_host self.old) → IsErr result × (memory_host self.new ≡ disk_failed (begun_disk (memory_host self.old))) }
        ensures failed { OnErr result (IsDiskToFail (memory_host self.old)) }
    {
        self.begin_disk()?;
        Ok(self.disk.size(file))
    }

    fn read(&mut self, file: FileName, at: u64, buf: &mut [u8]) -> Result<usize, Failed>
        requires there { IsThere (host_view (memory_host self.old)) file }
        requires some { 0 < length buf.old }
        requires page { length buf.old ≤ 4096 }
        ensures ok { IfOk result (λ n. (bytes : _) → contents (host_view (memory_host self.old)) file ≡ Some bytes → Fills bytes at buf.old buf.new n) }
        ensures within { IfOk result (λ n. n ≤ length buf.old) }
        ensures changes { Changes Same (host_view (memory_host self.old)) (host_view (memory_host self.new)) }
        ensures moments { KeepsMoments (host_view (memory_host self.old)) (host_view (memory_host self.new)) }
        ensures call { IsCall (host_view (memory_host self.old)) (host_view (memory_host self.new)) (is_err result) }
        ensures causes { ReadCauses (host_view (memory_host self.old)) (host_view (memory_host self.new)) result }
        ensures done { OnOk result (memory_host self.new ≡ begun_read (memory_host self.old)) }
        ensures to_fail { IsDiskToFail (memory_host self.old) → IsErr result × (memory_host self.new ≡ disk_failed (begun_read (memory_host self.old))) }
        ensures failed { OnErr result (IsDiskToFail (memory_host self.old)) }
    {
        self.reads = self.reads.saturating_add(1);
        self.begin_disk()?;
        Ok(self.disk.read(file, at, buf))
    }

    fn create(&mut self, file: FileName) -> Result<(), Failed>
        requires { IsAbsent (host_view (memory_host self.old)) file }
        ensures ok { OnOk result (Holds (host_view (memory_host self.new)) file []) }
        ensures changes { Changes (FileChange file MaybeCreated) (host_view (memory_host self.old)) (host_view (memory_host self.new)) }
        ensures moments { KeepsMoments (host_view (memory_host self.old)) (host_view (memory_host self.new)) }
        ensures call { IsCall (host_view (memory_host self.old)) (host_view (memory_host self.new)) (is_err result) }
        ensures causes { DiskCauses (host_view (memory_host self.old)) (host_view (memory_host self.new)) result }
        ensures done { OnOk result (memory_host self.new ≡ done (Call.Created file) (begun_disk (memory_host self.old))) }
        ensures to_fail { IsDiskToFail (memory_host self.old) → IsErr result × (memory_host self.new ≡ disk_failed (begun_disk (memory_host self.old))) }
        ensures failed { OnErr result (IsDiskToFail (memory_host self.old) ⊎ (memory_host self.new ≡ disk_refused (begun_disk (memory_host self.old)))) }
    {
        self.begin_disk()?;
        if self.disk.create(file).is_err() {
            return Err(self.refuse_disk());
        }
        Ok(())
    }

    fn write(&mut self, file: FileName, at: u64, bytes: &[u8]) -> Result<(), Failed>
        requires { Reaches (host_view (memory_host self.old)) file at }
        ensures ok { OnOk result (Becomes file (λ old. overlay old at bytes.now) (host_view (memory_host self.old)) (host_view (memory_host self.new))) }
        ensures fits { OnOk result (at + length bytes.now ≤ 2 ^ 62) }
        ensures changes { Changes (FileChange file (InPlace (Torn at (length bytes.now)))) (host_view (memory_host self.old)) (host_view (memory_host self.new)) }
        ensures moments { KeepsMoments (host_view (memory_host self.old)) (host_view (memory_host self.new)) }
        ensures call { IsCall (host_view (memory_host self.old)) (host_view (memory_host self.new)) (is_err result) }
        ensures causes { DiskCauses (host_view (memory_host self.old)) (host_view (memory_host self.new)) result }
        ensures done { OnOk result (memory_host self.new ≡ done (Call.Wrote file at bytes.now) (begun_disk (memory_host self.old))) }
        ensures to_fail { IsDiskToFail (memory_host self.old) → IsErr result × (memory_host self.new ≡ disk_failed (begun_disk (memory_host self.old))) }
        ensures failed { OnErr result (IsDiskToFail (memory_host self.old) ⊎ (memory_host self.new ≡ disk_refused (begun_disk (memory_host self.old)))) }
    {
        self.begin_disk()?;
        if self.disk.write(file, at, bytes).is_err() {
            return Err(self.refuse_disk());
        }
        Ok(())
    }

    fn sync(&mut self, file: FileName) -> Result<(), Failed>
        requires { IsThere (host_view (memory_host self.old)) file }
        ensures ok { OnOk result (IsSynced (host_view (memory_host self.new)) file) }
        ensures changes { Changes Same (host_view (memory_host self.old)) (host_view (memory_host self.new)) }
        ensures moments { KeepsMoments (host_view (memory_host self.old)) (host_view (memory_host self.new)) }
        ensures call { IsCall (host_view (memory_host self.old)) (host_view (memory_host self.new)) (is_err result) }
        ensures causes { DiskCauses (host_view (memory_host self.old)) (host_view (memory_host self.new)) result }
        ensures done { OnOk result (memory_host self.new ≡ done (Call.Synced file) (begun_disk (memory_host self.old))) }
        ensures to_fail { IsDiskToFail (memory_host self.old) → IsErr result × (memory_host self.new ≡ disk_failed (begun_disk (memory_host self.old))) }
        ensures failed { OnErr result (IsDiskToFail (memory_host self.old) ⊎ (memory_host self.new ≡ disk_refused (begun_disk (memory_host self.old)))) }
    {
        self.begin_disk()?;
        if self.disk.sync(file).is_err() {
            return Err(self.refuse_disk());
        }
        Ok(())
    }

    fn delete(&mut self, file: FileName) -> Result<(), Failed>
        requires { IsThere (host_view (memory_host self.old)) file }
        ensures ok { OnOk result (IsAbsent (host_view (memory_host self.new)) file) }
        ensures changes { Changes (FileChange file MaybeDeleted) (host_view (memory_host self.old)) (host_view (memory_host self.new)) }
        ensures moments { KeepsMoments (host_view (memory_host self.old)) (host_view (memory_host self.new)) }
        ensures call { IsCall (host_view (memory_host self.old)) (host_view (memory_host self.new)) (is_err result) }
        ensures causes { DiskCauses (host_view (memory_host self.old)) (host_view (memory_host self.new)) result }
        ensures done { OnOk result (memory_host self.new ≡ done (Call.Deleted file) (begun_disk (memory_host self.old))) }
        ensures to_fail { IsDiskToFail (memory_host self.old) → IsErr result × (memory_host self.new ≡ disk_failed (begun_disk (memory_host self.old))) }
        ensures failed { OnErr result (IsDiskToFail (memory_host self.old) ⊎ (memory_host self.new ≡ disk_refused (begun_disk (memory_host self.old)))) }
    {
        self.begin_disk()?;
        if self.disk.delete(file).is_err() {
            return Err(self.refuse_disk());
        }
        Ok(())
    }

    fn sync_folder(&mut self) -> Result<(), Failed>
        ensures ok { OnOk result (IsFolderSynced (host_view (memory_host self.new))) }
        ensures changes { Changes Same (host_view (memory_host self.old)) (host_view (memory_host self.new)) }
        ensures moments { KeepsMoments (host_view (memory_host self.old)) (host_view (memory_host self.new)) }
        ensures call { IsCall (host_view (memory_host self.old)) (host_view (memory_host self.new)) (is_err result) }
        ensures causes { DiskCauses (host_view (memory_host self.old)) (host_view (memory_host self.new)) result }
        ensures done { OnOk result (memory_host self.new ≡ done Call.FolderSynced (begun_disk (memory_host self.old))) }
        ensures to_fail { IsDiskToFail (memory_host self.old) → IsErr result × (memory_host self.new ≡ disk_failed (begun_disk (memory_host self.old))) }
        ensures failed { OnErr result (IsDiskToFail (memory_host self.old) ⊎ (memory_host self.new ≡ disk_refused (begun_disk (memory_host self.old)))) }
    {
        self.begin_disk()?;
        if self.disk.sync_folder().is_err() {
            return Err(self.refuse_disk());
        }
        Ok(())
    }

    fn emit(&mut self, bytes: &[u8]) -> Result<(), Failed>
        ensures ok { OnOk result (AllOut bytes.now (host_view (memory_host self.old)) (host_view (memory_host self.new))) }
        ensures emits { Emits bytes.now (host_view (memory_host self.old)) (host_view (memory_host self.new)) }
        ensures moments { KeepsMoments (host_view (memory_host self.old)) (host_view (memory_host self.new)) }
        ensures prefixes { OnOk result (TellsPrefixes bytes.now (host_view (memory_host self.old)) (host_view (memory_host self.new))) }
        ensures call { IsEmit (host_view (memory_host self.old)) (host_view (memory_host self.new)) (is_err result) }
        ensures causes { OutCauses (host_view (memory_host self.old)) (host_view (memory_host self.new)) result }
        ensures done { OnOk result (memory_host self.new ≡ done (Call.Emitted bytes.now) (begun_emit (memory_host self.old))) }
        ensures to_fail { IsEmitToFail (memory_host self.old) → IsErr result × (memory_host self.new ≡ emit_failed (begun_emit (memory_host self.old))) }
        ensures failed { OnErr result (IsEmitToFail (memory_host self.old) ⊎ (memory_host self.new ≡ emit_refused (begun_emit (memory_host self.old)))) }
    {
        self.begin_emit()?;
        if self.disk.emit(bytes).is_err() {
            return Err(self.refuse_emit());
        }
        Ok(())
    }
}
