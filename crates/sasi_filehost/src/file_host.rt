// A folder of real files and the standard output as a host.
ghost use Rattle.std.specs.Prelude.{◌≡◌, ◌+◌, ◌^◌, ◌≤◌, length, Ok, IsNone, IsErr, IfOk, OnOk, OnErr, is_err};
ghost use Rattle.std.specs.List.Sorted.{IsStrictlySortedBy};
ghost use Rattle.sasi_host.specs.Names.{name_cmp};
ghost use Rattle.sasi_host.specs.View.{IsCall, IsEmit, has_failed, DiskCauses, ReadCauses, ListCauses, OutCauses, Emits};
ghost use Rattle.sasi_host.specs.Disk.{Changes, Same, FileChange, InPlace, Torn, MaybeCreated, MaybeDeleted};
ghost use Rattle.sasi_filehost.specs.RealFiles.{told, IsUncalled, HasFailed, StaysFailed};

use crate::folder::Folder;
use crate::tally::Tally;
use sasi_host::{Failed, FileName, Host, HostFault};
use std::alloc::{AllocError, Global};
use std::io;

/// A folder of real files, and the standard output for the replies. It tells how often it was called and failed,
/// and nothing of what it holds.
#[derive(Drop)]
pub struct FileHost {
    rt: HostRuntime,
    // None where it couldn't be opened or a sync failed: the system may then have dropped bytes, and a later sync wouldn't
    // say so.
    folder: Option<Folder>,
    tally: Tally,
}

impl FileHost {
    /// The host of the folder at this path, which is made if it is missing. If it can't be opened, or the folder that it is
    /// in can't be synced, each call fails. No later call but `list` fails for lack of memory.
    pub fn at(rt: HostRuntime, path: &str) -> Result<FileHost, AllocError>
        ensures { IfOk result IsUncalled }
    {
        Ok(FileHost {
            rt,
            folder: Folder::at(rt, path)?,
            tally: Tally::new(),
        })
    }
}

// Whether the call itself failed, and didn't only lack memory.
fn is_failed<T>(answer: &Result<T, HostFault>) -> bool
    ensures { result ≡ has_failed answer.now }
{
    matches!(answer, Err(HostFault::Failed))
}

// The error of a folder that can't be used.
fn unusable() -> io::Error {
    io::ErrorKind::Other.into()
}

// The result of a sync; after one that failed the folder isn't used any more.
fn after_sync(folder: &mut Option<Folder>, answer: io::Result<()>) -> io::Result<()>
    ensures same { result ≡ answer }
    ensures failed { IsErr result → IsNone folder.new }
    ensures stays { IsNone folder.old → IsNone folder.new }
{
    if answer.is_err() {
        *folder = None;
    }
    answer
}

impl Host for FileHost {
    ghost use Rattle.std.specs.Prelude.{None};
    ghost use Rattle.sasi_host.specs.Opaque.{opaque_sound};
    ghost use Rattle.sasi_filehost.specs.HostCounts.{counts_of};

    ghost view = { told };

    ghost sound = { λ h. opaque_sound None (counts_of h.tally) };

    fn list(&mut self, alloc: Global) -> Result<Vec<FileName>, HostFault>
        ensures sorted { IfOk result (λ names. IsStrictlySortedBy name_cmp names.items) }
        ensures changes { Changes Same (told self.old) (told self.new) }
        ensures call { IsCall (told self.old) (told self.new) (has_failed result) }
        ensures causes { ListCauses (told self.old) (told self.new) result }
        ensures unusable { StaysFailed self.old self.new result }
    {
        let answer = match &mut self.folder {
            Some(folder) => folder.list(alloc),
            None => Err(HostFault::Failed),
        };
        self.tally.count_call(is_failed(&answer));
        answer
    }

    fn size(&mut self, file: FileName) -> Result<u64, Failed>
        ensures changes { Changes Same (told self.old) (told self.new) }
        ensures call { IsCall (told self.old) (told self.new) (is_err result) }
        ensures causes { DiskCauses (told self.old) (told self.new) result }
        ensures unusable { StaysFailed self.old self.new result }
    {
        let answer = match &mut self.folder {
            Some(folder) => folder.size(file),
            None => Err(unusable()),
        };
        self.tally.call(answer)
    }

    fn read(&mut self, file: FileName, at: u64, buf: &mut [u8]) -> Result<usize, Failed>
        ensures within { IfOk result (λ n. n ≤ length buf.old) }
        ensures changes { Changes Same (told self.old) (told self.new) }
        ensures call { IsCall (told self.old) (told self.new) (is_err result) }
        ensures causes { ReadCauses (told self.old) (told self.new) result }
        ensures unusable { StaysFailed self.old self.new result }
    {
        self.tally.reads = self.tally.reads.saturating_add(1);
        let answer = match &mut self.folder {
            Some(folder) => folder.read(file, at, buf),
            None => Err(unusable()),
        };
        self.tally.call(answer)
    }

    fn create(&mut self, file: FileName) -> Result<(), Failed>
        ensures changes { Changes (FileChange file MaybeCreated) (told self.old) (told self.new) }
        ensures call { IsCall (told self.old) (told self.new) (is_err result) }
        ensures causes { DiskCauses (told self.old) (told self.new) result }
        ensures unusable { StaysFailed self.old self.new result }
    {
        let answer = match &mut self.folder {
            Some(folder) => folder.create(file),
            None => Err(unusable()),
        };
        self.tally.call(answer)
    }

    fn write(&mut self, file: FileName, at: u64, bytes: &[u8]) -> Result<(), Failed>
        ensures fits { OnOk result (at + length bytes.now ≤ 2 ^ 62) }
        ensures changes { Changes (FileChange file (InPlace (Torn at (length bytes.now)))) (told self.old) (told self.new) }
        ensures call { IsCall (told self.old) (told self.new) (is_err result) }
        ensures causes { DiskCauses (told self.old) (told self.new) result }
        ensures unusable { StaysFailed self.old self.new result }
    {
        let answer = match &mut self.folder {
            Some(folder) => folder.write(file, at, bytes),
            None => Err(unusable()),
        };
        self.tally.call(answer)
    }

    fn sync(&mut self, file: FileName) -> Result<(), Failed>
        ensures changes { Changes Same (told self.old) (told self.new) }
        ensures call { IsCall (told self.old) (told self.new) (is_err result) }
        ensures causes { DiskCauses (told self.old) (told self.new) result }
        ensures unusable { StaysFailed self.old self.new result }
        ensures failed { OnErr result (HasFailed self.new) }
    {
        let answer = match &mut self.folder {
            Some(folder) => folder.sync(file),
            None => Err(unusable()),
        };
        let answer = after_sync(&mut self.folder, answer);
        self.tally.call(answer)
    }

    fn delete(&mut self, file: FileName) -> Result<(), Failed>
        ensures changes { Changes (FileChange file MaybeDeleted) (told self.old) (told self.new) }
        ensures call { IsCall (told self.old) (told self.new) (is_err result) }
        ensures causes { DiskCauses (told self.old) (told self.new) result }
        ensures unusable { StaysFailed self.old self.new result }
    {
        let answer = match &mut self.folder {
            Some(folder) => folder.delete(file),
            None => Err(unusable()),
        };
        self.tally.call(answer)
    }

    fn sync_folder(&mut self) -> Result<(), Failed>
        ensures changes { Changes Same (told self.old) (told self.new) }
        ensures call { IsCall (told self.old) (told self.new) (is_err result) }
        ensures causes { DiskCauses (told self.old) (told self.new) result }
        ensures unusable { StaysFailed self.old self.new result }
        ensures failed { OnErr result (HasFailed self.new) }
    {
        let answer = match &self.folder {
            Some(folder) => folder.sync_names(),
            None => Err(unusable()),
        };
        let answer = after_sync(&mut self.folder, answer);
        self.tally.call(answer)
    }

    fn emit(&mut self, bytes: &[u8]) -> Result<(), Failed>
        ensures emits { Emits bytes.now (told self.old) (told self.new) }
        ensures call { IsEmit (told self.old) (told self.new) (is_err result) }
        ensures causes { OutCauses (told self.old) (told self.new) result }
        ensures unusable { StaysFailed self.old self.new result }
    {
        let answer = match &self.folder {
            Some(_) => self.rt.write_all(bytes),
            None => Err(unusable()),
        };
        self.tally.emit(answer)
    }
}
