// The host: files and replies.
ghost use Rattle.std.specs.Prelude.{◌≡◌, ◌+◌, ◌^◌, ◌<◌, ◌≤◌, [], length, is_err, IfOk, OnOk};
ghost use Rattle.std.specs.List.Sorted.{IsStrictlySortedBy};
ghost use Rattle.sasi_host.specs.Names.{name_cmp};
ghost use Rattle.sasi_host.specs.View.{View, IsCall, IsEmit, has_failed, IsThere, IsAbsent, Holds, Reaches, contents, KeepsMoments, IsSound, DiskCauses, ReadCauses, ListCauses, OutCauses, AllOut, Emits, TellsPrefixes};
ghost use Rattle.sasi_host.specs.Disk.{Changes, Same, FileChange, InPlace, Torn, MaybeCreated, MaybeDeleted, Becomes, overlay, IsSynced, IsFolderSynced, Lists, Fills};

use crate::{Failed, FileName, HostFault};
use std::alloc::Global;

/// A folder of files, and the replies. One trait has both, so that files and replies have one order of moments.
pub trait Host {
    /// What contracts see of it.
    ghost view: { Self → View };

    /// The names of the folder's files, in their order. Files with foreign names are left out.
    fn list(&mut self, alloc: Global) -> Result<Vec<FileName>, HostFault>
        ensures ok { IfOk result (λ names. Lists (view self.old) names.items) }
        ensures sorted { IfOk result (λ names. IsStrictlySortedBy name_cmp names.items) }
        ensures changes { Changes Same (view self.old) (view self.new) }
        ensures moments { KeepsMoments (view self.old) (view self.new) }
        ensures call { IsCall (view self.old) (view self.new) (has_failed result) }
        ensures causes { ListCauses (view self.old) (view self.new) result };

    /// How many bytes the file has.
    fn size(&mut self, file: FileName) -> Result<u64, Failed>
        requires { IsThere (view self.old) file }
        ensures ok { IfOk result (λ n. (bytes : _) → contents (view self.old) file ≡ Some bytes → n ≡ length bytes) }
        ensures changes { Changes Same (view self.old) (view self.new) }
        ensures moments { KeepsMoments (view self.old) (view self.new) }
        ensures call { IsCall (view self.old) (view self.new) (is_err result) }
        ensures causes { DiskCauses (view self.old) (view self.new) result };

    /// Fills the buffer with the file's bytes from this offset on, and gives how many there were.
    fn read(&mut self, file: FileName, at: u64, buf: &mut [u8]) -> Result<usize, Failed>
        requires there { IsThere (view self.old) file }
        requires some { 0 < length buf.old }
        requires page { length buf.old ≤ 4096 }
        ensures ok { IfOk result (λ n. (bytes : _) → contents (view self.old) file ≡ Some bytes → Fills bytes at buf.old buf.new n) }
        ensures within { IfOk result (λ n. n ≤ length buf.old) }
        ensures changes { Changes Same (view self.old) (view self.new) }
        ensures moments { KeepsMoments (view self.old) (view self.new) }
        ensures call { IsCall (view self.old) (view self.new) (is_err result) }
        ensures causes { ReadCauses (view self.old) (view self.new) result };

    /// Makes an empty file. Once it and the folder are synced, each image has it.
    fn create(&mut self, file: FileName) -> Result<(), Failed>
        requires { IsAbsent (view self.old) file }
        ensures ok { OnOk result (Holds (view self.new) file []) }
        ensures changes { Changes (FileChange file MaybeCreated) (view self.old) (view self.new) }
        ensures moments { KeepsMoments (view self.old) (view self.new) }
        ensures call { IsCall (view self.old) (view self.new) (is_err result) }
        ensures causes { DiskCauses (view self.old) (view self.new) result };

    /// Writes over the file's bytes from this offset on, and past its end where they reach further.
    fn write(&mut self, file: FileName, at: u64, bytes: &[u8]) -> Result<(), Failed>
        requires { Reaches (view self.old) file at }
        ensures ok { OnOk result (Becomes file (λ old. overlay old at bytes.now) (view self.old) (view self.new)) }
        ensures fits { OnOk result (at + length bytes.now ≤ 2 ^ 62) }
        ensures changes { Changes (FileChange file (InPlace (Torn at (length bytes.now)))) (view self.old) (view self.new) }
        ensures moments { KeepsMoments (view self.old) (view self.new) }
        ensures call { IsCall (view self.old) (view self.new) (is_err result) }
        ensures causes { DiskCauses (view self.old) (view self.new) result };

    /// Makes the file's bytes durable. Its name becomes durable by a sync of the folder.
    fn sync(&mut self, file: FileName) -> Result<(), Failed>
        requires { IsThere (view self.old) file }
        ensures ok { OnOk result (IsSynced (view self.new) file) }
        ensures changes { Changes Same (view self.old) (view self.new) }
        ensures moments { KeepsMoments (view self.old) (view self.new) }
        ensures call { IsCall (view self.old) (view self.new) (is_err result) }
        ensures causes { DiskCauses (view self.old) (view self.new) result };

    /// Deletes the file. Once the folder is synced, no image has it.
    fn delete(&mut self, file: FileName) -> Result<(), Failed>
        requires { IsThere (view self.old) file }
        ensures ok { OnOk result (IsAbsent (view self.new) file) }
        ensures changes { Changes (FileChange file MaybeDeleted) (view self.old) (view self.new) }
        ensures moments { KeepsMoments (view self.old) (view self.new) }
        ensures call { IsCall (view self.old) (view self.new) (is_err result) }
        ensures causes { DiskCauses (view self.old) (view self.new) result };

    /// Makes the folder's names durable.
    fn sync_folder(&mut self) -> Result<(), Failed>
        ensures ok { OnOk result (IsFolderSynced (view self.new)) }
        ensures changes { Changes Same (view self.old) (view self.new) }
        ensures moments { KeepsMoments (view self.old) (view self.new) }
        ensures call { IsCall (view self.old) (view self.new) (is_err result) }
        ensures causes { DiskCauses (view self.old) (view self.new) result };

    /// Appends all the bytes to the replies. After an I/O error a prefix of them was appended.
    fn emit(&mut self, bytes: &[u8]) -> Result<(), Failed>
        ensures ok { OnOk result (AllOut bytes.now (view self.old) (view self.new)) }
        ensures emits { Emits bytes.now (view self.old) (view self.new) }
        ensures moments { KeepsMoments (view self.old) (view self.new) }
        ensures prefixes { OnOk result (TellsPrefixes bytes.now (view self.old) (view self.new)) }
        ensures call { IsEmit (view self.old) (view self.new) (is_err result) }
        ensures causes { OutCauses (view self.old) (view self.new) result };

    /// The laws of the host's record.
    ghost sound: { (host : Self) → IsSound (view host) };
}
