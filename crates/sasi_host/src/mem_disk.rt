// A folder in memory, with a log of its calls.
ghost use Rattle.std.specs.Prelude.{◌≡◌, ◌+◌, ◌^◌, ◌≤◌, ◌++◌, ◌∷◌, [], length, ◌↔◌, Some, None, OnOk, OnErr, IfOk, IfSome, IfNone, IsSome, Contains};
ghost use Rattle.std.specs.List.Sorted.{IsStrictlySortedBy};
ghost use Rattle.sasi_host.specs.Names.{name_cmp};
ghost use Rattle.sasi_host.specs.Disk.{Fills};
ghost use Rattle.std.specs.FinMap as map;
ghost use Rattle.sasi_host.specs.Files.{FitsAll};
ghost use Rattle.sasi_host.specs.Calls.{replay, opened};
ghost use Rattle.sasi_host.specs.Picks.{picked};

use crate::call::Call;
use crate::crash::crash_image;
use crate::mem_folder::MemFolder;
use crate::{FileName, Pick, call_log};
use std::alloc::{AllocError, Global};

// The folder at the start, the calls since then, and the folder that they lead to.
#[derive(Drop)]
pub struct MemDisk {
    pub alloc: Global,
    pub start: MemFolder,
    pub calls: Vec<Call>,
    pub folder: MemFolder,
    pub emitted: Vec<u8>,
    ghost folder_is: { folder ≡ (replay (opened start) calls.items).folder },
    ghost emitted_is: { emitted.items ≡ (replay (opened start) calls.items).emitted },
    ghost fits: { FitsAll folder },
}

impl MemDisk {
    // A folder with nothing pending. Both arguments are the same folder.
    pub fn new(alloc: Global, start: MemFolder, folder: MemFolder) -> MemDisk
        requires same { folder ≡ start }
        requires fits { FitsAll folder }
        ensures start { result.start ≡ start }
        ensures calls { result.calls.items ≡ [] }
    {
        MemDisk {
            alloc,
            start,
            calls: Vec::new(alloc),
            folder,
            emitted: Vec::new(alloc),
        }
    }

    pub fn put(&mut self, file: FileName, bytes: &[u8]) -> Result<(), AllocError>
        ensures start { self.new.start ≡ self.old.start }
        ensures ok { OnOk result (self.new.calls.items ≡ self.old.calls.items ++ Call.Put file bytes.now ∷ []) }
        ensures err { OnErr result (self.new.calls.items ≡ self.old.calls.items) }
    {
        call_log::put(self.alloc, &mut self.folder, &mut self.calls, file, bytes)
    }

    pub fn create(&mut self, file: FileName) -> Result<(), AllocError>
        ensures start { self.new.start ≡ self.old.start }
        ensures ok { OnOk result (self.new.calls.items ≡ self.old.calls.items ++ Call.Created file ∷ []) }
        ensures err { OnErr result (self.new.calls.items ≡ self.old.calls.items) }
    {
        call_log::create(self.alloc, &mut self.folder, &mut self.calls, file)
    }

    pub fn write(&mut self, file: FileName, at: u64, bytes: &[u8]) -> Result<(), AllocError>
        ensures start { self.new.start ≡ self.old.start }
        ensures ok { OnOk result (self.new.calls.items ≡ self.old.calls.items ++ Call.Wrote file at bytes.now ∷ []) }
        ensures err { OnErr result (self.new.calls.items ≡ self.old.calls.items) }
        ensures room { OnOk result (at + length bytes.now ≤ 2 ^ 62) }
    {
        call_log::write(
            self.alloc,
            &mut self.folder,
            &mut self.calls,
            file,
            at,
            bytes,
        )
    }

    pub fn sync(&mut self, file: FileName) -> Result<(), AllocError>
        ensures start { self.new.start ≡ self.old.start }
        ensures ok { OnOk result (self.new.calls.items ≡ self.old.calls.items ++ Call.Synced file ∷ []) }
        ensures err { OnErr result (self.new.calls.items ≡ self.old.calls.items) }
    {
        call_log::log_call(&mut self.calls, Call::Synced(file))
    }

    pub fn delete(&mut self, file: FileName) -> Result<(), AllocError>
        ensures start { self.new.start ≡ self.old.start }
        ensures ok { OnOk result (self.new.calls.items ≡ self.old.calls.items ++ Call.Deleted file ∷ []) }
        ensures err { OnErr result (self.new.calls.items ≡ self.old.calls.items) }
    {
        call_log::delete(&mut self.folder, &mut self.calls, file)
    }

    pub fn sync_folder(&mut self) -> Result<(), AllocError>
        ensures start { self.new.start ≡ self.old.start }
        ensures ok { OnOk result (self.new.calls.items ≡ self.old.calls.items ++ Call.FolderSynced ∷ []) }
        ensures err { OnErr result (self.new.calls.items ≡ self.old.calls.items) }
    {
        call_log::log_call(&mut self.calls, Call::FolderSynced)
    }

    pub fn emit(&mut self, bytes: &[u8]) -> Result<(), AllocError>
        ensures start { self.new.start ≡ self.old.start }
        ensures ok { OnOk result (self.new.calls.items ≡ self.old.calls.items ++ Call.Emitted bytes.now ∷ []) }
        ensures err { OnErr result (self.new.calls.items ≡ self.old.calls.items) }
    {
        call_log::emit(self.alloc, &mut self.emitted, &mut self.calls, bytes)
    }

    pub fn bytes(&self, file: FileName) -> Option<&[u8]>
        ensures some { IfSome result (λ bytes. map.get (replay (opened self.now.start) self.now.calls.items).folder file ≡ Some bytes.now) }
        ensures none { IfNone result (map.get (replay (opened self.now.start) self.now.calls.items).folder file ≡ None) }
    {
        self.folder.get(file)
    }

    // How many bytes the file has; 0 where it isn't there.
    pub fn size(&self, file: FileName) -> u64
        ensures { (bytes : _) → map.get (replay (opened self.now.start) self.now.calls.items).folder file ≡ Some bytes → result ≡ length bytes }
    {
        match self.folder.get(file) {
            Some(bytes) => bytes.len() as u64,
            None => 0,
        }
    }

    // Fills the buffer with the file's bytes from this offset on.
    pub fn read(&self, file: FileName, at: u64, buf: &mut [u8]) -> usize
        ensures fills { (bytes : _) → map.get (replay (opened self.now.start) self.now.calls.items).folder file ≡ Some bytes → Fills bytes at buf.old buf.new result }
        ensures within { result ≤ length buf.old }
    {
        match self.folder.get(file) {
            Some(bytes) => fill(bytes, at, buf),
            None => 0,
        }
    }

    // The names in their order.
    pub fn names(&self, alloc: Global) -> Result<Vec<FileName>, AllocError>
        ensures has { IfOk result (λ names. (name : _) → Contains names.items name ↔ IsSome (map.get (replay (opened self.now.start) self.now.calls.items).folder name)) }
        ensures sorted { IfOk result (λ names. IsStrictlySortedBy name_cmp names.items) }
    {
        self.folder.names(alloc)
    }

    // The image that the pick names.
    pub fn crash(&self, pick: Pick) -> Result<MemDisk, AllocError>
        ensures start { IfOk result (λ d. d.start ≡ picked pick self.now.calls.items self.now.start) }
        ensures calls { IfOk result (λ d. d.calls.items ≡ []) }
    {
        let start = crash_image(self.alloc, self.start.copy()?, &self.calls, pick)?;
        let folder = start.copy()?;
        Ok(MemDisk::new(self.alloc, start, folder))
    }
}

// Fills the buffer with the bytes from this offset on, as far as both reach.
fn fill(bytes: &[u8], at: u64, buf: &mut [u8]) -> usize
    ensures fills { Fills bytes.now at buf.old buf.new result }
    ensures within { result ≤ length buf.old }
{
    if at >= bytes.len() as u64 {
        return 0;
    }
    let rest = &bytes[at as usize..];
    let count = rest.len().min(buf.len());
    buf[..count].copy_from_slice(&rest[..count]);
    count
}
