// A folder in memory.
ghost use Rattle.std.specs.Prelude.{◌≡◌, ◌+◌, ◌^◌, ◌≤◌, ◌↔◌, length, Some, None, IfOk, OnOk, OnErr, IfSome, IfNone, IsSome, is_some, Contains};
ghost use Rattle.std.specs.Ordering.{eq_by_cmp};
ghost use Rattle.std.specs.Set.{is_member};
ghost use Rattle.std.specs.FinMap as map;
ghost use Rattle.std.specs.List.Sorted.{IsStrictlySortedBy};
ghost use Rattle.sasi_host.specs.Names.{name_cmp};
ghost use Rattle.sasi_host.specs.Files.{FitsAll, look_up, written};

use crate::FileName;
use crate::byte_buffer::ByteBuffer;
use std::alloc::{AllocError, Global};
use std::collections::BTreeMap;
use std::marker::Model;

// The most bytes that a file has.
pub const MAX_FILE_SIZE: u64 = 1 << 62;

// The files of a folder by their names.
#[derive(Drop)]
pub struct MemFolder {
    files: BTreeMap<FileName, ByteBuffer>,
}

impl Model for MemFolder {
    ghost use Rattle.sasi_host.specs.Names.{Folder};

    ghost Value = { Folder };

    ghost use Rattle.sasi_host.specs.Files.{FitsAll, folder_of, folder_code};

    ghost coded = { folder_code };

    ghost view = { λ f. folder_of f.files.entries };

    ghost invariant = { λ f. FitsAll (folder_of f.files.entries) };
}

impl MemFolder {
    pub fn new(alloc: Global) -> MemFolder
        ensures { result ≡ map.empty }
    {
        MemFolder {
            files: BTreeMap::new(alloc),
        }
    }

    pub fn get(&self, name: FileName) -> Option<&[u8]>
        ensures some { IfSome result (λ bytes. map.get self.now name ≡ Some bytes.now) }
        ensures none { IfNone result (map.get self.now name ≡ None) }
    {
        match self.files.get(&name) {
            Some(byte_buffer) => Some(byte_buffer.as_slice()),
            None => None,
        }
    }

    pub fn insert(&mut self, name: FileName, bytes: ByteBuffer) -> Result<(), AllocError>
        requires { length bytes ≤ 2 ^ 62 }
        ensures ok { OnOk result (self.new ≡ map.insert self.old name bytes) }
        ensures err { OnErr result (self.new ≡ self.old) }
        ensures fits { FitsAll self.new }
    {
        self.files.insert(name, bytes)?;
        Ok(())
    }

    pub fn remove(&mut self, name: FileName)
        ensures removed { self.new ≡ map.remove self.old name }
        ensures fits { FitsAll self.new }
    {
        self.files.remove(&name);
    }

    // Writes over a file and past its end. Where the file isn't there, or there would be a gap, nothing changes.
    pub fn write(&mut self, name: FileName, at: u64, bytes: &[u8]) -> Result<(), AllocError>
        ensures ok { OnOk result (self.new ≡ written (map.get self.old name) name at bytes.now self.old) }
        ensures err { OnErr result (self.new ≡ self.old) }
        ensures room { OnOk result (at + length bytes.now ≤ 2 ^ 62) }
        ensures fits { FitsAll self.new }
    {
        let _ = &self.files;
        if bytes.len() as u64 > MAX_FILE_SIZE || at > MAX_FILE_SIZE - bytes.len() as u64 {
            return Err(AllocError);
        }
        let Some(byte_buffer) = self.files.get_mut(&name) else {
            return Ok(());
        };
        byte_buffer.write(at, bytes)
    }

    // The names in their order.
    pub fn names(&self, alloc: Global) -> Result<Vec<FileName>, AllocError>
        ensures has { IfOk result (λ names. (name : _) → Contains names.items name ↔ IsSome (map.get self.now name)) }
        ensures sorted { IfOk result (λ names. IsStrictlySortedBy name_cmp names.items) }
    {
        keys_of(&self.files, alloc)
    }

    pub fn copy(&self) -> Result<MemFolder, AllocError>
        ensures same { IfOk result (λ f. f ≡ self.now) }
        ensures fits { FitsAll self.now }
    {
        Ok(MemFolder {
            files: self.files.clone()?,
        })
    }
}

// The tree's names in their order.
fn keys_of(
    files: &BTreeMap<FileName, ByteBuffer>,
    alloc: Global,
) -> Result<Vec<FileName>, AllocError>
    ensures sorted { IfOk result (λ names. IsStrictlySortedBy name_cmp names.items) }
    ensures has { IfOk result (λ names. (name : _) → is_some (look_up files.now.entries name) ≡ is_member (eq_by_cmp name_cmp) names.items name) }
{
    files.keys().copied().collect(alloc)
}
