// Files that are kept open to be read.
ghost use Rattle.std.specs.Prelude.{◌≡◌, ◌-◌, ◌≤◌, ◌⊎◌, length, take, IfOk, is_some, option_copied};
ghost use Rattle.std.specs.Map.{lookup, remove_entry};
ghost use Rattle.lru.specs.LruCache.{lru_cache, promoted, put_entries};
ghost use Rattle.sasi_filehost.specs.OpenFiles.{IsClosed, OpensNone, key_eq, key_of};

use crate::file_key::FileKey;
use lru::LruCache;
use sasi_host::FileName;
use std::alloc::{AllocError, Global};
use std::fs;
use std::num::NonZeroUsize;

// How many files are kept open to be read.
pub const MOST_READ_FILES: usize = 128;

// The files that were read last. Where a further one is kept, the one read longest ago is closed.
#[derive(Drop)]
pub struct ReadFiles {
    files: LruCache<FileKey, fs::File>,
}

impl ReadFiles {
    pub fn new(alloc: Global) -> Result<ReadFiles, AllocError>
        ensures { IfOk result (λ read. read.files.cap ≤ 128) }
    {
        let most = NonZeroUsize::new(MOST_READ_FILES).unwrap_or(NonZeroUsize::MIN);
        let files = LruCache::new(alloc, most)?;
        Ok(ReadFiles { files })
    }

    // Makes the file of this name the one that was read last, and gives whether it is open.
    pub fn recall(&mut self, name: FileName) -> bool
        ensures found { result ≡ is_some (lookup (key_eq (key_of name)) self.old.files.entries) }
        ensures first { self.new.files ≡ lru_cache (promoted (key_eq (key_of name)) self.old.files.entries) self.old.files.cap }
    {
        self.files.promote(&FileKey::new(name))
    }

    // The file of this name, if it is open.
    pub fn get(&self, name: FileName) -> Option<&fs::File>
        ensures { option_copied result ≡ lookup (key_eq (key_of name)) self.now.files.entries }
    {
        self.files.peek(&FileKey::new(name))
    }

    // Keeps a file open as the one that was read last, if there is memory for that, and closes it else.
    pub fn keep(&mut self, name: FileName, file: fs::File)
        ensures { (self.new.files ≡ lru_cache (put_entries key_eq self.old.files (key_of name) file) self.old.files.cap) ⊎ (self.new.files ≡ self.old.files) }
    {
        let _ = self.files.put(FileKey::new(name), file);
    }

    // Closes the file of this name, if it is open: another file may get the name.
    pub fn close(&mut self, name: FileName)
        ensures closed { IsClosed self.new name }
        ensures others { self.new.files ≡ lru_cache (remove_entry (key_eq (key_of name)) self.old.files.entries) self.old.files.cap }
    {
        // Its clause says that no key stands twice.
        let _ = self.files.len();
        let _ = self.files.pop(&FileKey::new(name));
    }

    // Closes the file read longest ago, and keeps no more from now on than are left. Gives whether there was one.
    pub fn keep_fewer(&mut self) -> bool
        ensures room { self.new.files.cap ≤ self.old.files.cap }
        ensures oldest { self.new.files.entries ≡ take (length self.old.files.entries - 1) self.old.files.entries }
        ensures others { OpensNone self.old self.new }
    {
        if self.files.pop_lru().is_none() {
            return false;
        }
        let left = NonZeroUsize::new(self.files.len()).unwrap_or(NonZeroUsize::MIN);
        self.files.resize(left);
        true
    }
}
