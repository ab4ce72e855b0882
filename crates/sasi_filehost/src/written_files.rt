// Files that are kept open to be written.
ghost use Rattle.std.specs.Prelude.{◌≡◌};
ghost use Rattle.sasi_filehost.specs.OpenFiles.{IsUnwritten, is_of};

use sasi_host::FileName;
use std::fs;

const SLOTS: usize = 8;

// An open file of the folder.
#[derive(Drop)]
pub struct OpenFile {
    name: FileName,
    file: fs::File,
}

// Up to eight files that are written. Where all slots are full, the slot that was filled first is reused.
#[derive(Drop)]
pub struct WrittenFiles {
    slots: [Option<OpenFile>; SLOTS],
    next: usize,
}

impl WrittenFiles {
    pub fn new() -> WrittenFiles {
        WrittenFiles {
            slots: [None, None, None, None, None, None, None, None],
            next: 0,
        }
    }

    // The file of this name, if it is open.
    pub fn get(&self, name: FileName) -> Option<&fs::File> {
        for slot in &self.slots {
            if let Some(open) = slot {
                if open.name == name {
                    return Some(&open.file);
                }
            }
        }
        None
    }

    // Keeps a file open.
    pub fn keep(&mut self, name: FileName, file: fs::File) {
        self.slots[self.next % SLOTS] = Some(OpenFile { name, file });
        self.next = (self.next % SLOTS) + 1;
    }

    // Closes the file of this name, if it is open: another file may get the name.
    pub fn close(&mut self, name: FileName)
        ensures closed { IsUnwritten self.new name }
    {
        for slot in self.slots.iter_mut() {
            if is_of(slot, name) {
                *slot = None;
            }
        }
    }
}

// Whether a slot has the file of this name.
fn is_of(slot: &Option<OpenFile>, name: FileName) -> bool
    ensures { result ≡ is_of name slot.now }
{
    match slot {
        Some(open) => open.name == name,
        None => false,
    }
}
