// The name of a file as a key of a hash map.
ghost use Rattle.std.specs.Prelude.{◌≡◌};
ghost use Rattle.std.proofs.Common.{rules};
ghost use Rattle.std.specs.Cmp.Rules.{comparing};
ghost use Rattle.sasi_filehost.specs.OpenFiles.{key_eq, key_of};

use sasi_host::FileName;

/// A file's name by its numbers, so that it can be hashed.
#[derive(Clone, Copy, Hash)]
pub struct FileKey {
    pub rank: u8,
    pub number: u32,
    pub index: u32,
    pub part: u32,
}

impl PartialEq for FileKey {
    ghost eq = { key_eq };

    ghost laws = { Prim.search (comparing, rules) };

    fn eq(&self, other: &FileKey) -> bool {
        self.rank == other.rank
            && self.number == other.number
            && self.index == other.index
            && self.part == other.part
    }
}

impl Eq for FileKey {
    ghost laws = { Prim.search (comparing, rules) };
}

impl FileKey {
    /// The key of the file of this name.
    pub fn new(name: FileName) -> FileKey
        ensures { result ≡ key_of name }
    {
        FileKey {
            rank: name.kind.rank(),
            number: name.number,
            index: name.index,
            part: name.part,
        }
    }
}
