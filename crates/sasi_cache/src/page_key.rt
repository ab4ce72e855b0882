// Which page of which file.
ghost use Rattle.std.specs.Prelude.{◌++◌};
ghost use Rattle.std.specs.Hash as fed;
ghost use Rattle.std.proofs.Common.{rules};
ghost use Rattle.std.specs.Cmp.{partial_equiv_from_equiv};
ghost use Rattle.std.specs.Cmp.Rules.{hashing};
ghost use Rattle.sasi_host.specs.Names.{rank};
ghost use Rattle.sasi_cache.specs.Pages.{key_eq, keys_equal};

use sasi_host::FileName;
use std::hash::{Hash, Hasher};

// A page of a file. A file's name has no hash of its own, so the key feeds its numbers.
#[derive(Clone, Copy)]
pub struct PageKey {
    pub file: FileName,
    pub page: u64,
}

impl PartialEq for PageKey {
    ghost eq = { key_eq };

    ghost laws = { partial_equiv_from_equiv keys_equal };

    fn eq(&self, other: &PageKey) -> bool {
        self.file == other.file && self.page == other.page
    }
}

impl Eq for PageKey {
    ghost laws = { keys_equal };
}

impl Hash for PageKey {
    ghost hash_input = { λ k. fed.u8 (rank k.file.kind) ++ fed.u32 k.file.number ++ fed.u32 k.file.index ++ fed.u32 k.file.part ++ fed.u64 k.page };

    ghost respects_eq = { Prim.search (hashing, rules) };

    fn hash<H: Hasher>(&self, state: &mut H) {
        state.write_u8(self.file.kind.rank());
        state.write_u32(self.file.number);
        state.write_u32(self.file.index);
        state.write_u32(self.file.part);
        state.write_u64(self.page);
    }
}
