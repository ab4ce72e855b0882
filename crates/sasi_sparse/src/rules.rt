// Which terms are stored, and how term blocks are grouped.
ghost use Rattle.std.specs.Prelude.{◌≡◌};
ghost use Rattle.sasi_sparse.specs.Sparse.{is_stored, superblocks};

// A term of more keys isn't stored.
const MAX_KEYS: usize = 5;

// So many term blocks have a tree together.
const GROUP: u64 = 64;

/// Whether a term of so many keys is stored.
pub fn is_stored(keys: usize) -> bool
    ensures { result ≡ is_stored keys }
{
    keys <= MAX_KEYS
}

/// How many groups of 64 so many term blocks have. The last one may have fewer.
pub fn superblocks(blocks: u64) -> u64
    ensures { result ≡ superblocks blocks }
{
    blocks.div_ceil(GROUP)
}
