// The layout of a level, by its number of entries.
ghost use Rattle.std.specs.Prelude.{◌≡◌, ℕ, ◌*◌, ◌^◌, ◌<◌, ◌≤◌, List, length};
ghost use Rattle.sasi_types.specs.declared.tree.Pair.{Pair};
ghost use Rattle.sasi_tokentree.specs.Format.{nodes, entries_of_node, size, tree_bytes};
ghost use Rattle.sasi_tokentree.specs.Heights.{levels_size};
ghost use Rattle.sasi_tokentree.specs.Damages.{is_node_offset};

use sasi_types::Pair;

/// The entries of a full node.
pub const MAX_ENTRIES: usize = 255;

/// The bytes of a full node.
pub const MAX_NODE_BYTES: u64 = 4088;

// The bytes of a node with one entry.
const MIN_NODE_BYTES: u64 = 24;

/// Whether a node can stand at this offset, in the part of a file from one offset to another.
pub fn is_node_offset(from: u64, to: u64, place: u64) -> bool
    ensures { result ≡ is_node_offset from to place }
{
    from <= place && to >= MIN_NODE_BYTES && place <= to - MIN_NODE_BYTES
}

// How many nodes so many entries take.
pub fn node_count(entries: usize) -> usize
    ensures { result ≡ nodes entries }
{
    entries / MAX_ENTRIES + usize::from(entries % MAX_ENTRIES != 0)
}

// The entries of a node.
pub fn node_entries(entries: &[Pair], index: usize) -> &[Pair]
    requires { 255 * index < length entries.now }
    ensures is { result.now ≡ entries_of_node entries.now index }
    ensures some { 0 < length result.now }
    ensures most { length result.now ≤ 255 }
{
    let rest = &entries[MAX_ENTRIES * index..];
    &rest[..rest.len().min(MAX_ENTRIES)]
}

// How many bytes the nodes of so many entries take.
pub fn level_size(entries: usize) -> u64
    requires { size entries < 2 ^ 64 }
    ensures { result ≡ size entries }
{
    16 * entries as u64 + 8 * node_count(entries) as u64
}

// How many bytes all levels of so many entries take.
fn levels_size(entries: usize) -> u64
    requires { entries ≤ 2 ^ 58 }
    ensures is { (most : ℕ) → entries ≤ most → result ≡ levels_size most entries }
    ensures short { result ≤ 25 * entries }
{
    if entries <= MAX_ENTRIES {
        return level_size(entries);
    }
    level_size(entries) + levels_size(node_count(entries))
}

/// How many bytes the tree of so many pairs takes.
pub fn tree_size(pairs: usize) -> u64
    requires { pairs ≤ 2 ^ 58 }
    ensures { (at : ℕ) (list : List Pair) → length list ≡ pairs → result ≡ length (tree_bytes at list) }
{
    levels_size(pairs)
}
