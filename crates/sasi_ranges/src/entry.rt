// Hits of relations.
ghost use Rattle.std.specs.Prelude.{◌≡◌};
ghost use Rattle.std.specs.Ordering.{is_eq, is_lt};
ghost use Rattle.sasi_ranges.specs.Entries.{entry_cmp};

use sasi_types::Token;

/// A hit of a relation at a place in a part. Entries are in the order of their tokens, then of relations, parts and places.
#[derive(Clone, Copy, Debug, PartialEq, Eq, PartialOrd, Ord)]
pub struct Entry {
    /// The token of the partition's key.
    pub token: Token,
    /// The number of the relation, in the order of the query's text.
    pub leaf: u32,
    /// The number of the part: a memtable or a file.
    pub part: u64,
    /// Where the partition stands in the part.
    pub place: u64,
}

// Whether the first entry is below the second.
pub(crate) fn is_below(a: Entry, b: Entry) -> bool
    ensures { result ≡ is_lt (entry_cmp a b) }
{
    a < b
}

// Whether the entries are the same.
pub(crate) fn is_same(a: Entry, b: Entry) -> bool
    ensures { result ≡ is_eq (entry_cmp a b) }
{
    a == b
}
