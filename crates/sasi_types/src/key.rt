// Keys of partitions.
ghost use Rattle.std.specs.Prelude.{◌≡◌, ◌<◌, ◌↔◌, [], length, IfOk, Err};
ghost use Rattle.std.proofs.Common.{rules};
ghost use Rattle.std.specs.Cmp.{partial_order_from_own_ties, partial_order_from_total};
ghost use Rattle.std.specs.Cmp.Rules.{comparing};
ghost use Rattle.std.specs.Cmp.Lexicographic.{nat_list_cmp_total};
ghost use Rattle.std.specs.Ordering.{as_partial_cmp};
ghost use Rattle.sasi_types.specs.Key.{key_cmp, key_eq};

use std::alloc::{AllocError, Global};
use std::cmp::Ordering;
use std::marker::Model;

/// The most bytes that a key has.
pub const KEY_LIMIT: usize = 65_535;

/// The key of a partition, seen as its bytes.
#[derive(Debug, Drop)]
pub struct Key {
    bytes: Vec<u8>,
}

impl Model for Key {
    ghost use Rattle.std.specs.Prelude.{List, ℕ};

    ghost Value = { List ℕ };

    ghost view = { λ a. a.bytes.items };
}

/// Why bytes aren't a key.
#[derive(Clone, Copy, Debug, PartialEq, Eq)]
pub enum KeyFault {
    Empty,
    TooLong,
    OutOfMemory,
}

impl Key {
    /// The key with these bytes, of which there are 1 to 65,535.
    pub fn new(alloc: Global, bytes: &[u8]) -> Result<Key, KeyFault>
        ensures ok { IfOk result (λ key. key ≡ bytes.now) }
        ensures empty { (result ≡ Err KeyFault.Empty) ↔ (bytes.now ≡ []) }
        ensures too_long { (result ≡ Err KeyFault.TooLong) ↔ (KEY_LIMIT < length bytes.now) }
    {
        if bytes.is_empty() {
            return Err(KeyFault::Empty);
        }
        if bytes.len() > KEY_LIMIT {
            return Err(KeyFault::TooLong);
        }
        match bytes.to_vec(alloc) {
            Ok(bytes) => Ok(Key { bytes }),
            Err(AllocError) => Err(KeyFault::OutOfMemory),
        }
    }

    /// The bytes of the key.
    pub fn bytes(&self) -> &[u8]
        ensures { result.now ≡ self.now }
    {
        &self.bytes
    }
}

impl PartialEq for Key {
    ghost eq = { key_eq };

    ghost laws = { Prim.search (comparing, rules) };

    fn eq(&self, other: &Key) -> bool {
        self.bytes == other.bytes
    }
}

impl Eq for Key {
    ghost laws = { Prim.search (comparing, rules) };
}

impl Ord for Key {
    ghost cmp = { key_cmp };

    ghost total = { Prim.search (comparing, rules) };

    ghost matches_partial_cmp = { Prim.search (comparing, rules) };

    ghost matches_eq = { Prim.search (comparing, rules) };

    fn cmp(&self, other: &Key) -> Ordering {
        self.bytes.cmp(&other.bytes)
    }
}

impl PartialOrd for Key {
    ghost partial_cmp = { as_partial_cmp key_cmp };

    ghost laws = { partial_order_from_own_ties (partial_order_from_total nat_list_cmp_total) (Prim.search (comparing, rules)) };

    fn partial_cmp(&self, other: &Key) -> Option<Ordering> {
        Some(self.cmp(other))
    }
}
