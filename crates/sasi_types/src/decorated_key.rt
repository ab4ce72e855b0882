// Decorated keys, which order the partitions of a table.
ghost use Rattle.std.specs.Prelude.{◌≡◌};
ghost use Rattle.std.specs.Ordering.{nat_cmp, ordering_then};
ghost use Rattle.sasi_types.specs.Key.{key_cmp};

use crate::{Key, Token};
use std::cmp::Ordering;

/// A decorated key: a key with its token. Partitions are sorted by token, and then by key.
#[derive(Debug, PartialEq, Eq, PartialOrd, Ord, Drop)]
pub struct DecoratedKey {
    pub token: Token,
    pub key: Key,
}

/// The order of partitions: by token, and then by the unsigned bytes of the keys.
pub fn compare(a: Token, x: &[u8], b: Token, y: &[u8]) -> Ordering
    ensures { result ≡ ordering_then (nat_cmp a b) (key_cmp x.now y.now) }
{
    match a.cmp(&b) {
        Ordering::Equal => x.cmp(y),
        order => order,
    }
}
