// The merge of sorted streams.
ghost use Rattle.std.specs.Prelude.{◌≡◌, None, Some, IfOk};
ghost use Rattle.sasi_merge.specs.Least.{least_from};
ghost use Rattle.sasi_merge.specs.Merging.{GivesLeast, has_key, with_token};

use crate::heads::{Head, Heads, copy_key};
use crate::least::{has_key, least, merged};
use sasi_cells::Partition;
use sasi_types::{Key, Token};
use std::alloc::{AllocError, Global};
use std::marker::Model;

/// The merge of sorted streams. It is seen as the token of the key that it gave last.
#[derive(Drop)]
pub struct Merge {
    token: Token,
}

impl Model for Merge {
    ghost use Rattle.std.specs.Prelude.{ℕ};

    ghost Value = { ℕ };

    ghost view = { λ a. a.token };
}

impl Merge {
    /// The merge, before its first key.
    pub fn new() -> Merge
        ensures { result ≡ 0 }
    {
        Merge { token: 0 }
    }

    /// The least key of the heads, by token and then by the bytes of the key, and the merge of its partitions, of which an older
    /// source has the older one; None exactly where all sources are at their end. The caller then moves each source whose head
    /// has this key.
    pub fn next(
        &mut self,
        alloc: Global,
        heads: &Heads,
    ) -> Result<Option<(Key, Partition)>, AllocError>
        ensures { IfOk result (λ found. GivesLeast heads.now self.new found) }
    {
        let heads = heads.as_slice();
        match least(heads) {
            None => Ok(None),
            Some((token, key)) => {
                self.token = token;
                merge_of(alloc, heads, token, key)
            }
        }
    }

    /// Whether the head has the key that was given last, so that its source is to move.
    pub fn has_given(&self, key: &Key, head: &Head) -> bool
        ensures { result ≡ has_key (with_token self.now key.now) head.now }
    {
        has_key(head, self.token, key)
    }
}

// A copy of the least key, with the merge of its partitions.
fn merge_of(
    alloc: Global,
    heads: &[Head],
    token: Token,
    key: &Key,
) -> Result<Option<(Key, Partition)>, AllocError>
    requires { least_from None heads.now ≡ Some (with_token token key.now) }
    ensures { IfOk result (λ found. GivesLeast heads.now token found) }
{
    match merged(alloc, heads, token, key)? {
        None => unreachable!(),
        Some(part) => Ok(Some((copy_key(alloc, key)?, part))),
    }
}
