// The hits of a map in memory.
ghost use Rattle.std.specs.Prelude.{◌≡◌, IfOk, Option};
ghost use Rattle.std.specs.List.Sorted.{IsStrictlySortedBy};
ghost use Rattle.sasi_types.specs.DecoratedKey.{decorated_cmp};
ghost use Rattle.sasi_host.specs.Names.{Folder};
ghost use Rattle.sasi_hits.specs.MapHits.{key_hits};

use sasi_ranges::{Entry, ListStream, TokenStream};
use sasi_types::DecoratedKey;
use std::alloc::{AllocError, Global};

/// The hits of a relation in a map: these keys, which are in their order. The place of each is its position among them.
pub fn map_hits(
    alloc: Global,
    leaf: u32,
    part: u64,
    keys: &[DecoratedKey],
) -> Result<ListStream, AllocError>
    ensures entries { IfOk result (λ made. made ≡ key_hits leaf part keys.now) }
    ensures leaves { IfOk result (λ made. (files : Option Folder) → IsStrictlySortedBy decorated_cmp keys.now → ⟦<ListStream as TokenStream>⟧.leaves made files (key_hits leaf part keys.now)) }
{
    let mut entries = Vec::new(alloc);
    for key in keys {
        entries.push(Entry {
            token: key.token,
            leaf,
            part,
            place: entries.len() as u64,
        })?;
    }
    Ok(ListStream::new(entries))
}
