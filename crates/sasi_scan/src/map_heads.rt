// The heads of maps in memory.
ghost use Rattle.std.specs.Prelude.{◌≡◌, ◌<◌, length, slice_get, Some, IfOk};
ghost use Rattle.std.specs.FinMap as map_;
ghost use Rattle.std.specs.Option.{option_map};
ghost use Rattle.sasi_memtable.specs.MemtableView.{MemtableView, entries_after};
ghost use Rattle.sasi_merge.specs.Streams.{head_of};

use crate::maps::Maps;
use sasi_merge::{Head, copy_head};
use sasi_types::DecoratedKey;
use std::alloc::{AllocError, Global};

/// A copy of the first partition behind a key of the map at this position, or of the first of all where no key is given; None where
/// there is none.
pub fn head_after(
    alloc: Global,
    maps: &Maps,
    position: usize,
    key: Option<&DecoratedKey>,
) -> Result<Head, AllocError>
    ensures { IfOk result (λ head. (m : MemtableView) → slice_get maps.now position ≡ Some m → head ≡ head_of (entries_after (option_map (λ k. k.now) key.entry) (map_.entries m.partitions))) }
{
    let Some(map) = maps.get(position) else {
        return Ok(None);
    };
    match map.after(key) {
        None => Ok(None),
        Some((key, part)) => copy_head(alloc, key, part),
    }
}
