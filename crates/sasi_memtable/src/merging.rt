// Merging into the partitions of a table.
ghost use Rattle.std.specs.Prelude.{◌≡◌, Some, unwrap_or, if◌then◌else◌, IfOk, OnOk, OnErr};
ghost use Rattle.std.specs.BTreeMap.{get, is_at};
ghost use Rattle.std.specs.FinMap as map;
ghost use Rattle.sasi_types.specs.declared.decorated_key.DecoratedKey.{DecoratedKey};
ghost use Rattle.sasi_types.specs.DecoratedKey.{decorated_cmp};
ghost use Rattle.sasi_cells.specs.Maps.{put};
ghost use Rattle.sasi_model.specs.Cells.{empty_partition, merge};
ghost use Rattle.sasi_memtable.specs.Sized.{IsSizeAt, IsTotal};

use crate::size::{Size, SizeChange};
use crate::total::resized;
use sasi_cells::Partition;
use sasi_types::DecoratedKey;
use std::alloc::{AllocError, Global};
use std::collections::BTreeMap;

/// Merges a change into the partition of a key, and keeps the size of all partitions. Out of memory leaves both unchanged.
pub fn put_at(
    alloc: Global,
    partitions: &mut BTreeMap<DecoratedKey, Partition>,
    size: &mut Size,
    key: DecoratedKey,
    change: Partition,
) -> Result<(), AllocError>
    requires { IsTotal (map.from_entries partitions.old.entries) size.old }
    ensures ok { OnOk result (map.from_entries {R = decorated_cmp} partitions.new.entries ≡ put (map.from_entries partitions.old.entries) key change) }
    ensures err { OnErr result (map.from_entries {R = decorated_cmp} partitions.new.entries ≡ map.from_entries partitions.old.entries) }
    ensures total { IsTotal (map.from_entries partitions.new.entries) size.new }
{
    let growth = merge_at(alloc, partitions, key, change)?;
    *size = resized(partitions, *size, growth);
    Ok(())
}

// Merges a change into the partition of a key, or into an empty one where the key has none.
fn merge_at(
    alloc: Global,
    partitions: &mut BTreeMap<DecoratedKey, Partition>,
    key: DecoratedKey,
    change: Partition,
) -> Result<SizeChange, AllocError>
    ensures ok { OnOk result ((q : DecoratedKey) → get decorated_cmp partitions.new q ≡ (if is_at (decorated_cmp key) q then Some (merge (unwrap_or (get decorated_cmp partitions.old key) empty_partition) change) else get decorated_cmp partitions.old q)) }
    ensures err { OnErr result ((q : DecoratedKey) → get decorated_cmp partitions.new q ≡ get decorated_cmp partitions.old q) }
    ensures before { IfOk result (λ growth. IsSizeAt key (get decorated_cmp partitions.old key) growth.before) }
    ensures after { IfOk result (λ growth. IsSizeAt key (Some (merge (unwrap_or (get decorated_cmp partitions.old key) empty_partition) change)) growth.after) }
{
    if let Some(partition) = partitions.get_mut(&key) {
        return merge_sized(&key, partition, change);
    }
    let partition = partition_of(alloc, change)?;
    let after = Size::of(&key, &partition);
    partitions.insert(key, partition)?;
    Ok(SizeChange {
        before: Size::none(),
        after,
    })
}

// Merges a change into the partition of a key.
fn merge_sized(
    key: &DecoratedKey,
    partition: &mut Partition,
    change: Partition,
) -> Result<SizeChange, AllocError>
    ensures ok { OnOk result (partition.new ≡ merge partition.old change) }
    ensures err { OnErr result (partition.new ≡ partition.old) }
    ensures before { IfOk result (λ growth. IsSizeAt key.now (Some partition.old) growth.before) }
    ensures after { IfOk result (λ growth. IsSizeAt key.now (Some partition.new) growth.after) }
{
    let before = Size::of(key, partition);
    partition.merge_from(change)?;
    let after = Size::of(key, partition);
    Ok(SizeChange { before, after })
}

// The partition of a change alone.
fn partition_of(alloc: Global, change: Partition) -> Result<Partition, AllocError>
    ensures { IfOk result (λ alone. alone ≡ merge empty_partition change) }
{
    let mut alone = Partition::new(alloc);
    alone.merge_from(change)?;
    Ok(alone)
}
