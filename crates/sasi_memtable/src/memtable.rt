// Memtables.
ghost use Rattle.std.specs.Prelude.{◌≡◌, ◌<◌, ◌^◌, ◌==◌, length, slice_get, IfOk, OnOk, OnErr};
ghost use Rattle.std.specs.BTreeMap.{IsOrdered};
ghost use Rattle.std.specs.FinMap as map;
ghost use Rattle.std.specs.Option.{option_copied, option_map};
ghost use Rattle.sasi_types.specs.DecoratedKey.{decorated_cmp};
ghost use Rattle.sasi_memtable.specs.MemtableView.{AreDecorated, empty_memtable, entries_after, with_change, with_token};
ghost use Rattle.sasi_memtable.specs.Sizes.{byte_count, cell_count, saturated};

use crate::decorated_key::decorated;
use crate::merging::put_at;
use crate::size::Size;
use sasi_cells::Partition;
use sasi_types::{DecoratedKey, Key, Partitioner, Token};
use std::alloc::{AllocError, Global};
use std::collections::BTreeMap;
use std::collections::btree_map::Iter;
use std::marker::Model;
use std::ops::Bound;

/// The memtable of a table: its partitions in the order of their decorated keys. Contracts see them as a finite map, with the
/// partitioner that makes the tokens.
#[derive(Drop)]
pub struct Memtable {
    alloc: Global,
    partitioner: Partitioner,
    partitions: BTreeMap<DecoratedKey, Partition>,
    size: Size,
}

impl Model for Memtable {
    ghost use Rattle.std.specs.FinMap as map;
    ghost use Rattle.sasi_memtable.specs.MemtableView.{MemtableView, coded_memtable};

    ghost Value = { MemtableView };

    ghost coded = { coded_memtable };

    ghost use Rattle.sasi_memtable.specs.Sized.{IsMemtable};

    ghost view = { λ a. record { partitioner = a.partitioner; partitions = map.from_entries a.partitions.entries } };

    ghost invariant = { λ a. IsMemtable a.partitioner (map.from_entries a.partitions.entries) a.size };
}

impl Memtable {
    /// The empty memtable, for keys with tokens of this partitioner.
    pub fn new(alloc: Global, partitioner: Partitioner) -> Memtable
        ensures { result ≡ empty_memtable partitioner }
    {
        Memtable {
            alloc,
            partitioner,
            partitions: BTreeMap::new(alloc),
            size: Size::none(),
        }
    }

    /// What makes the tokens of the keys.
    pub fn partitioner(&self) -> Partitioner
        ensures { result ≡ self.now.partitioner }
    {
        self.partitioner
    }

    /// Merges a copy of a change into the partition of a key. Out of memory leaves the memtable unchanged.
    pub fn put(&mut self, key: &Key, change: &Partition) -> Result<(), AllocError>
        ensures ok { OnOk result (self.new ≡ with_change self.old key.now change.now) }
        ensures err { OnErr result (self.new ≡ self.old) }
    {
        let alloc = self.alloc;
        let key = copy_key(alloc, key)?;
        let change = change.copy(alloc)?;
        self.put_from(key, change)
    }

    /// Merges a change into the partition of a key, by moving both. Out of memory leaves the memtable unchanged.
    pub fn put_from(&mut self, key: Key, change: Partition) -> Result<(), AllocError>
        ensures ok { OnOk result (self.new ≡ with_change self.old key change) }
        ensures err { OnErr result (self.new ≡ self.old) }
    {
        let key = decorated(self.partitioner, key);
        put_at(
            self.alloc,
            &mut self.partitions,
            &mut self.size,
            key,
            change,
        )
    }

    /// The partition of a key, if it has one.
    pub fn get(&self, key: &DecoratedKey) -> Option<&Partition>
        ensures { option_copied result ≡ map.get self.now.partitions key.now }
    {
        self.partitions.get(key)
    }

    /// The partition at a position in the order of the decorated keys, with its token and key; None past the end. It goes over
    /// those before it: to scan them all, take `iter`.
    pub fn at(&self, position: usize) -> Option<(Token, &Key, &Partition)>
        ensures entry { option_map (λ e. (with_token e.0 e.1.now, e.2.now)) result ≡ slice_get (map.entries self.now.partitions) position }
        ensures decorated { AreDecorated self.now.partitioner self.now.partitions }
    {
        entry_at(&self.partitions, position)
    }

    /// The partitions in the order of their decorated keys.
    pub fn iter(&self) -> Iter<'_, DecoratedKey, Partition>
        ensures rest { result ≡ map.entries self.now.partitions }
        ensures fits { length result < 2 ^ 63 }
        ensures decorated { AreDecorated self.now.partitioner self.now.partitions }
    {
        self.partitions.iter()
    }

    /// The first partition behind a key, with its own key; the first of all where no key is given, and None where there is none. It
    /// searches the tree, so that a scan can go on from a key and needs no iterator.
    pub fn after(&self, key: Option<&DecoratedKey>) -> Option<(&DecoratedKey, &Partition)>
        ensures { option_map (λ e. (e.0.now, e.1.now)) result ≡ slice_get (entries_after (option_map (λ k. k.now) key.entry) (map.entries self.now.partitions)) 0 }
    {
        first_after(&self.partitions, key)
    }

    /// Whether no key has a partition.
    pub fn is_empty(&self) -> bool
        ensures { result ≡ (length (map.entries self.now.partitions) == 0) }
    {
        self.partitions.len() == 0
    }

    /// The number of all cells; a marker and a deletion are one each. It saturates at 2^64 - 1.
    pub fn cells(&self) -> u64
        ensures { result ≡ saturated (cell_count self.now.partitions) }
    {
        self.size.cells
    }

    /// The bytes of all keys and values. It saturates at 2^64 - 1.
    pub fn bytes(&self) -> u64
        ensures { result ≡ saturated (byte_count self.now.partitions) }
    {
        self.size.bytes
    }
}

// A copy of a key. Its bytes are those of a key, so the only fault is out of memory.
fn copy_key(alloc: Global, key: &Key) -> Result<Key, AllocError>
    ensures { IfOk result (λ copy. copy ≡ key.now) }
{
    match Key::new(alloc, key.bytes()) {
        Ok(copy) => Ok(copy),
        Err(_) => Err(AllocError),
    }
}

// The entry at a position in the order of the tree, which is that of the decorated keys.
fn entry_at<'a>(
    partitions: &'a BTreeMap<DecoratedKey, Partition>,
    position: usize,
) -> Option<(Token, &'a Key, &'a Partition)>
    ensures entry { option_map (λ e. (with_token e.0 e.1.now, e.2.now)) result ≡ slice_get partitions.now.entries position }
    ensures ordered { IsOrdered decorated_cmp partitions.now }
{
    let (key, partition) = partitions.iter().nth(position)?;
    Some((key.token, &key.key, partition))
}

// The first entry behind a key in the order of the tree, which is that of the decorated keys.
fn first_after<'a>(
    partitions: &'a BTreeMap<DecoratedKey, Partition>,
    key: Option<&DecoratedKey>,
) -> Option<(&'a DecoratedKey, &'a Partition)>
    ensures entry { option_map (λ e. (e.0.now, e.1.now)) result ≡ slice_get (entries_after (option_map (λ k. k.now) key.entry) partitions.now.entries) 0 }
    ensures ordered { IsOrdered decorated_cmp partitions.now }
{
    match key {
        None => partitions.iter().next(),
        Some(key) => {
            let mut behind = partitions.range((Bound::Excluded(key), Bound::Unbounded));
            behind.next()
        }
    }
}
