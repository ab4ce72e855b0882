// How much partitions hold.
ghost use Rattle.std.specs.Prelude.{◌≡◌, ◌+◌, ◌<◌, ◌≤◌, ◌^◌, ◌==◌, if◌then◌else◌, IfSome};
ghost use Rattle.std.specs.List.{sum_by};
ghost use Rattle.sasi_memtable.specs.Sizes.{saturated, value_bytes};
ghost use Rattle.sasi_memtable.specs.Sized.{IsSizeAt, IsSizeOf, replaced};

use sasi_cells::{Entry, Partition};
use sasi_types::DecoratedKey;

/// The number of cells, and the bytes of keys and values. Each saturates at 2^64 - 1.
#[derive(Clone, Copy)]
pub struct Size {
    pub cells: u64,
    pub bytes: u64,
}

/// The size of a key's partition before a change and after it.
#[derive(Clone, Copy)]
pub struct SizeChange {
    pub before: Size,
    pub after: Size,
}

impl Size {
    /// The size of nothing.
    pub fn none() -> Size
        ensures { result ≡ record { cells = 0; bytes = 0 } }
    {
        Size { cells: 0, bytes: 0 }
    }

    /// The size of a partition and its key.
    pub fn of(key: &DecoratedKey, partition: &Partition) -> Size
        ensures { IsSizeAt key.now (Some partition.now) result }
    {
        let cells = partition.cells();
        let bytes = key.key.bytes().len() as u64;
        Size {
            cells: with_deletion(cells.len(), partition.deleted()),
            bytes: bytes.saturating_add(bytes_of_values(cells)),
        }
    }

    /// The size of both.
    pub fn plus(self, other: Size) -> Size
        ensures cells { result.cells ≡ saturated (self.cells + other.cells) }
        ensures bytes { result.bytes ≡ saturated (self.bytes + other.bytes) }
    {
        Size {
            cells: self.cells.saturating_add(other.cells),
            bytes: self.bytes.saturating_add(other.bytes),
        }
    }
}

// The number of cells, with one for a deletion.
fn with_deletion(cells: usize, deleted: u64) -> u64
    requires { cells < 2 ^ 63 }
    ensures { result ≡ cells + (if deleted == 0 then 0 else 1) }
{
    if deleted == 0 {
        cells as u64
    } else {
        cells as u64 + 1
    }
}

// The bytes of the values of cells.
fn bytes_of_values(cells: &[Entry]) -> u64
    ensures { result ≡ saturated (sum_by value_bytes cells.now) }
{
    let mut bytes = 0u64;
    for entry in cells {
        bytes = bytes.saturating_add(bytes_of_value(entry));
    }
    bytes
}

// The bytes of the value of a cell, none for a tombstone.
fn bytes_of_value(entry: &Entry) -> u64
    ensures { result ≡ value_bytes entry.now }
{
    match entry.value() {
        None => 0,
        Some(value) => {
            let stored = value.stored();
            stored.as_slice().len() as u64
        }
    }
}

/// A count once one part of it is replaced by another; None where it has saturated, and has to be counted anew.
pub fn replaced(count: u64, before: u64, after: u64) -> Option<u64>
    requires { before ≤ count }
    ensures { result ≡ replaced count before after }
{
    if count == u64::MAX {
        return None;
    }
    Some((count - before).saturating_add(after))
}
