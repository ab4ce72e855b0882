// What an opening gives.
use sasi_commitlog::Log;
use sasi_host::{DataNumber, ManifestNumber, SegmentNumber};
use sasi_manifest::Manifest;
use sasi_memtable::Memtable;
use sasi_types::TableNumber;

/// The memtable of a table, with the table's number.
#[derive(Drop)]
pub struct TableMap {
    pub number: TableNumber,
    pub memtable: Memtable,
    /// The first live segment that has a mutation of the table, from the first segment on that is listed for it.
    pub first: Option<SegmentNumber>,
}

/// A memtable for each table, in the order of their numbers.
pub type MapList = Vec<TableMap>;

/// The last used numbers: the largest that are listed. `manifest` is that of the seal, and `log` that of the last segment.
#[derive(Clone, Copy)]
pub struct Numbers {
    pub manifest: ManifestNumber,
    pub log: SegmentNumber,
    pub data: DataNumber,
    pub index: u32,
    pub part: u32,
}

/// An opened folder: the manifest that counts, the last segment of the commit log, and what a replay of the live segments
/// makes. `greatest` is the largest timestamp of the state, deletions included.
#[derive(Drop)]
pub struct Opened {
    pub manifest: Manifest,
    pub log: Log,
    pub tables: MapList,
    pub numbers: Numbers,
    pub greatest: u64,
}
