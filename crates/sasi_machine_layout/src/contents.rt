// What a layout holds.
use sasi_host::{DataNumber, ManifestNumber, SegmentNumber};
use sasi_manifest::ListedFile;
use sasi_memtable::Memtable;
use sasi_schema::Schema;
use sasi_types::Partitioner;
use std::alloc::Global;

/// A data file, with the partitions that it has.
#[derive(Drop)]
pub struct FileContents {
    pub listed: ListedFile,
    pub holds: Memtable,
}

/// What a table has beside its definition. No statement freezes a map, so all that isn't in a file is in the memtable.
#[derive(Drop)]
pub struct TableContents {
    /// The first segment of the log that can have mutations of the table.
    pub since: SegmentNumber,
    /// The least live segment from there on that has one.
    pub first: Option<SegmentNumber>,
    /// Rising by number.
    pub files: Vec<FileContents>,
    pub memtable: Memtable,
}

/// All of a layout. The last used number of a segment is `last`, and that of an index is in the schema.
#[derive(Drop)]
pub struct Contents {
    pub alloc: Global,
    pub partitioner: Partitioner,
    /// The live segments of the log are those from `floor` to `last`.
    pub floor: SegmentNumber,
    pub last: SegmentNumber,
    /// The number of records of the manifest, and its length.
    pub records: u64,
    pub length: u64,
    pub schema: Schema,
    pub tables: Vec<TableContents>,
    pub manifest: ManifestNumber,
    /// The last used numbers of a data file and of a part of an index.
    pub data: DataNumber,
    pub part: u32,
    /// The largest timestamp of the state.
    pub max_timestamp: u64,
}
