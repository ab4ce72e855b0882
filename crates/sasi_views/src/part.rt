// Parts of a table.
use sasi_formats::Items;
use sasi_host::{DataNumber, FileName};
use sasi_manifest::PartNumbers;

/// A part of a table.
#[derive(Drop)]
pub enum Part {
    /// A data file, with the index files that go with it.
    File {
        number: DataNumber,
        indexes: PartNumbers,
    },
    /// A memtable or a frozen map, by its number.
    Map(u64),
}

/// Parts of a table, one after another.
pub type PartList = Items<Part>;

/// Names of files.
pub type FileList = Items<FileName>;
