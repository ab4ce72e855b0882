// What a manifest lists.
ghost use Rattle.std.specs.Prelude.{◌≡◌, [], IfOk};

use crate::ListedTables;
use crate::table_types::table_types;
use sasi_host::SegmentNumber;
use sasi_types::{Partitioner, TableTypes};
use std::alloc::{AllocError, Global};

/// What the records of a manifest build up.
#[derive(Drop)]
pub struct Listing {
    pub partitioner: Partitioner,
    /// The live segments of the log are those from `floor` to `last`.
    pub floor: SegmentNumber,
    pub last: SegmentNumber,
    /// How many records the manifest has.
    pub records: u64,
    /// The length of the manifest, its closed gate included.
    pub length: u64,
    pub tables: ListedTables,
}

impl Listing {
    ghost use Rattle.sasi_manifest.specs.Types.{numbered_types};

    /// The listing of a new folder: no tables, and one segment of the log. Its manifest has one record of 14 bytes.
    pub fn new(alloc: Global, partitioner: Partitioner) -> Listing
        ensures { result ≡ record { partitioner = partitioner; floor = 1; last = 1; records = 1; length = 36; tables = [] } }
    {
        Listing {
            partitioner,
            floor: 1,
            last: 1,
            records: 1,
            length: 36,
            tables: ListedTables::new(alloc),
        }
    }

    /// A copy.
    pub fn copy(&self, alloc: Global) -> Result<Listing, AllocError>
        ensures { IfOk result (λ copy. copy ≡ self.now) }
    {
        let tables = self.tables.copy(alloc)?;
        Ok(Listing {
            partitioner: self.partitioner,
            floor: self.floor,
            last: self.last,
            records: self.records,
            length: self.length,
            tables,
        })
    }

    /// The number of each table, with the types of its columns: the key's first, and then those of the others in order.
    pub fn table_types(&self, alloc: Global) -> Result<TableTypes, AllocError>
        ensures { IfOk result (λ types. types ≡ numbered_types 1 self.now.tables) }
    {
        table_types(alloc, self.tables.as_slice())
    }
}
