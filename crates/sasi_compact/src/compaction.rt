// What is compacted, and into what.
use sasi_host::DataNumber;
use sasi_manifest::NumberList;
use sasi_types::{IndexList, Partitioner, TypeList};

// Data files of a table that become one, and the indexes that it is to have.
#[derive(Drop)]
pub(crate) struct Compaction {
    // The data files, the oldest first.
    pub(crate) sources: NumberList,
    // The number of the output.
    pub(crate) number: DataNumber,
    pub(crate) indexes: IndexList,
    pub(crate) types: TypeList,
    pub(crate) partitioner: Partitioner,
}
