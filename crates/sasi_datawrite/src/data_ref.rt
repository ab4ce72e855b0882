// References to data files, as a manifest lists them.

use sasi_host::DataNumber;
/// A data file that was written.
#[derive(Clone, Copy, Debug, PartialEq, Eq)]
pub struct DataRef {
    pub number: DataNumber,
    /// The number of partitions.
    pub partitions: u64,
    /// The largest timestamp of a deletion or a cell.
    pub greatest: u64,
}
