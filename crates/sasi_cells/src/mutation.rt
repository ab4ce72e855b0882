// Mutations.
use crate::Partition;
use sasi_types::{Key, TableNumber};

/// The change of one partition of a table.
#[derive(Drop)]
pub struct Mutation {
    /// The number of the table.
    pub table: TableNumber,
    pub key: Key,
    pub change: Partition,
}
