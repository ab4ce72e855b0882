// The hits of relations in a part of a table.

use sasi_memindex::KeyList;

/// Where the hits of the relations in one part of a table are.
#[derive(Drop)]
pub enum PartHits {
    /// In a data file: its position among the files, and of each relation whether the file has its index. Without it each key of the
    /// file is a hit.
    File { file: usize, indexed: Vec<bool> },
    /// In a map in memory: of each relation the keys that it finds there.
    Map { found: Vec<KeyList> },
}
