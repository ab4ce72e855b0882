//! Merges sorted streams of partitions: of the heads of several sources it gives the least key, with the merge of its partitions.
//! It stands on sasi_cells. Its laws tell that the stream is the merge of the sources' maps, in order.
#![tactic(auto)]

mod heads;
mod least;
mod merge;

pub use heads::{Head, Heads, copy_head};
pub use least::{add_head, has_key};
pub use merge::Merge;
