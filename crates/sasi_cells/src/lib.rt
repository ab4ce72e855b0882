//! Cells and partitions: what was written to the columns of one key, and the merge of two partitions, in which the newest
//! cell of a column wins, in whatever order they come. It stands on sasi_types and meets the definitions of sasi_model.
#![tactic(auto)]

mod entry;
mod merge_sorted;
mod mutation;
mod order;
mod partition;
mod picked;
mod row;
mod search;

pub use entry::Entry;
pub use mutation::Mutation;
pub use order::newer;
pub use partition::Partition;
pub use picked::{Picked, PickedColumn, PickedList};
pub use row::decode_value;
pub use sasi_types::Cell;
