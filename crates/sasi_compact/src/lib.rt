//! Stepped compactions: some data files of a table become one, partition by partition, while statements go on in between. It stands on
//! scans of a table and on writers of data files with their index files, and promises the merge of the sources, which a crash leaves listed
//! whole or not at all.
#![tactic(auto)]

mod ahead;
mod compaction;
mod listing;
mod output;
mod progress;
mod task;

pub use progress::Progress;
pub use sasi_pairs::PairFault;
pub use task::CompactTask;
