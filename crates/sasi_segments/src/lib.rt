//! Gathers the postings of an index in any order, and gives them back in the order in which an index file is written: stored ones by
//! term and pair, and then those of the spill. A gathering is in memory alone.
#![tactic(auto)]

mod gather;
mod gathered;
mod posting;

pub use gather::Gather;
pub use posting::Posting;
