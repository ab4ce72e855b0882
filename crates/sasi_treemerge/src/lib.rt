//! Merges the pairs of token trees of a file, and pairs in memory: they are given in their order, and each once. A merge keeps the
//! pairs of a tree of one node in memory, and of a larger tree the next pair and one page.
#![tactic(auto)]

mod held_pair;
mod merge;
mod tree_source;
mod whole_tree;

pub use held_pair::HeldPair;
pub use merge::TreeMerge;
pub use tree_source::TreeSource;
