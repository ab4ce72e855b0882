//! Reads index files: opens one by its header and its footer, and searches it for the pairs of the terms that are asked for.
#![tactic(auto)]

mod asked;
mod bound_term;
mod collect;
mod footer;
mod index_file;
mod parts;
mod search;

pub use index_file::IndexFile;
pub use search::Search;
