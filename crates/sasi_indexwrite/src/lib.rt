//! Writes index files: from the postings of an index, the trees of the pairs of each term, or in the mode SPARSE of each 64 term
//! blocks, the spill tree, and blocks of terms that lead to the trees or have the pairs. A file is written in one pass over the postings, and synced.
#![tactic(auto)]

mod footer;
mod header;
mod postings;
mod superblocks;
mod term_writer;
mod trailer;
mod tree_writer;
mod unions;
mod write;

pub use footer::Footer;
pub use header::{HEADER_LENGTH, magic};
pub use write::write_index;
