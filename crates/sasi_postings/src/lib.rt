//! The postings of an index over a data file, and which bytes are the index file of a data file. Its one function adds the
//! postings of a cell to a gathering; all else are definitions and their laws. The crates that write index files beside a
//! data file and that answer questions from them are proved against these.
#![tactic(auto)]

mod gathered;

pub use gathered::add_postings;
