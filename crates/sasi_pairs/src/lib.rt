//! Data files with the index files that go with them, which one record of a manifest lists once they are durable. It stands on
//! the writers of data files and index files and on manifests, and promises that a crash leaves all files of a data file
//! listed, or none of them.
#![tactic(auto)]

mod builder;
mod builders;
mod durable;
mod index_files;
mod push;
mod sealed;
mod seen;
mod writer;

pub use sasi_datawrite::PairFault;
pub use sealed::{Sealed, commit};
pub use writer::PairWriter;
