//! Data files: the partitions of a table in token order, then a key tree from tokens to their offsets, and a footer. A file
//! is written in one pass. An observer gets each partition and cell. A content has exactly one encoding.
#![tactic(auto)]

mod data_ref;
mod fault;
mod footer;
mod header;
mod notify;
mod observer;
mod partition;
mod push;
mod trailer;
mod writer;

pub use data_ref::DataRef;
pub use fault::PairFault;
pub use footer::Footer;
pub use header::magic;
pub use observer::{FlushObserver, NoWatch};
pub use partition::put_partition;
pub use writer::DataWriter;
