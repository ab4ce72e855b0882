//! Readers of data files: a file is opened by its header and footer, and gives the partition at an offset, that of a key, or
//! all of them in order. It reads the file by pages, and reports damage only where the file has it.
#![tactic(auto)]

mod data_file;
mod end;
mod file_bytes;
mod find;
mod footer;
mod key_order;
mod pair;
mod partition;
mod parts;
mod token_keys;
mod types;
mod walk;

pub use data_file::DataFile;
pub use end::read_max_timestamp;
pub use token_keys::PlacedKey;
pub use walk::Walk;
