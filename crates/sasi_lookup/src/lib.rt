//! Look-ups of tokens in the data files of a table: the keys that each file has with a token, and what the files together have of one
//! of these keys. It stands on sasi_dataread, and promises what the files have and bounds on reads.
#![tactic(auto)]

mod found;
mod key_search;
mod lookup;
mod lookup_file;
mod opening;

pub use lookup::Lookup;
pub use lookup_file::LookupFile;
