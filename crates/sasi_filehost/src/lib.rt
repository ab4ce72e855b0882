//! The host and the source of real files: a folder with the standard output, and a script file. The crate stands on
//! sasi_host and lru. It promises that each call and each error is counted, that each call fails once a sync failed, and nothing of what
//! a real file holds.
#![tactic(auto)]

mod descriptors;
mod file_host;
mod file_key;
mod file_source;
mod folder;
mod opening;
mod read_files;
mod reading;
mod tally;
mod written_files;

pub use file_host::FileHost;
pub use file_source::FileSource;
pub use opening::open_folder;
pub use reading::fill_at;
