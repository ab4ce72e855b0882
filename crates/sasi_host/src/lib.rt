//! The outside of a run: the source of the script, and the host, which keeps the files and takes the replies. Contracts see
//! each of them as one record, so that a caller's contract relates the record before a call to the one after it, and tells
//! what a crash in between may leave. Each trait has an implementation in memory, which fails at the calls that are listed.
#![tactic(auto)]

mod buffered;
mod byte_buffer;
mod call;
mod call_log;
mod crash;
mod damage;
mod direct;
mod durable;
mod end_of_file;
mod failed;
mod fault;
mod host;
mod mem_disk;
mod mem_folder;
mod mem_host;
mod mem_host_calls;
mod mem_source;
mod name;
mod page;
mod pick;
mod source;

pub use buffered::BufferedFile;
pub use damage::{Damage, FormatRule, Seen, check_part, found};
pub use direct::Direct;
pub use durable::{make_file, write_durably};
pub use end_of_file::unexpected_end;
pub use failed::Failed;
pub use fault::{HostFault, ReadFault};
pub use host::Host;
pub use mem_host::MemHost;
pub use mem_source::MemSource;
pub use name::{DataNumber, FileName, Kind, ManifestNumber, SegmentNumber};
pub use page::PageReader;
pub use pick::{BytePick, NamePick, Pick};
pub use source::Source;
