//! Blocks of 4,096 bytes in files: sorted terms with their postings, and levels of pointers above them. A writer packs and
//! writes them, and a reader seeks a term and goes on from there, a block at a time.
#![tactic(auto)]

mod block;
mod block_encode;
mod block_read;
mod block_ref;
mod blocks;
mod decode;
mod encode;
mod fault;
mod level_write;
mod list_form;
mod packer;
mod pointers;
mod position;
mod scan;
mod seek;
mod term_entry;
mod writer;

pub use block_ref::BlockRef;
pub use blocks::Blocks;
pub use list_form::ListForm;
pub use term_entry::TermEntry;
pub use writer::BlockWriter;
