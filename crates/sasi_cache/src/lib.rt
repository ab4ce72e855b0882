//! The page cache: a page reader that keeps the pages that were used last, of files that don't change. It stands on sasi_host and
//! lru, and promises that a page that it gives is that of the file, that a cached page takes no read, and that a forgotten file has
//! no page in it.
#![tactic(auto)]

mod cached;
mod page;
mod page_key;
mod pages;

pub use cached::Cached;
