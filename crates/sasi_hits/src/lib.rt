//! The hits of a relation in one part of a table, as streams: those that an index file gives, all keys of a data file that has no index
//! file, and those of a memtable. A stream reads its file no sooner than its first hit is asked for. What the streams leave are exactly
//! the hits of the part.
#![tactic(auto)]

mod file_keys;
mod found;
mod hits;
mod index_hits;
mod map_stream;
mod meeting;
mod next_key;
mod next_of;
mod open_keys;
mod open_searches;
mod word_search;

pub use file_keys::FileKeys;
pub use hits::Hits;
pub use index_hits::IndexHits;
pub use map_stream::map_hits;
