//! The indexes of memtables: which terms the current cells of a column have, and at which keys; and the book of all memtables
//! and frozen maps of a store, each with its indexes. It stands on sasi_memtable and sasi_analyzers, and promises that an index
//! is that of its map after each change.
#![tactic(auto)]

mod first_term;
mod hits;
mod indexed;
mod key_list;
mod map_book;
mod map_part;
mod mem_index;
mod mem_indexes;
mod merged_value;
mod posting;
mod replaced;
mod terms;

pub use key_list::KeyList;
pub use map_book::MapBook;
pub use map_part::MapPart;
pub use mem_index::MemIndex;
pub use mem_indexes::MemIndexes;
pub use terms::terms_of;
