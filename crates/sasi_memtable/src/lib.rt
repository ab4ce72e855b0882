//! The memtable of a table: what was written to each key and isn't in a file yet, in the order of the decorated keys. It stands
//! on sasi_cells, and promises a finite map, with the number of its cells and bytes kept up to date.
#![tactic(auto)]

mod decorated_key;
mod memtable;
mod merging;
mod size;
mod total;

pub use decorated_key::decorated;
pub use memtable::Memtable;
