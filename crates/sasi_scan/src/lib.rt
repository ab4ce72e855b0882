//! Scans of the parts of a table, and look-ups of a key in them. The parts are its listed data files and its maps in memory, the
//! oldest first. It stands on sasi_dataread, sasi_memtable and sasi_merge, and promises the merge of the parts and a bound on reads.
#![tactic(auto)]

mod key_lookup;
mod map_heads;
mod maps;
mod source;
mod sources;
mod table_scan;

pub use key_lookup::find_key;
pub use maps::Maps;
pub use table_scan::TableScan;
