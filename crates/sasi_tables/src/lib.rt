//! The tables of a store: their maps in memory, the manifest and the log, and what changes them: a mutation, a flush, a freeze, a new
//! table, a new index. It stands on sasi_recover, which opens the folder, and promises of each change that it makes the moves of the
//! layout, and what a crash leaves at each moment.
#![tactic(auto)]

mod creation;
mod definition;
mod fault;
mod flush;
mod flush_draws;
mod flush_file;
mod flush_table;
mod frozen;
mod merged_maps;
mod old_segments;
mod parts;
mod table_maps;
mod view_list;
mod writes;

pub use creation::create;
pub use definition::{check_class, define};
pub use fault::StepFault;
pub use flush_draws::rising_indexes;
pub use flush_table::flush_unless_empty;
pub use frozen::freeze;
pub use parts::{Parts, parts_of};
pub use table_maps::{MapNumbers, TableMaps, forget_unused};
pub use view_list::{aside_parts, view_parts};
pub use writes::write;
