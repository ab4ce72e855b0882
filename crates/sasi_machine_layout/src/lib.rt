//! What a store holds part by part, in memory alone: a second and plain way to reckon how many candidates a SELECT checks, by loops
//! over maps and keys, and which files SHOW FILES tells. Only tests call it. It stands on sasi_machine, and promises the layouts, the
//! counts and the lines of the definitions.
#![tactic(auto)]

mod candidates;
mod contents;
mod count;
mod create;
mod define;
mod draws;
mod files;
mod flush;
mod hits;
mod layout;
mod merging;
mod moves;
mod records;
mod stored;
mod write;

pub use layout::Layout;
