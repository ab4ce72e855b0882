//! Files of records behind gates. A record is written and synced behind a gate that is closed, and then the gate is opened
//! and synced: so a crash leaves the records from before, with the new one or without.
#![tactic(auto)]

mod append;
mod create;
mod damage;
mod gate;
mod gated;
mod header;
mod next;
mod payload;
mod read;
mod record;

pub use gated::Gated;
pub use record::Record;
