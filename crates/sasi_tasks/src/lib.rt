//! Tasks of a store: the compactions that run in its tables, begun, gone on with unit by unit, and ended or given up. It stands on sasi_tables, whose
//! parts they change, and on sasi_compact, which merges and writes, and promises of each call that it makes the moves of the layout that the units are.
#![tactic(auto)]

mod beginning;
mod giving_up;
mod last_unit;
mod running;
mod unheld;
mod units;

pub use beginning::begin;
pub use giving_up::give_up;
pub use running::RunningTask;
pub use unheld::{delete_left, delete_unheld};
pub use units::{compact, step};
