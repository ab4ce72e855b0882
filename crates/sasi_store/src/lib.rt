//! A store: it answers the pieces of a script over a folder, keeps memtables of what isn't in a data file yet, and logs each
//! change before it is applied. It stands on sasi_recover, which opens the folder, on sasi_machine, which prepares pieces, and on
//! sasi_plan, which reads the rows of a SELECT, and promises the model's reply for each layout that the folder may have, and what a
//! crash leaves at each moment.
#![tactic(auto)]

mod compactions;
mod cursors;
mod select;
mod session_state;
mod show_files;
mod step;
mod store;

pub use sasi_layout::NumberKind;
pub use sasi_recover::OpenFault;
pub use sasi_tables::StepFault;
pub use store::Store;
