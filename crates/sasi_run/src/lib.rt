//! Runs a script over a folder: opens its store, reads the script from a source, runs it a statement at a time, emits each
//! reply, and answers a status. The contract of `run` is the headline of the repository.
#![tactic(auto)]

mod arguments;
mod command_line;
mod in_memory;
mod next_run;
mod reading;
mod runner;
mod session;
mod status;

pub use arguments::Command;
pub use command_line::command;
pub use in_memory::run_in_memory;
pub use next_run::starts_again;
pub use runner::run;
pub use sasi_store::NumberKind;
pub use status::Status;
