//! Rechecks candidates: of the rows that the indexes leave it gives those that the WHERE accepts, one after another and up to the LIMIT.
//! It stands on sasi_machine, and on what the sources of candidates promise.
#![tactic(auto)]

mod candidates;
mod either_source;
mod next_row;
mod optional_source;
mod recheck;

pub use candidates::Candidates;
pub use recheck::Recheck;
