//! The commit log: segments of mutations, each a gated file. An appended mutation survives each crash. A reader returns
//! the mutations in order, or reports where a segment breaks its format.
#![tactic(auto)]

mod fault;
mod log;
mod payload;
mod segment;
mod tables;

pub use log::Log;
pub use sasi_cells::Mutation;
