//! Plans of SELECTs, and readers of their rows over a view of a table. It stands on the sources of candidates and on sasi_recheck, and
//! promises that the rows are those of the answer over the merge of the view's parts, and what is read for them.
#![tactic(auto)]

mod lacking;
mod parts;
mod picked_row;
mod plan;
mod plan_candidates;
mod plan_fault;
mod reader;
mod relations;

pub use plan::{Plan, PlanSource};
pub use plan_candidates::PlanCandidates;
pub use plan_fault::PlanFault;
pub use reader::Reader;
