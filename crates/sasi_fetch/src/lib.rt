//! The rows of readers as they are printed: all of them, or some at a time by a cursor that stays open. It stands on sasi_plan, and promises that
//! the rows which a cursor prints are the next ones of those that its view of the table had, whatever is written since.
#![tactic(auto)]

mod cursor;
mod rows;

pub use cursor::Cursor;
pub use rows::print_rows;
