//! Prints replies. Each call adds one line to a `Reply`: `ok`, a row, a number of rows or of candidates that were checked, a file,
//! a number of files, or a refusal. It stands on sasi_model, whose lines they are, on sasi_cells, whose rows are printed without a copy, and
//! on sasi_names.
#![tactic(auto)]

mod file_lines;
mod lines;
mod picked_values;
mod refusal_lines;
mod reply;
mod row_values;
mod values;

pub use file_lines::{FileState, file_count, file_line};
pub use lines::{checked, count, ok, picked_row, row};
pub use refusal_lines::{refusal, refusal_about, refusal_at};
pub use reply::Reply;
