//! Prepares pieces: parses one, refuses it or tells what it asks, and prints its reply. `RowQuery` is what a SELECT asks of the rows
//! of a table, and `Machine` applies all that to tables and cursors in memory alone. It stands on sasi_cql, sasi_schema, sasi_memtable,
//! sasi_cursors, sasi_analyzers and sasi_print, and promises the state, the session, the reply and the refusal of the model.
#![tactic(auto)]

mod assign;
mod bounds;
mod builder;
mod built;
mod change;
mod check;
mod condition;
mod conditions;
mod cursors;
mod database;
mod fault;
mod index;
mod key;
mod limit;
mod literal_rule;
mod literals;
mod machine;
mod memtables;
mod name_rule;
mod operators;
mod outcome;
mod picking;
mod prepared;
mod preparing;
mod printed_cursors;
mod printed_rows;
mod read;
mod refusal;
mod relation;
mod relation_rule;
mod reply_refusal;
mod row_filter;
mod row_query;
mod search;
mod select;
mod select_refusal;
mod statement_mutation;
mod table_rows;
mod terms;
mod time;

pub use condition::{Comparison, Condition};
pub use cursors::check_open;
pub use machine::Machine;
pub use outcome::Outcome;
pub use prepared::{CompactAsked, CompactSteps, FetchAsked, OpenAsked, Prepared, Selection};
pub use preparing::{prepare, prepare_change};
pub use refusal::Refusal;
pub use reply_refusal::reply_refusal as refuse;
pub use row_filter::RowFilter;
pub use row_query::RowQuery;
pub use sasi_print::Reply;
pub use search::{Search, finds_among};
pub use select_refusal::select_refusal as refusal_of_select;
