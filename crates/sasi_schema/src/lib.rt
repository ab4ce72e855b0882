//! The definitions of tables and of their indexes, and the rules by which a CREATE TABLE or a CREATE CUSTOM INDEX is refused.
//! It stands on sasi_types, and promises what sasi_model says of a list of definitions.
#![tactic(auto)]

mod check;
mod fault;
mod index;
mod index_check;
mod index_name;
mod number;
mod options;
mod repeats;
mod schema;
mod search;
mod table;

pub use fault::{Limit, SchemaFault};
pub use index::NewIndex;
pub use repeats::{repeated_column, repeated_name};
pub use schema::Schema;
pub use search::{index_on, position_in};
pub use table::Table;
