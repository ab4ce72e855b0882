//! Manifests: the files that list the tables and the live segments of the commit log. Each record is a list of edits that
//! take effect together, and the records build up one listing. It stands on gated files, and promises that a crash leaves
//! the former listing or the next.
#![tactic(auto)]

mod append;
mod apply;
mod column_types;
mod columns;
mod create;
mod edit;
mod edit_list;
mod encode;
mod file_list;
mod files;
mod index_list;
mod listed;
mod listing;
mod manifest;
mod new_files;
mod number_set;
mod open;
mod put;
mod read_edit;
mod read_files;
mod read_index;
mod read_part;
mod read_record;
mod read_replace;
mod rewrite;
mod rewrite_indexes;
mod seal;
mod size;
mod table_list;
mod table_types;
mod text;

pub use edit::Edit;
pub use edit_list::EditList;
pub use files::{ListedFile, ListedFiles, NumberList, PartNumber, PartNumbers};
pub use listed::{ListedTable, ListedTables};
pub use listing::Listing;
pub use manifest::Manifest;
pub use rewrite_indexes::sort_by_number;
pub use table_types::types_of;
