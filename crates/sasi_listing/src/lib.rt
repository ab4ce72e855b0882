//! The names of the files that a manifest lists, and the order in which SHOW FILES tells them. It stands on sasi_manifest, which lists them,
//! and on sasi_layout, whose order that is, and promises that each is there once, in its place.
#![tactic(auto)]

mod told_names;

pub use told_names::{compare_told, listed_names, push_file, push_parts, push_tables, sort_names};
