//! What a store holds part by part, in its files, its log and its memory, and how the moves of a store change it: definitions
//! and laws. Its only code are the kinds of numbers. It stands on what a folder holds, on the formats of its files and on maps of
//! partitions; the crates that open a folder, flush and run statements are proved against it.
#![tactic(auto)]

mod number_kind;

pub use number_kind::NumberKind;
