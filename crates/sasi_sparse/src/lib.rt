//! The rules of indexes of the mode SPARSE: which terms they store, how the few pairs of a term stand in its entry, and how many
//! groups of blocks have a tree together.
#![tactic(auto)]

mod inline;
mod rules;

pub use inline::put_inline;
pub use rules::{is_stored, superblocks};
