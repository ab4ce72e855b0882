//! Which keys of a token all relations of a WHERE leave: those that each relation has as a hit in some part of the table. It looks at
//! what a reader has in memory for the token, and reads no file. In a folder that breaks its format it ends, too.
#![tactic(auto)]

mod candidates;
mod file_hits;
mod map_hits;
mod part_hits;
mod relation_keys;

pub use candidates::candidate_keys;
pub use part_hits::PartHits;
