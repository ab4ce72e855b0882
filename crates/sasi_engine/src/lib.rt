//! Candidates by the hits of indexed relations. For the relations of a WHERE that are on indexed columns it makes the streams that give
//! their hits in all parts of a table, ready for the intersection, and then the candidates that the hits leave, token by token. It stands
//! on sasi_hits, sasi_lookup, sasi_narrow and sasi_recheck. It promises what the streams and the candidates leave and take, and that the
//! tokens of the intersection are those that a reader has to look at.
#![tactic(auto)]

mod columns;
mod find_keys;
mod hand;
mod hit_candidates;
mod keyed_hits;
mod map_finds;
mod part_finds;
mod part_plan;
mod plan;
mod relation;
mod step;
mod streams;
mod token_entries;

pub use hit_candidates::{HitCandidates, map_numbers};
pub use keyed_hits::KeyedHits;
pub use plan::{PlanStreams, plan_streams};
pub use relation::IndexedRelation;
