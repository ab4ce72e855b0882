//! What a relation asks of the terms of an index: patterns of LIKE, and whether a term is one of those that are asked for; and the
//! terms of numbers. The crate also has the definition of the terms of a text. It takes no memory.
#![tactic(auto)]

mod matching;
mod number;
mod op;
mod pattern;

pub use matching::holds;
pub use number::{bigint_term, int_term};
pub use op::Op;
pub use pattern::{LikeEmpty, Pattern};
