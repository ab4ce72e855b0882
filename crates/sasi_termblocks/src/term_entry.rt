// Entries of term blocks.

use sasi_types::{PairList, Term, TreeRef};

/// A term with its pairs: the tree of them, or a few pairs themselves.
#[derive(Drop)]
pub struct TermEntry {
    pub term: Term,
    /// The tree, in every index but a sparse one.
    pub list: Option<TreeRef>,
    /// One to five pairs, in a sparse index.
    pub inline: Option<PairList>,
}
