// Relations on indexed columns.
use sasi_terms::Op;
use sasi_types::{IndexNumber, TermList};

/// A relation of a WHERE on an indexed column: the number of the column's index, and what is asked of its terms.
#[derive(Drop)]
pub struct IndexedRelation {
    pub index: IndexNumber,
    pub op: Op,
    /// For each of these words, some term of the value has to be as the operator asks.
    pub words: TermList,
}
