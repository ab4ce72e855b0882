// The WHERE of an UPDATE or a DELETE.
use sasi_types::{Literal, Name};

/// The WHERE of an UPDATE or a DELETE: the column has this value.
#[derive(Drop)]
pub struct KeyRelation {
    pub column: Name,
    pub value: Literal,
}
