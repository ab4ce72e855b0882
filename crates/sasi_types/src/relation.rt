// A relation of a WHERE.
use crate::{Literal, Name};

/// How a relation compares.
#[derive(Clone, Copy, Debug, PartialEq, Eq)]
pub enum Test {
    Eq,
    Lt,
    Le,
    Gt,
    Ge,
    Like,
}

/// What a WHERE asks of one column: how its value compares with the literal. LIKE has a text.
#[derive(Drop)]
pub struct Relation {
    pub column: Name,
    pub test: Test,
    pub value: Literal,
}
