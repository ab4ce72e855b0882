// What is asked of a term.

/// What is asked of a term: how it compares with a body, or with two numbers.
#[derive(Clone, Copy, Debug, PartialEq, Eq)]
pub enum Op {
    /// It is the body.
    Eq,
    /// It begins with the body.
    Prefix,
    /// It ends with the body.
    Suffix,
    /// The body stands somewhere in it.
    Contains,
    /// It is the term of a number from `least` to `greatest`, both included. There is none where `least` is the larger one.
    Range { least: i64, greatest: i64 },
}
