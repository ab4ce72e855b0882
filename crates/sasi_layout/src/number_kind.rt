// The kinds of numbers that a store draws.

/// A kind of number, each of 32 bits. `Record` is no number of a file: it stands for the length of a manifest's record.
#[derive(Clone, Copy, Debug, PartialEq, Eq)]
pub enum NumberKind {
    Manifest,
    Log,
    Data,
    Index,
    Part,
    Record,
}
