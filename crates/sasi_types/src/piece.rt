// How a piece of a script ends.

/// How a piece of a script ends.
#[derive(Clone, Copy, Debug, PartialEq, Eq)]
pub enum PieceEnd {
    /// At its `;`.
    Whole,
    /// It has more than 2^20 bytes. `finished` says whether a `;` ends it, or the script.
    TooLong { finished: bool },
    /// The script ends inside it.
    Unfinished,
}
