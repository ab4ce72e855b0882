// Why a text is no statement.

/// Why a text is no statement.
#[derive(Clone, Copy, Debug, PartialEq, Eq)]
pub enum ParseFault {
    /// The grammar has no statement for it.
    Syntax {
        /// The offset of the first token with which no statement goes on, or of the first byte that begins no token. The end of
        /// the text, where a statement would go on.
        at: usize,
    },
    OutOfMemory,
}
