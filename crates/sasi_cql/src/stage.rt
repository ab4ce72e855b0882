// The progress of the current piece.

/// The progress of the current piece of a splitter.
#[derive(Clone, Copy, PartialEq, Eq)]
pub enum PieceStage {
    /// It has not begun, but a byte or an open comment before may still turn out to belong to it.
    Front,
    Begun,
    Ended,
}
