// Outcomes of pieces.

/// The outcome of a piece.
#[derive(Clone, Copy, Debug, PartialEq, Eq)]
pub enum Outcome {
    Done,
    /// The number of the refusal.
    Refused(u32),
}
