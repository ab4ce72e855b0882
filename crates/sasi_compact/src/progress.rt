// How far a compaction is.

/// How far a compaction is, when some units of it were to be done.
#[derive(Clone, Copy, Debug, PartialEq, Eq)]
pub enum Progress {
    /// Keys are left to pass.
    Running,
    /// All keys are passed, and `left` of the units weren't used. What is left is the last unit, which is none of them.
    Ready { left: u32 },
}
