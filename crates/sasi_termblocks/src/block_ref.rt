// Where the blocks of a file stand.

/// The blocks of a file: the term blocks, and above them the levels of pointer blocks. Each block has 4,096 bytes, and each
/// offset is a multiple of that.
#[derive(Clone, Copy, Debug, PartialEq, Eq)]
pub struct BlockRef {
    /// The offset of the first term block, also where there is none.
    pub first: u64,
    /// The number of term blocks.
    pub blocks: u64,
    /// The number of levels of pointer blocks.
    pub levels: u64,
    /// The offset of the top pointer block, or 0.
    pub top: u64,
    /// The number of terms.
    pub terms: u64,
}
