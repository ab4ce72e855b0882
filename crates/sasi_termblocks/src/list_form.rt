// Where the pairs of terms stand.

/// Where the entries of an index file have the pairs of their terms.
#[derive(Clone, Copy, Debug, PartialEq, Eq)]
pub enum ListForm {
    /// In a tree of each term, to which its entry refers.
    Tree,
    /// In the entry itself, which has one to five pairs.
    Inline,
}
