// What is open after a byte of a script.

/// What a byte of a script leaves open.
#[derive(Clone, Copy)]
pub enum ScanMode {
    /// Nothing.
    Plain,
    /// Nothing, but the byte is a `-` that the next may make a comment.
    Dash,
    /// Nothing, but the byte is a `/` that the next may make a comment.
    Slash,
    /// A string.
    Quote,
    QuotedName,
    /// A comment up to the end of its line.
    Line,
    /// A comment up to the next `*/`.
    Block,
    /// Such a comment, and the byte is a `*` that the next may make its end.
    Star,
}
