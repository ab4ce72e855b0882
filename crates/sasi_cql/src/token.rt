// The tokens of a text.
use sasi_types::Number;

/// A token of a text, whose bytes it borrows.
#[derive(Clone, Copy)]
pub enum Token<'a> {
    /// A word as it is written, in whichever case.
    Word(&'a [u8]),
    /// The bytes between double quotes.
    QuotedName(&'a [u8]),
    /// The bytes between the quotes of a string, with its quotes still doubled.
    Quoted(&'a [u8]),
    Integer(Number),
    Uuid([u8; 16]),
    Open,
    Close,
    Comma,
    Star,
    Equal,
    Less,
    LessEqual,
    More,
    MoreEqual,
    Colon,
    OpenBrace,
    CloseBrace,
    Semicolon,
    /// A byte that begins no token.
    Unknown,
}
