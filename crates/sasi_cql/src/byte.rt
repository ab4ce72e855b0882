// Tests of the bytes of a text.
ghost use Rattle.std.specs.Prelude.{◌≡◌};
ghost use Rattle.sasi_model.specs.Pieces.{is_space, starts};
ghost use Rattle.sasi_model.specs.Tokens.{is_digit, is_letter, is_word_byte, lower_byte};
ghost use Rattle.sasi_model.specs.Abbreviations.{starts_digit, starts_word};

/// A space, a tab, CR or LF.
pub fn is_space(byte: u8) -> bool
    ensures { result ≡ is_space byte }
{
    matches!(byte, b' ' | b'\t' | b'\r' | b'\n')
}

/// A letter of ASCII.
pub fn is_letter(byte: u8) -> bool
    ensures { result ≡ is_letter byte }
{
    matches!(byte, b'A'..=b'Z' | b'a'..=b'z')
}

/// A decimal digit.
pub fn is_digit(byte: u8) -> bool
    ensures { result ≡ is_digit byte }
{
    matches!(byte, b'0'..=b'9')
}

/// A byte that a word may go on with: a letter, a digit or `_`.
pub fn is_word_byte(byte: u8) -> bool
    ensures { result ≡ is_word_byte byte }
{
    is_letter(byte) || is_digit(byte) || byte == b'_'
}

/// The byte, with a letter in lower case.
pub fn lower_byte(byte: u8) -> u8
    ensures { result ≡ lower_byte byte }
{
    byte.to_ascii_lowercase()
}

/// The first byte is this one.
pub fn starts(wanted: u8, bytes: &[u8]) -> bool
    ensures { result ≡ starts wanted bytes.now }
{
    match bytes {
        [] => false,
        [first, ..] => *first == wanted,
    }
}

/// The first byte is a digit.
pub fn starts_digit(bytes: &[u8]) -> bool
    ensures { result ≡ starts_digit bytes.now }
{
    match bytes {
        [] => false,
        [first, ..] => is_digit(*first),
    }
}

/// The first byte is one that a word may go on with.
pub fn starts_word(bytes: &[u8]) -> bool
    ensures { result ≡ starts_word bytes.now }
{
    match bytes {
        [] => false,
        [first, ..] => is_word_byte(*first),
    }
}
