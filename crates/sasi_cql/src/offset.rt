// The offsets of tokens, which are looked up where a text is no statement.
ghost use Rattle.std.specs.Prelude.{◌≡◌, ◌-◌, length};
ghost use Rattle.sasi_model.specs.Tokens.{offset_of, size_from, tokens};

use crate::lexer::next_token;
use crate::separator::skip_separators;

/// The number of tokens of a text, each of which has a byte at least.
pub fn count_tokens(text: &[u8]) -> usize
    ensures { result ≡ length (tokens text.now) }
{
    let mut left = text;
    let mut unclosed = false;
    'tokens: for count in 0..text.len() {
        let Some((_, rest)) = next_token(left, &mut unclosed) else {
            return count;
        };
        left = rest;
    }
    text.len()
}

// The number of bytes from the token on that has `count` tokens in front of it; 0 if there is no such token.
fn size_from(text: &[u8], count: usize) -> usize
    ensures { result ≡ size_from 0 count text.now }
{
    let mut left = text;
    let mut unclosed = false;
    'tokens: for before in 0..count {
        let Some((_, rest)) = next_token(left, &mut unclosed) else {
            return 0;
        };
        left = rest;
    }
    skip_separators(left, &mut unclosed).len()
}

/// The offset of the first of the last `size` tokens; the end of the text for none. It takes no memory, and reads the text twice.
pub fn offset_of_last(text: &[u8], size: usize) -> usize
    ensures { result ≡ offset_of text.now (length (tokens text.now) - size) }
{
    let count = count_tokens(text).saturating_sub(size);
    text.len() - size_from(text, count)
}
